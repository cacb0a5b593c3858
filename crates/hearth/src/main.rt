//! The program `hearth`: its words, the system's files and standard streams, the file of its store, and the status that the run ends with.
#![tactic(auto)]

use conf_reader::Reader;
use ha_engine::Engine;
use ha_io::{DirPlace, FileKeeper, FileSink, OpenGate};
use ha_status::{Status, told};
use ha_top::{Outcome, hearth};
use std::alloc::Global;
use std::io::ErrorKind;
use std::process::ExitCode;
use std::{env, mem};

/// The store's file, in the folder that the program runs in.
const STORE: &str = "hearth_store.json";

/// The words behind the program's name. Words that are not UTF-8 are none of the program's.
fn read_words(rt: &HostRuntime) -> Result<Vec<String>, Status> {
    match env::args(rt) {
        Ok(all) => match all.skip(1).collect(rt.alloc()) {
            Ok(words) => Ok(words),
            Err(_) => Err(Status::Memory),
        },
        Err(error) if error.kind() == ErrorKind::OutOfMemory => Err(Status::Memory),
        Err(_) => Err(Status::Usage),
    }
}

/// Ends the program before it ran.
fn end(alloc: Global, err: FileSink, status: Status) -> ExitCode {
    let mut err = err;
    ExitCode::from(told(alloc, &mut err, status).number())
}

fn main(rt: HostRuntime) -> ExitCode {
    let alloc = rt.alloc();
    let mut place = DirPlace::make(rt, rt.stdin());
    let out = FileSink::output(rt.stdout());
    let err = FileSink::errors(rt.stderr());
    let words = match read_words(&rt) {
        Ok(words) => words,
        Err(status) => return end(alloc, err, status),
    };
    let Ok(keep) = FileKeeper::make(alloc, rt, STORE) else {
        return end(alloc, err, Status::Memory);
    };
    let outcome = hearth::<_, Engine<Reader>, _, _, _>(
        &rt,
        alloc,
        words.as_slice(),
        &mut place,
        out,
        err,
        keep,
        &OpenGate::make(),
    );
    // the memory of the journal and the records goes with the program, and is not given back entry by entry
    let Outcome {
        status,
        journal,
        records,
        ..
    } = outcome;
    mem::forget(journal);
    mem::forget(records);
    ExitCode::from(status.number())
}
