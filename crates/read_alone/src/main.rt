//! The program `read_alone`: it cuts standard input into lines and reads their commands, as a worker does, and lets them go.
//! `bench/run` compares what `run` takes for a line with what this takes.
#![tactic(auto)]

use flow_line::read_cmd;
use ha_io::{FileSource, Source};
use ha_text::LineCut;
use std::alloc::{AllocError, Global};
use std::io;
use std::process::ExitCode;

/// How many bytes are read at once, as by a worker.
const PIECE: usize = 65_536;

/// Reads the commands of all whole lines that are held, and tells how many there were.
fn read_lines(alloc: Global, cut: &mut LineCut) -> Result<u64, AllocError> {
    let mut count = 0u64;
    for _ in 0..u64::MAX {
        let Some(line) = cut.take()? else {
            break;
        };
        read_cmd(alloc, line.as_slice())?;
        count = count.saturating_add(1);
    }
    Ok(count)
}

fn main(rt: HostRuntime) -> io::Result<ExitCode> {
    let alloc = rt.alloc();
    let mut source = FileSource::input(rt.stdin());
    let mut cut = LineCut::make(alloc);
    let mut piece = Vec::from_elem(alloc, 0u8, PIECE)?;
    let mut count = 0u64;
    for _ in 0..u64::MAX {
        let Ok(read) = source.read(piece.as_mut_slice()) else {
            return Ok(ExitCode::from(1));
        };
        if read == 0 {
            break;
        }
        cut.push(&piece[..read])?;
        count = count.saturating_add(read_lines(alloc, &mut cut)?);
    }
    println!(rt; "{count} lines")?;
    Ok(ExitCode::from(0))
}
