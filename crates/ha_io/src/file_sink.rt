// A sink over the system.
ghost use Rattle.std.specs.Prelude.{◌≡◌, None, IfOk};
ghost use Rattle.ha_io.specs.FileSink.{kept_in, no_counts};

use crate::{Failed, IoFault, Sink};
use std::alloc::{AllocError, Global};
use std::fs::File;
use std::io::{BufWriter, Stderr, Stdout, Write};
use std::marker::Model;

/// How many bytes a file's sink keeps at most.
const ROOM: usize = 65_536;

#[derive(Drop)]
enum Outlet {
    File(BufWriter<File>),
    Output(Stdout),
    Errors(Stderr),
}

/// A file, standard output or standard error. To the streams each piece is one write of the system, with no buffer before it. A file's
/// pieces are kept, up to 65,536 bytes, until it is flushed or let go. It tells no content. Contracts see its counts, and how many bytes
/// it keeps.
#[derive(Drop)]
pub struct FileSink {
    to: Outlet,
    faults: u64,
    zeros: u64,
}

impl Model for FileSink {
    ghost use Rattle.ha_io.specs.FileSink.{SinkCounts, kept_in};

    ghost Value = { SinkCounts };

    ghost view = { λ s. record { faults = s.faults; zeros = s.zeros; kept = kept_in s.to } };
}

impl FileSink {
    pub fn file(alloc: Global, file: File) -> Result<FileSink, AllocError>
        ensures { IfOk result (λ sink. sink ≡ no_counts) }
    {
        match BufWriter::with_capacity(alloc, ROOM, file) {
            Ok(file) => Ok(FileSink::over(Outlet::File(file))),
            Err(_) => Err(AllocError),
        }
    }

    pub fn output(output: Stdout) -> FileSink
        ensures { result ≡ no_counts }
    {
        FileSink::over(Outlet::Output(output))
    }

    pub fn errors(errors: Stderr) -> FileSink
        ensures { result ≡ no_counts }
    {
        FileSink::over(Outlet::Errors(errors))
    }

    fn over(to: Outlet) -> FileSink
        requires { kept_in to ≡ 0 }
        ensures { result ≡ no_counts }
    {
        FileSink {
            to,
            faults: 0,
            zeros: 0,
        }
    }
}

impl Sink for FileSink {
    ghost faults = { λ counts. counts.faults };

    ghost zeros = { λ counts. counts.zeros };

    ghost written = { λ _. None };

    ghost name = { λ _. None };

    ghost kept = { λ counts. counts.kept };

    fn write(&mut self, bytes: &[u8]) -> Result<usize, IoFault> {
        let count = match &mut self.to {
            Outlet::File(file) => file.write(bytes),
            Outlet::Output(output) => output.write(bytes),
            Outlet::Errors(errors) => errors.write(bytes),
        };
        match count {
            Ok(count) => {
                if count == 0 && !bytes.is_empty() {
                    self.zeros = self.zeros.saturating_add(1);
                }
                Ok(count)
            }
            Err(_) => {
                self.faults = self.faults.saturating_add(1);
                Err(IoFault::Failed)
            }
        }
    }

    fn flush(&mut self) -> Result<(), Failed> {
        let done = match &mut self.to {
            Outlet::File(file) => file.flush(),
            Outlet::Output(_) | Outlet::Errors(_) => Ok(()),
        };
        match done {
            Ok(()) => Ok(()),
            Err(_) => {
                self.faults = self.faults.saturating_add(1);
                Err(Failed)
            }
        }
    }
}
