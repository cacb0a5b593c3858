// The place of the system's files.
ghost use Rattle.std.specs.Prelude.{◌≡◌, None};

use crate::{FileSink, FileSource, IoFault, Place};
use std::alloc::Global;
use std::fs::File;
use std::io::Stdin;
use std::marker::Model;
use std::rt::Files;

/// The system's files, by their paths from the working directory. For reading, the name `stdin` is standard input, and
/// a file of that name is given as `./stdin`. It tells no content. Contracts see its count of failed calls.
#[derive(Drop)]
pub struct DirPlace<R: Files<File = File> + Drop> {
    rt: R,
    input: Stdin,
    faults: u64,
}

impl<R: Files<File = File> + Drop> Model for DirPlace<R> {
    ghost use Rattle.std.specs.Prelude.{ℕ};

    ghost Value = { ℕ };

    ghost view = { λ p. p.faults };
}

impl<R: Files<File = File> + Drop> DirPlace<R> {
    pub fn make(rt: R, input: Stdin) -> DirPlace<R>
        ensures { result ≡ 0 }
    {
        DirPlace {
            rt,
            input,
            faults: 0,
        }
    }
}

impl<R: Files<File = File> + Drop> Place for DirPlace<R> {
    type Source = FileSource;

    type Sink = FileSink;

    ghost faults = { λ faults. faults };

    ghost holds = { λ _. None };

    ghost asked = { λ _. None };

    ghost last = { λ _. None };

    fn reading(&mut self, _alloc: Global, name: &str) -> Result<FileSource, IoFault> {
        if name == "stdin" {
            return Ok(FileSource::input(self.input));
        }
        match File::open(&self.rt, name) {
            Ok(file) => Ok(FileSource::file(file)),
            Err(_) => {
                self.faults = self.faults.saturating_add(1);
                Err(IoFault::Failed)
            }
        }
    }

    fn writing(&mut self, alloc: Global, name: &str) -> Result<FileSink, IoFault> {
        match File::create(&self.rt, name) {
            Ok(file) => Ok(FileSink::file(alloc, file)?),
            Err(_) => {
                self.faults = self.faults.saturating_add(1);
                Err(IoFault::Failed)
            }
        }
    }
}
