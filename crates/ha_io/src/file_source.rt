// A source over the system.
ghost use Rattle.std.specs.Prelude.{◌≡◌, None};

use crate::{Failed, Source};
use std::fs::File;
use std::io::{Read, Stdin};
use std::marker::Model;

#[derive(Drop)]
enum Inlet {
    File(File),
    Input(Stdin),
}

/// A file or standard input. It tells no content. Contracts see its count of failed reads.
#[derive(Drop)]
pub struct FileSource {
    from: Inlet,
    faults: u64,
}

impl Model for FileSource {
    ghost use Rattle.std.specs.Prelude.{ℕ};

    ghost Value = { ℕ };

    ghost view = { λ s. s.faults };
}

impl FileSource {
    pub fn file(file: File) -> FileSource
        ensures { result ≡ 0 }
    {
        FileSource {
            from: Inlet::File(file),
            faults: 0,
        }
    }

    pub fn input(input: Stdin) -> FileSource
        ensures { result ≡ 0 }
    {
        FileSource {
            from: Inlet::Input(input),
            faults: 0,
        }
    }
}

impl Source for FileSource {
    ghost faults = { λ faults. faults };

    ghost left = { λ _. None };

    ghost name = { λ _. None };

    fn read(&mut self, buf: &mut [u8]) -> Result<usize, Failed> {
        let count = match &mut self.from {
            Inlet::File(file) => file.read(buf),
            Inlet::Input(input) => input.read(buf),
        };
        match count {
            Ok(count) => Ok(count),
            Err(_) => {
                self.faults = self.faults.saturating_add(1);
                Err(Failed)
            }
        }
    }
}
