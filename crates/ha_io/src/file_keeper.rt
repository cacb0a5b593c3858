// A keeper over a file.
ghost use Rattle.std.specs.Prelude.{◌≡◌, IfOk, None};

use crate::{IoFault, Keeper};
use std::alloc::{AllocError, Global};
use std::fs::File;
use std::io::{ErrorKind, Read};
use std::marker::Model;
use std::rt::Files;
use std::{fs, io};

/// What is added to the name of the file that is written before it takes the other's place.
const SPARE: &str = ".new";

/// A file that is replaced as a whole. A missing file holds no text. It tells no content. Contracts see its count of
/// failed calls.
#[derive(Drop)]
pub struct FileKeeper<R: Files<File = File> + Drop> {
    rt: R,
    name: String,
    spare: String,
    faults: u64,
}

impl<R: Files<File = File> + Drop> Model for FileKeeper<R> {
    ghost use Rattle.std.specs.Prelude.{ℕ};

    ghost Value = { ℕ };

    ghost view = { λ k. k.faults };
}

impl<R: Files<File = File> + Drop> FileKeeper<R> {
    /// `name` is the file's path. A file of that name with `.new` at its end is written first and then renamed.
    pub fn make(alloc: Global, rt: R, name: &str) -> Result<FileKeeper<R>, AllocError>
        ensures { IfOk result (λ keeper. keeper ≡ 0) }
    {
        let mut spare = String::from_str(alloc, name)?;
        spare.push_str(SPARE)?;
        Ok(FileKeeper {
            rt,
            name: String::from_str(alloc, name)?,
            spare,
            faults: 0,
        })
    }
}

fn read_file(rt: &impl Files, alloc: Global, name: &str) -> io::Result<Vec<u8>> {
    let mut file = File::open(rt, name)?;
    let mut bytes = Vec::new(alloc);
    file.read_to_end(&mut bytes)?;
    Ok(bytes)
}

fn replace_file(rt: &impl Files, name: &str, spare: &str, bytes: &[u8]) -> io::Result<()> {
    fs::write(rt, spare, bytes)?;
    fs::rename(rt, spare, name)
}

impl<R: Files<File = File> + Drop + Send> Keeper for FileKeeper<R> {
    ghost faults = { λ faults. faults };

    ghost kept = { λ _. None };

    fn load(&mut self, alloc: Global) -> Result<Option<Vec<u8>>, IoFault> {
        match read_file(&self.rt, alloc, self.name.as_str()) {
            Ok(bytes) => Ok(Some(bytes)),
            Err(error) if error.kind() == ErrorKind::NotFound => Ok(None),
            Err(error) if error.kind() == ErrorKind::OutOfMemory => Err(IoFault::Memory),
            Err(_) => {
                self.faults = self.faults.saturating_add(1);
                Err(IoFault::Failed)
            }
        }
    }

    fn save(&mut self, bytes: &[u8]) -> Result<(), IoFault> {
        match replace_file(&self.rt, self.name.as_str(), self.spare.as_str(), bytes) {
            Ok(()) => Ok(()),
            Err(_) => {
                self.faults = self.faults.saturating_add(1);
                Err(IoFault::Failed)
            }
        }
    }
}
