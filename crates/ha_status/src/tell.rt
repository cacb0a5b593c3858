//! The status, told on the error sink.
ghost use Rattle.std.specs.Prelude.{◌≡◌, ◌⊎◌};
ghost use Rattle.ha_status.specs.Causes.{NeverFall, OneRose};
ghost use Rattle.ha_status.specs.Written.{TookLine};

use crate::line::status_line;
use crate::status::Status;
use ha_io::{Sink, Unwritten, write_whole};
use std::alloc::Global;

/// Writes the status line, where there is one, and gives the status that the command ends with. A sink that fails changes nothing of
/// the status; want of memory does.
pub fn told<K: Sink>(alloc: Global, err: &mut K, status: Status) -> Status
    ensures status { (result ≡ status) ⊎ (result ≡ Status.Memory) }
    ensures line { TookLine (OneRose (K.faults err.old) (K.faults err.new) (K.zeros err.old) (K.zeros err.new)) result (K.written err.old) (K.written err.new) }
    ensures counts { NeverFall (K.faults err.old) (K.faults err.new) (K.zeros err.old) (K.zeros err.new) }
    ensures same_name { K.name err.new ≡ K.name err.old }
{
    let Ok(line) = status_line(alloc, &status) else {
        return Status::Memory;
    };
    match write_whole(err, line.as_bytes()) {
        Ok(()) => status,
        Err(Unwritten::Failed) => status,
        Err(Unwritten::Zero) => status,
        Err(Unwritten::Memory) => Status::Memory,
    }
}
