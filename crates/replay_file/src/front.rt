//! The bytes of a trace's file, as far as they are read.
ghost use Rattle.std.specs.Prelude.{◌≡◌, ◌<◌, ◌≤◌, ◌^◌, Some, IfOk, length};
ghost use Rattle.ha_io.specs.Counts.{Rose};
ghost use Rattle.replay_file.specs.Fronts.{IsRead, ReadsOn};
ghost use Rattle.replay_file.specs.declared.front.FrontEnd.{FrontEnd as End};

use ha_io::Source;
use std::alloc::{AllocError, Global};

/// The bytes that one read asks for at most.
const PIECE: usize = 65_536;

/// Where reading ended.
#[derive(Clone, Copy, PartialEq, Eq)]
pub enum FrontEnd {
    /// At the end of the source.
    Whole,
    /// The source failed.
    Failed,
    /// At the bound, and there is more.
    TooLong,
}

/// What was read of a source, and where reading ended.
#[derive(Drop)]
pub struct Front {
    pub text: Vec<u8>,
    pub end: FrontEnd,
}

/// Reads a piece and puts it behind what was read, up to so many bytes in all. Gives where reading ended, if it did.
fn read_more<S: Source>(
    source: &mut S,
    buffer: &mut [u8],
    most: usize,
    text: &mut Vec<u8>,
) -> Result<Option<FrontEnd>, AllocError>
    requires room { length text.old.items < most }
    requires buffer { 0 < length buffer.old }
    ensures read { IfOk result (λ end. ReadsOn most (S.left source.old) text.old.items end (S.left source.new) text.new.items) }
    ensures failed { IfOk result (λ end. end ≡ Some End.Failed → Rose (S.faults source.old) (S.faults source.new)) }
    ensures never_falls { S.faults source.old ≤ S.faults source.new }
    ensures same_name { S.name source.new ≡ S.name source.old }
{
    let wanted = (most - text.len()).min(buffer.len());
    let piece = &mut buffer[..wanted];
    let Ok(count) = source.read(piece) else {
        return Ok(Some(FrontEnd::Failed));
    };
    if count == 0 {
        return Ok(Some(FrontEnd::Whole));
    }
    match text.extend_from_slice(&piece[..count]) {
        Ok(()) => Ok(None),
        Err(fault) => Err(fault),
    }
}

/// Reads a source to its end, or to the bound, or until it fails. Of a longer one a byte more is taken.
pub(crate) fn read_front<S: Source>(
    alloc: Global,
    source: &mut S,
    bound: usize,
) -> Result<Front, AllocError>
    requires { bound < 2 ^ 40 }
    ensures read { IfOk result (λ front. IsRead bound (S.left source.old) front.text.items front.end (S.left source.new)) }
    ensures short { IfOk result (λ front. length front.text.items ≤ bound) }
    ensures failed { IfOk result (λ front. front.end ≡ End.Failed → Rose (S.faults source.old) (S.faults source.new)) }
    ensures never_falls { S.faults source.old ≤ S.faults source.new }
    ensures same_name { S.name source.new ≡ S.name source.old }
{
    let mut text = Vec::new(alloc);
    let mut buffer = match Vec::from_elem(alloc, 0u8, PIECE) {
        Ok(buffer) => buffer,
        Err(fault) => return Err(fault),
    };
    while text.len() <= bound {
        match read_more(source, buffer.as_mut_slice(), bound + 1, &mut text) {
            Ok(None) => {}
            Ok(Some(end)) => return Ok(Front { text, end }),
            Err(fault) => return Err(fault),
        }
    }
    text.truncate(bound);
    Ok(Front {
        text,
        end: FrontEnd::TooLong,
    })
}
