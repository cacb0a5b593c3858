// A source read whole, and a text written whole.
ghost use Rattle.std.specs.Prelude.{◌≡◌, ◌<◌, ◌≤◌, ◌^◌, ◌+◌, ◌++◌, List, ℕ, IfOk, IfErr, IsErrOf, OnErr, OnOk, length};
ghost use Rattle.std.specs.Io.KnownBytes.{IsAtEnd};
ghost use Rattle.ha_io.specs.Counts.{Rose};
ghost use Rattle.ha_io.specs.Told.{Gives, Takes};
ghost use Rattle.ha_io.specs.Whole.{IsFrontTaken};

use crate::{IoFault, Sink, Source};
use std::alloc::Global;

/// The bytes that one read asks for at most.
const PIECE: usize = 65_536;

/// Why a source was not read whole.
#[derive(Clone, Copy, Debug, PartialEq, Eq)]
pub enum Unread {
    /// The outside failed.
    Failed,
    /// The source has more bytes than its bound.
    TooLong,
    /// Memory ran out.
    Memory,
}

/// Why a text was not written whole.
#[derive(Clone, Copy, Debug, PartialEq, Eq)]
pub enum Unwritten {
    /// The outside failed.
    Failed,
    /// The sink took no byte of a piece.
    Zero,
    /// Memory ran out.
    Memory,
}

/// Reads one piece behind the bytes that were read, of at most `room` bytes, and gives their number.
fn read_piece<S: Source>(
    source: &mut S,
    buffer: &mut [u8],
    room: usize,
    bytes: &mut Vec<u8>,
) -> Result<usize, Unread>
    requires room { 0 < room }
    requires buffer { 0 < length buffer.old }
    ensures more { IfOk result (λ count. (piece : List ℕ) × (bytes.new.items ≡ bytes.old.items ++ piece) × (length piece ≡ count) × (count ≤ room) × Gives (S.left source.old) piece (S.left source.new)) }
    ensures end { IfOk result (λ count. count ≡ 0 → IsAtEnd (S.left source.new)) }
    ensures failed { IsErrOf result Unread.Failed → Rose (S.faults source.old) (S.faults source.new) }
    ensures short { IsErrOf result Unread.TooLong → ⊥ }
    ensures never_falls { S.faults source.old ≤ S.faults source.new }
    ensures same_name { S.name source.new ≡ S.name source.old }
{
    let wanted = room.min(buffer.len());
    let piece = &mut buffer[..wanted];
    match source.read(piece) {
        Err(_) => Err(Unread::Failed),
        Ok(count) => match bytes.extend_from_slice(&piece[..count]) {
            Ok(()) => Ok(count),
            Err(_) => Err(Unread::Memory),
        },
    }
}

/// Reads a source to its end, where it has at most `bound` bytes. Of a longer one `bound + 1` bytes are taken. After
/// another refusal, what was read so far is lost.
pub fn read_whole<S: Source>(alloc: Global, source: &mut S, bound: usize) -> Result<Vec<u8>, Unread>
    requires { bound < 2 ^ 40 }
    ensures whole { IfOk result (λ bytes. Gives (S.left source.old) bytes.items (S.left source.new) × IsAtEnd (S.left source.new)) }
    ensures short { IfOk result (λ bytes. length bytes.items ≤ bound) }
    ensures long { IsErrOf result Unread.TooLong → (bytes : List ℕ) × (length bytes ≡ bound + 1) × Gives (S.left source.old) bytes (S.left source.new) }
    ensures failed { IsErrOf result Unread.Failed → Rose (S.faults source.old) (S.faults source.new) }
    ensures never_falls { S.faults source.old ≤ S.faults source.new }
    ensures same_name { S.name source.new ≡ S.name source.old }
{
    let mut bytes = Vec::new(alloc);
    let Ok(mut buffer) = Vec::from_elem(alloc, 0u8, PIECE) else {
        return Err(Unread::Memory);
    };
    while bytes.len() <= bound {
        let room = bound + 1 - bytes.len();
        match read_piece(source, buffer.as_mut_slice(), room, &mut bytes) {
            Err(fault) => return Err(fault),
            Ok(count) => {
                if count == 0 {
                    return Ok(bytes);
                }
            }
        }
    }
    Err(Unread::TooLong)
}

/// Writes a text to its end. After a refusal a front of it was written.
pub fn write_whole<K: Sink>(sink: &mut K, text: &[u8]) -> Result<(), Unwritten>
    ensures ok { OnOk result (Takes (K.written sink.old) text.now (K.written sink.new)) }
    ensures front { OnErr result (IsFrontTaken (K.written sink.old) text.now (K.written sink.new)) }
    ensures failed { IsErrOf result Unwritten.Failed → Rose (K.faults sink.old) (K.faults sink.new) }
    ensures zero { IsErrOf result Unwritten.Zero → Rose (K.zeros sink.old) (K.zeros sink.new) }
    ensures faults_never_fall { K.faults sink.old ≤ K.faults sink.new }
    ensures zeros_never_fall { K.zeros sink.old ≤ K.zeros sink.new }
    ensures same_name { K.name sink.new ≡ K.name sink.old }
{
    let mut done = 0;
    while done < text.len() {
        match sink.write(&text[done..]) {
            Ok(count) => {
                if count == 0 {
                    return Err(Unwritten::Zero);
                }
                done += count;
            }
            Err(IoFault::Failed) => return Err(Unwritten::Failed),
            Err(IoFault::Memory) => return Err(Unwritten::Memory),
        }
    }
    Ok(())
}
