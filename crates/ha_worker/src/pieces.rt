//! Pieces of a source.
ghost use Rattle.std.specs.Prelude.{◌≡◌, ◌≤◌, ◌<◌, ◌∷◌, ◌++◌, ℕ, List, [], true, false, length, IfOk, IsErrOf, OnErr};
ghost use Rattle.std.specs.Io.KnownBytes.{IsAtEnd};
ghost use Rattle.ha_io.specs.Counts.{Rose};
ghost use Rattle.ha_io.specs.Told.{Gives};
ghost use Rattle.ha_text.specs.Lines.{SameLines};

use ha_io::{Failed, Source};
use ha_text::LineCut;

/// Why no piece was taken.
#[derive(Clone, Copy, Debug, PartialEq, Eq)]
pub(crate) enum NoPiece {
    /// The read failed.
    Failed,
    /// Memory ran out after it.
    Memory,
}

/// Reads the next piece, of at most `room` bytes, and hands it to the cut. 0 is the end.
pub(crate) fn pull<S: Source>(
    source: &mut S,
    buffer: &mut [u8],
    room: usize,
    cut: &mut LineCut,
) -> Result<usize, NoPiece>
    requires room { 0 < room }
    requires buffer { 0 < length buffer.old }
    ensures ok { IfOk result (λ count. (piece : List ℕ) × SameLines cut.new (cut.old ++ piece) × (length piece ≡ count) × (count ≤ room) × Gives (S.left source.old) piece (S.left source.new)) }
    ensures end { IfOk result (λ count. count ≡ 0 → IsAtEnd (S.left source.new)) }
    ensures failed { IsErrOf result NoPiece.Failed → Rose (S.faults source.old) (S.faults source.new) }
    ensures unread { IsErrOf result NoPiece.Failed → S.left source.new ≡ S.left source.old }
    ensures lost { IsErrOf result NoPiece.Memory → (piece : List ℕ) × (length piece ≤ room) × Gives (S.left source.old) piece (S.left source.new) }
    ensures cut_stays { OnErr result (cut.new ≡ cut.old) }
    ensures never_falls { S.faults source.old ≤ S.faults source.new }
    ensures same_name { S.name source.new ≡ S.name source.old }
{
    let wanted = room.min(buffer.len());
    let piece = &mut buffer[..wanted];
    match source.read(piece) {
        Err(_) => Err(NoPiece::Failed),
        Ok(count) => match cut.push(&piece[..count]) {
            Ok(()) => Ok(count),
            Err(_) => Err(NoPiece::Memory),
        },
    }
}

/// Whether the source gives one byte more.
pub(crate) fn has_more<S: Source>(source: &mut S) -> Result<bool, Failed>
    ensures more { IfOk result (λ more. more ≡ true → (next : ℕ) × Gives (S.left source.old) (next ∷ []) (S.left source.new)) }
    ensures end { IfOk result (λ more. more ≡ false → Gives (S.left source.old) [] (S.left source.new) × IsAtEnd (S.left source.new)) }
    ensures failed { OnErr result (Rose (S.faults source.old) (S.faults source.new)) }
    ensures unread { OnErr result (S.left source.new ≡ S.left source.old) }
    ensures never_falls { S.faults source.old ≤ S.faults source.new }
    ensures same_name { S.name source.new ≡ S.name source.old }
{
    let mut next = [0u8; 1];
    match source.read(&mut next) {
        Err(_) => Err(Failed),
        Ok(count) => Ok(count > 0),
    }
}
