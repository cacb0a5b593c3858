// What bytes are read from.
ghost use Rattle.std.specs.Prelude.{◌≡◌, ◌≤◌, ◌<◌, ℕ, List, Option, IfOk, OnErr, length, take};
ghost use Rattle.std.specs.Io.KnownBytes.{IsAtEnd};
ghost use Rattle.ha_io.specs.Counts.{Rose};
ghost use Rattle.ha_io.specs.Told.{Gives};

use crate::Failed;

/// What bytes are read from, a piece at a time.
pub trait Source: Drop + Send {
    /// How often the outside has failed.
    ghost faults: { Self → ℕ };

    /// The bytes still to come, where they are told.
    ghost left: { Self → Option (List ℕ) };

    /// The name that it was made for, where it is told.
    ghost name: { Self → Option (List ℕ) };

    /// Reads into the front of the buffer and gives the number of bytes. 0 on a buffer that isn't empty is the end.
    /// Behind the bytes that were read, and after a failure, the buffer may hold anything.
    fn read(&mut self, buf: &mut [u8]) -> Result<usize, Failed>
        ensures bound { IfOk result (λ count. count ≤ length buf.new) }
        ensures gives { IfOk result (λ count. Gives (left self.old) (take count buf.new) (left self.new)) }
        ensures end { IfOk result (λ count. count ≡ 0 → 0 < length buf.new → IsAtEnd (left self.new)) }
        ensures refused { OnErr result (left self.new ≡ left self.old) }

        // The outside fails, and nothing else does.
        ensures cause { OnErr result (Rose (faults self.old) (faults self.new)) }
        ensures never_falls { faults self.old ≤ faults self.new }
        ensures same_name { name self.new ≡ name self.old };
}
