// What bytes are written to.
ghost use Rattle.std.specs.Prelude.{◌≡◌, ◌≤◌, ◌<◌, ℕ, List, Option, IfOk, IsErrOf, OnErr, OnOk, length, take};
ghost use Rattle.ha_io.specs.Counts.{Rose};
ghost use Rattle.ha_io.specs.Told.{Takes};

use crate::{Failed, IoFault};

/// What bytes are written to, a piece at a time. It may keep what it took for a while, and hands it on where it is flushed or let go.
pub trait Sink: Drop + Send {
    /// How often the outside has failed.
    ghost faults: { Self → ℕ };

    /// How often the outside took no byte and didn't fail.
    ghost zeros: { Self → ℕ };

    /// All bytes that it took, where they are told.
    ghost written: { Self → Option (List ℕ) };

    /// The name that a place made it for, where there is one and it is told.
    ghost name: { Self → Option (List ℕ) };

    /// How many bytes it took and has not handed on.
    ghost kept: { Self → ℕ };

    /// Takes the front of the piece and gives the number of bytes. Any other answer takes nothing.
    fn write(&mut self, bytes: &[u8]) -> Result<usize, IoFault>
        ensures bound { IfOk result (λ count. count ≤ length bytes.now) }
        ensures takes { IfOk result (λ count. Takes (written self.old) (take count bytes.now) (written self.new)) }
        ensures refused { OnErr result (written self.new ≡ written self.old) }

        // The outside fails or takes no byte, and nothing else does.
        ensures cause { IsErrOf result IoFault.Failed → Rose (faults self.old) (faults self.new) }
        ensures zero { IfOk result (λ count. count ≡ 0 → 0 < length bytes.now → Rose (zeros self.old) (zeros self.new)) }
        ensures faults_never_fall { faults self.old ≤ faults self.new }
        ensures zeros_never_fall { zeros self.old ≤ zeros self.new }
        ensures same_name { name self.new ≡ name self.old }
        ensures memory { IsErrOf result IoFault.Memory → self.new ≡ self.old };

    /// Hands on what it keeps. What it took is told as before.
    fn flush(&mut self) -> Result<(), Failed>
        ensures handed { OnOk result (kept self.new ≡ 0) }
        ensures cause { OnErr result (Rose (faults self.old) (faults self.new)) }
        ensures same_written { written self.new ≡ written self.old }
        ensures faults_never_fall { faults self.old ≤ faults self.new }
        ensures zeros_never_fall { zeros self.old ≤ zeros self.new }
        ensures same_name { name self.new ≡ name self.old };
}
