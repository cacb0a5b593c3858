// What keeps one text from run to run.
ghost use Rattle.std.specs.Prelude.{◌≡◌, ◌⊎◌, ◌≤◌, ℕ, List, Option, IfOk, IfSome, IsErrOf, OnErr, OnOk, Some};
ghost use Rattle.std.specs.Option.{option_map};
ghost use Rattle.ha_io.specs.Counts.{Rose};
ghost use Rattle.ha_io.specs.Told.{told_as};

use crate::IoFault;
use std::alloc::Global;

/// What keeps one text from run to run.
pub trait Keeper: Drop + Send {
    /// How often the outside has failed.
    ghost faults: { Self → ℕ };

    /// The text that it holds, if any, where this is told.
    ghost kept: { Self → Option (Option (List ℕ)) };

    /// The text that it holds, `None` where it holds none.
    fn load(&mut self, alloc: Global) -> Result<Option<Vec<u8>>, IoFault>
        ensures gives { IfOk result (λ found. IfSome (kept self.old) (λ text. option_map (λ bytes. bytes.items) found ≡ text)) }
        ensures keeps { kept self.new ≡ kept self.old }
        ensures cause { IsErrOf result IoFault.Failed → Rose (faults self.old) (faults self.new) }
        ensures never_falls { faults self.old ≤ faults self.new }
        ensures memory { IsErrOf result IoFault.Memory → self.new ≡ self.old };

    /// Makes these bytes the text that it holds. A refusal leaves the old text or the new one.
    fn save(&mut self, bytes: &[u8]) -> Result<(), IoFault>
        ensures saved { OnOk result (kept self.new ≡ told_as (kept self.old) (Some bytes.now)) }
        ensures refused { OnErr result ((kept self.new ≡ kept self.old) ⊎ (kept self.new ≡ told_as (kept self.old) (Some bytes.now))) }
        ensures cause { IsErrOf result IoFault.Failed → Rose (faults self.old) (faults self.new) }
        ensures never_falls { faults self.old ≤ faults self.new }
        ensures memory { IsErrOf result IoFault.Memory → self.new ≡ self.old };
}
