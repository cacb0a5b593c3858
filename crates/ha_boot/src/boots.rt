//! A core that can be booted.
ghost use Rattle.std.specs.Prelude.{◌≡◌, ◌≤◌, ◌∷◌, [], false, IfOk, IsSome};
ghost use Rattle.ha_clock.specs.Local.{last_moment};
ghost use Rattle.ha_clock.specs.Zone.{zone_of};
ghost use Rattle.ha_journal.specs.declared.entry.Entry.TheVariants.{Boot};
ghost use Rattle.ha_config.specs.Names.{of_automations};
ghost use Rattle.ha_config.specs.Sound.{AreSoundMoments, IsSoundConfig};
ghost use Rattle.ha_journal.specs.Entries.{first_carry};

use ha_clock::Moment;
use ha_config::Config;
use ha_value::{Many, Word};
use ha_whole::Core;
use std::alloc::{AllocError, Global};

/// A core that can be booted. A run is proved over each such core; the engine is the one that the program hands in. It may move between
/// threads.
pub trait Boots: Core + Drop + Send {
    /// The core after its first entry, the boot, of a configuration with its text, the stored switches, the start, the zone's text, and when
    /// automations last triggered; names that no automation has are left out of these. The texts of reloads are read by `prepare`. The error is
    /// want of memory alone.
    fn boot(
        alloc: Global,
        text: Word,
        config: Config,
        stored: Option<Many<(Word, bool)>>,
        start: Moment,
        zone: Word,
        last: Many<(Word, Moment)>,
        prepare: Self::Prepare,
    ) -> Result<Self, AllocError>
        requires config { IsSoundConfig config }
        requires zone { IsSome (zone_of zone) }
        requires start { start ≤ last_moment }
        requires last { AreSoundMoments last }
        ensures entries { IfOk result (λ core. Self.entries core ≡ Boot text config stored start zone (first_carry (of_automations config.automations last)) ∷ []) }
        ensures spent { IfOk result (λ core. Self.is_spent core ≡ false) };
}
