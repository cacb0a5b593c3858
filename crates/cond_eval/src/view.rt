//! The parts that one place of the journal sees.
ghost use Rattle.std.specs.Prelude.{◌≤◌, length};
ghost use Rattle.ha_clock.specs.Local.{last_moment};

use ha_clock::{Moment, Zone};
use ha_config::Config;
use ha_value::Many;
use state_table::StateTable;

/// The states, the configuration with its numbers, the zone and the present moment of a place.
#[derive(Drop)]
pub struct View<'a> {
    pub states: &'a StateTable,
    pub config: &'a Config,
    /// The numbers of the configuration's units, automations first.
    pub numbers: &'a Many<u32>,
    pub zone: &'a Zone,
    /// The present moment.
    pub at: Moment,
    ghost timely: { at ≤ last_moment },
    ghost numbered: { length config.now.automations ≤ length numbers.now },
}
