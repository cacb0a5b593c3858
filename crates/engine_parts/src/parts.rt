//! What stands for the journal beside the records.
use crate::ready::Ready;
use crate::slots::Slots;
use ha_clock::{Moment, Zone};
use ha_journal::BusEvent;
use ha_value::Many;
use helper_set::Helpers;
use script_calls::Calls;
use script_step::Frames;
use state_table::StateTable;
use switch_book::Switches;
use timer_queue::TimerQueue;
use trig_set::TrigSet;
use wait_set::Waits;

/// Triggers of automations are attached under their numbers, which are below this; those of waits from there on.
pub const FIRST_WAIT: u64 = 262_144;

/// The parts of an engine.
#[derive(Drop)]
pub struct Parts {
    pub at: Moment,
    pub zone: Zone,
    /// The numbers of the units in force, automations first, as configured.
    pub numbers: Many<u32>,
    /// The next number, which no unit had.
    pub free: u32,
    /// Whether the numbers of the automations ascend. Till the first reload they do.
    pub ascending: bool,
    pub states: StateTable,
    pub helpers: Helpers,
    /// The events of helpers that the last entry gives, once it was entered.
    pub given: Many<BusEvent>,
    pub switches: Switches,
    pub triggers: TrigSet,
    pub waits: Waits,
    /// Of each run, by its serial less 1; none once it has ended.
    pub frames: Slots<Frames>,
    /// The dues of the delays that are not over, under the places of their steps.
    pub delays: TimerQueue,
    pub ready: Ready,
    /// The runs that wait for runs that they called.
    pub calls: Calls,
    /// Of sources 0 to 15.
    pub rested: Vec<bool>,
    /// Whether the last entry is the boot or changed a switch; of a reload it says nothing.
    pub changed: bool,
}
