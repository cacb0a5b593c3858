//! Records of runs.

use ha_sight::Env;

/// How a run ended.
#[derive(Clone, Copy, Debug, PartialEq, Eq)]
pub enum EndCause {
    /// Its script came to its end.
    Done,
    /// Its script stopped.
    Stopped,
    /// An action's own fields failed.
    Faulted,
    /// A newer run of its unit took its place.
    Replaced,
    /// Its automation was turned off, or its script's runs were ended.
    SwitchedOff,
    /// Everything was restarted.
    Restarted,
    /// A reload brought another configuration, and its unit was not in it as it was.
    Reloaded,
}

/// An admitted attempt, and the run that it makes.
#[derive(Drop)]
pub struct Record {
    /// From 1, over all units, in the order of admission.
    pub serial: u64,
    /// Its unit: an automation's place in the configuration, or a script's behind all automations.
    pub automation: u32,
    /// From 1, within the unit.
    pub number: u64,
    /// The entry of its attempt.
    pub place: u64,
    /// Its place among the attempts of that entry, those that were not admitted too.
    pub order: u64,
    pub env: Env,
    /// The entry at which it began; none while it is queued, and for ever where it ended before.
    pub begin: Option<u64>,
    /// The entry at which it ended, and how.
    pub end: Option<(u64, EndCause)>,
    /// How many calls it made.
    pub calls: u64,
}
