//! Commands of sources' lines.

use crate::config::Config;
use ha_clock::Moment;
use ha_value::{EntityId, Many, Value, Word};

/// A command of a source's line.
#[derive(Drop)]
pub enum Cmd {
    /// An entity's state text and attributes, whose keys are distinct.
    Report {
        entity: EntityId,
        text: Word,
        attributes: Many<(Word, Value)>,
    },
    /// An entity goes.
    Gone {
        entity: EntityId,
    },
    /// An event with its data, whose keys are distinct.
    Event {
        kind: Word,
        pairs: Many<(Word, Value)>,
    },
    /// It is now this moment, or later already.
    Moment(Moment),
    /// Turns the automation of that name on or off; with `stop`, turning it off ends its runs.
    Switch {
        name: Word,
        on: bool,
        stop: bool,
    },
    /// Asks the automation of that name for a run; with `skip`, whatever its conditions say.
    Trigger {
        name: Word,
        skip: bool,
    },
    /// All states go, all runs end, and the switches are set anew.
    Restart,
    /// Brings the configuration into force that the text is; none before it is read.
    Reload {
        text: Word,
        config: Option<Config>,
    },
    /// A line that was refused, by its code's number: 1 for L1.
    Refused(u8),
    /// The source failed.
    Lost,
    /// The source gave more bytes than a source may.
    TooLong,
}
