//! Entries of the journal.

use crate::carry::Carry;
use ha_clock::Moment;
use ha_config::{Cmd, Config};
use ha_sight::{Branch, Item};
use ha_value::{Boxed, Many, Word};

/// One entry of the journal.
#[derive(Drop)]
pub enum Entry {
    /// The first entry, and no other: the configuration with its text, the stored switches, the start and the zone's text.
    Boot {
        text: Word,
        config: Config,
        stored: Option<Many<(Word, bool)>>,
        start: Moment,
        zone: Word,
        carry: Boxed<Carry>,
    },
    /// A line of a source, numbered from 0.
    Line {
        source: u32,
        number: u64,
        cmd: Cmd,
    },
    /// A step of the run with this serial, in one branch of its script, made by this worker.
    Step {
        worker: u32,
        serial: u64,
        branch: Branch,
        item: Item,
    },
    /// Behind each restart line: it opens the next segment, as a boot with the first one's configuration and zone would. `number` counts
    /// these entries from 1, `start` is the present moment, and the stored switches are those that the restart left.
    Again {
        number: u32,
        start: Moment,
        stored: Many<(Word, bool)>,
        carry: Boxed<Carry>,
    },
}
