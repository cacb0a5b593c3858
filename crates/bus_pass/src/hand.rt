//! What a pass knows. Code makes none of these values: contracts and proofs alone speak of them.
use bus_turn::BusFault;
use ha_config::Cmd;
use ha_journal::Entry;
use std::collections::LinkedList;

/// An entry that a worker added, its place, and the command that was read for it.
pub struct Given {
    pub place: u64,
    pub entry: Entry,
    pub read: Option<Cmd>,
}

/// A worker that a pass stands for, and what it added, in order.
pub struct Stood {
    pub worker: u32,
    pub given: LinkedList<Given>,
}

/// Whether it is told what a sink took, and the sink's name.
pub struct SinkMark {
    pub told: bool,
    pub name: Option<LinkedList<u8>>,
}

/// What never changes of a bus: its boot, its sinks' marks, and whether it is told what its keeper holds.
pub struct Origin {
    pub boot: Option<Entry>,
    pub calls: SinkMark,
    pub errors: SinkMark,
    pub trace: Option<SinkMark>,
    pub keep: bool,
}

/// What a pass knows.
pub struct Hand {
    /// It is the first pass.
    pub first: bool,
    /// How many workers were split off, in the first pass.
    pub made: u32,
    /// The workers that it stands for.
    pub stands: LinkedList<Stood>,
    /// The journal that it took, while it holds the bus.
    pub taken: Option<LinkedList<Entry>>,
    /// The first fault that it found.
    pub noted: Option<BusFault>,
    /// The first commands that were not put where the journal was found full, each with its worker.
    pub dues: LinkedList<(u32, Cmd)>,
    /// What never changes of the bus; none before the first give.
    pub origin: Option<Origin>,
}
