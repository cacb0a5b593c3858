//! What a run of the program leaves.

use ha_io::{Keeper, Place};
use ha_journal::Entry;
use ha_model::Record;
use ha_status::Status;
use ha_value::Many;

/// What a run of the program leaves.
#[derive(Drop)]
pub struct Outcome<P: Place, Q: Keeper> {
    pub status: Status,
    /// The journal, empty where nothing was booted.
    pub journal: Many<Entry>,
    /// The records of its runs.
    pub records: Many<Record>,
    /// The sources of the words, in order, as far as they were opened; the configuration's alone where reading that failed.
    pub sources: Many<P::Source>,
    pub out: P::Sink,
    pub err: P::Sink,
    /// The sink of the trace, where the words ask for one and anything was booted.
    pub trace: Option<P::Sink>,
    pub keep: Q,
}
