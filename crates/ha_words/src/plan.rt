//! What the words of the program ask for.

use ha_clock::{Moment, Zone};
use ha_value::{Many, Word};

/// Why words were not read.
#[derive(Clone, Copy, Debug, PartialEq, Eq)]
pub enum WordsFault {
    /// They are none of the program's.
    Usage,
    /// Memory ran out.
    Memory,
}

/// What `run` is to do.
#[derive(Drop)]
pub struct RunWords {
    /// The name of the configuration's file.
    pub config: Word,
    /// Now, before the first line.
    pub start: Moment,
    /// The zone of local times, which is `UTC` where the words name none.
    pub zone: Zone,
    /// The name of the file of the trace, where one is to be written.
    pub trace: Option<Word>,
    /// The names of the sources of lines: 1 to 16.
    pub sources: Many<Word>,
}

/// What the words of the program ask for.
#[derive(Drop)]
pub enum Plan {
    Run(RunWords),
    /// Checks the configuration of this file's name.
    Check(Word),
    /// Takes the trace of this file's name again.
    Replay(Word),
    /// Rehearses so many generated lines, at most 100,000.
    Rehearse(u32),
}
