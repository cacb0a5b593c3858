//! How a command of the program ended.
ghost use Rattle.std.specs.Prelude.{◌≡◌};
ghost use Rattle.ha_status.specs.StatusLine.{status_number};

use ha_value::Word;

/// How a command of the program ended. `number` is the status that the process ends with.
#[derive(Debug, Drop)]
pub enum Status {
    /// All was read to its end, and all that was due was done.
    Ok,
    /// The words are none of the program's.
    Usage,
    /// The configuration is refused at this line, counted from 1, with this code.
    ConfigRefused { line: u32, code: u8 },
    /// This file could not be opened.
    OpenFault { name: Word },
    /// Reading failed: of this source, counted from 0, or of the configuration.
    ReadFault { source: Option<u32> },
    /// Writing failed, or a sink took no byte.
    WriteFault { zero: bool },
    /// The store could not be loaded or saved.
    KeepFault,
    /// The journal has all the entries that it may have, and one more was due.
    JournalFull,
    /// This source, counted from 0, has more bytes than its bound.
    SourceTooLong { source: u32 },
    /// What the store holds is no store's text, by this code.
    StoreRefused { code: u8 },
    /// Memory ran out.
    Memory,
    /// This line of a trace, counted from 1, is not the next one that may stand, or the end is missing there.
    TraceRefused { line: u32 },
}

impl Status {
    /// The number that the process ends with.
    #[tactic(auto, unfolding(crate::specs::StatusLine::status_number))]
    pub fn number(&self) -> u8
        ensures { result ≡ status_number self.now }
    {
        match self {
            Status::Ok => 0,
            Status::Usage => 1,
            Status::ConfigRefused { .. } => 2,
            Status::OpenFault { .. } => 3,
            Status::ReadFault { .. } => 4,
            Status::WriteFault { .. } => 5,
            Status::KeepFault => 6,
            Status::JournalFull => 7,
            Status::SourceTooLong { .. } => 8,
            Status::StoreRefused { .. } => 9,
            Status::Memory => 10,
            Status::TraceRefused { .. } => 11,
        }
    }
}
