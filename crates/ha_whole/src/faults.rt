//! Why a put has no answer.

use thiserror::Error;

/// Why nothing was put.
#[derive(Clone, Copy, Debug, PartialEq, Eq, Drop, Error)]
pub enum CoreFault {
    /// Memory ran out. The core is spent, its journal and records as before.
    #[error("no memory")]
    Memory,
    /// There is no room: the last segment has 1,048,576 entries, the journal has 4,194,304; or a restart was to be put, and the journal
    /// has 4,194,303 entries or 1,024 segments. All is as before.
    #[error("journal full")]
    Full,
}
