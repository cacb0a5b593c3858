//! Why a line of a trace is not taken.
use thiserror::Error;

/// Why a line of a trace is not taken.
#[derive(Clone, Copy, Debug, PartialEq, Eq, Drop, Error)]
pub enum TraceFault {
    /// It is not the line that may stand here.
    #[error("trace line refused")]
    Refused,
    /// The last segment or the journal is full, and it is neither the end line nor that of the Again that is due; or it is the line of the
    /// next Restart, which has no room with its Again.
    #[error("journal full")]
    Full,
    /// Memory ran out.
    #[error("no memory")]
    Memory,
}
