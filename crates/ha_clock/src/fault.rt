//! Why a call of this crate gives no answer.
use thiserror::Error;

/// Why a zone was not read, or a moment not printed.
#[derive(Clone, Copy, Debug, PartialEq, Eq, Drop, Error)]
pub enum ClockFault {
    /// The text names no zone.
    #[error("no time zone")]
    Text,
    /// Memory ran out.
    #[error("out of memory")]
    Memory,
}
