//! Why a bus stopped.
use thiserror::Error;

/// Why a bus stopped.
#[derive(Clone, Copy, Debug, PartialEq, Eq, Error)]
pub enum BusFault {
    /// A sink failed; with `zero` it took no byte of a piece.
    #[error("a sink failed")]
    Write { zero: bool },
    /// The keeper failed.
    #[error("the keeper failed")]
    Keep,
    /// The last segment or the journal has as many entries as it may have, or there is no room for a restart.
    #[error("journal full")]
    Full,
    /// Memory ran out.
    #[error("out of memory")]
    Memory,
}
