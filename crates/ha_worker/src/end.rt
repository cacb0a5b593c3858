//! How a worker ends.
use thiserror::Error;

/// How a worker ended.
#[derive(Clone, Copy, Debug, PartialEq, Eq, Error)]
pub enum WorkerEnd {
    /// Its source was read to its end, and all its lines were put.
    #[error("ended")]
    Ended,
    /// A read of its source failed.
    #[error("lost")]
    Lost,
    /// Its source gave more than its bound of 67,108,864 bytes.
    #[error("too long")]
    TooLong,
    /// The bus keeps a first fault.
    #[error("stopped")]
    Stopped,
    /// Memory ran out.
    #[error("out of memory")]
    Memory,
}
