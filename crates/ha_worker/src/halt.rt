//! Why a worker puts no further line.

/// Why a worker puts no further line.
#[derive(Clone, Copy, Debug, PartialEq, Eq)]
pub(crate) enum Halt {
    /// The bus keeps a first fault.
    Stopped,
    /// Memory ran out, of which the bus does not know yet.
    Memory,
}
