//! How the reading of a source ended.

/// How the reading of a source ended.
#[derive(Clone, Copy, Debug, PartialEq, Eq)]
pub(crate) enum Ending {
    /// It came to its end.
    Ends,
    /// A read failed.
    Fails,
    /// It gave more than its bound.
    Exceeds,
}
