//! Why a text is no template.

use thiserror::Error;

/// Why a text was not read. `At` is the place of the byte, from 0, at which no reading of a template goes on: the length where
/// the text ends too early.
#[derive(Clone, Copy, Debug, PartialEq, Eq, Error)]
pub enum ParseFault {
    #[error("no template goes on at byte {0}")]
    At(u32),
    #[error("no memory")]
    Memory,
}
