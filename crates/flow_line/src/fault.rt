//! Why a text is no value.

ghost use Rattle.std.specs.Prelude.{◌≡◌};
ghost use Rattle.flow_line.specs.Refused.{number_of};

use std::fmt;
use thiserror::Error;

/// What is wrong with a text. Its number is what other formats print.
#[derive(Clone, Copy, Debug, PartialEq, Eq)]
pub enum Code {
    /// No reading of a value goes on at this byte.
    Syntax,
    /// The key that begins here stands in its map already.
    RepeatedKey,
    /// More than 32 brackets are open here.
    Depth,
    /// The number that begins here is not from -10^12 to 10^12.
    Range,
}

impl Code {
    pub fn number(self) -> u8
        ensures { result ≡ number_of self }
    {
        match self {
            Code::Syntax => 1,
            Code::RepeatedKey => 2,
            Code::Depth => 3,
            Code::Range => 4,
        }
    }
}

/// Why a text was not read. `at` is the place of the byte, from 0, at which the first fault stands: the length where the text
/// ends too early.
#[derive(Debug, Drop, Error)]
pub enum FlowFault {
    #[error("{code:?} at byte {at}")]
    Bad { at: u32, code: Code },
    #[error("no memory")]
    Memory,
}
