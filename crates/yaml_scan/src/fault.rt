//! Why a text is refused.

ghost use Rattle.std.specs.Prelude.{◌≡◌, Some};
ghost use Rattle.yaml_scan.specs.declared.fault.YamlFault.TheVariants.{Memory};
ghost use Rattle.yaml_scan.specs.Codes.{number_of, printed};

use std::alloc::{AllocError, AllocFailed};
use std::fmt;
use thiserror::Error;

/// What is wrong with a configuration. Each code is printed as `C` and its number.
#[derive(Clone, Copy, Debug, PartialEq, Eq)]
pub enum Code {
    /// A tab stands among a line's leading blanks.
    Tab,
    /// A line or a sign stands where nothing of its kind may stand.
    Structure,
    /// What the profile leaves out: an anchor, an alias, a tag, a directive, a second document, flow over several lines.
    LeftOut,
    /// A key stands twice in one map.
    RepeatedKey,
    UnknownKey,
    MissingKey,
    /// A value is of another kind than its key wants.
    Kind,
    EntityId,
    /// Neither a duration nor a time.
    Time,
    Number,
    Template,
    /// One of the limits is passed.
    Limit,
    /// The bytes are not UTF-8.
    NotUtf8,
    UnknownKind,
}

impl Code {
    pub fn number(self) -> u8
        ensures { result ≡ number_of self }
    {
        match self {
            Code::Tab => 1,
            Code::Structure => 2,
            Code::LeftOut => 3,
            Code::RepeatedKey => 4,
            Code::UnknownKey => 5,
            Code::MissingKey => 6,
            Code::Kind => 7,
            Code::EntityId => 8,
            Code::Time => 9,
            Code::Number => 10,
            Code::Template => 11,
            Code::Limit => 12,
            Code::NotUtf8 => 13,
            Code::UnknownKind => 14,
        }
    }
}

impl fmt::Display for Code {
    ghost output = { λ code. Some (printed code) };

    fn fmt<W: fmt::Write>(&self, f: &mut fmt::Formatter<W>) -> fmt::Result {
        let number = self.number();
        write!(f, "C{number}")
    }
}

/// A fault, with its line from 1 on.
#[derive(Clone, Copy, Debug, PartialEq, Eq)]
pub struct Fault {
    pub line: u32,
    pub code: Code,
}

/// Why a text is refused: a fault at a line, or no memory.
#[derive(Debug, Drop, Error)]
pub enum YamlFault {
    #[error("line {line}: {code}")]
    Bad { line: u32, code: Code },
    #[error("no memory")]
    Memory,
}

impl From<AllocError> for YamlFault {
    ghost from_gives = { λ _ e. e ≡ Memory };

    fn from(_e: AllocError) -> YamlFault {
        YamlFault::Memory
    }
}

impl<T: Drop> From<AllocFailed<T>> for YamlFault {
    ghost from_gives = { λ _ e. e ≡ Memory };

    fn from(_e: AllocFailed<T>) -> YamlFault {
        YamlFault::Memory
    }
}
