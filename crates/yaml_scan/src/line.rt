//! Lines.

ghost use Rattle.std.specs.Prelude.{◌≡◌, length, IfOk};

use ha_value::Word;
use std::alloc::{AllocError, Global};
use std::marker::Model;

/// Bytes of a text that may not be UTF-8.
#[derive(Debug, Drop)]
pub struct RawText {
    bytes: Vec<u8>,
}

impl Model for RawText {
    ghost use Rattle.std.specs.Prelude.{List, ℕ};

    ghost Value = { List ℕ };

    ghost view = { λ t. t.bytes.items };
}

impl RawText {
    pub fn of(bytes: Vec<u8>) -> RawText
        ensures { result ≡ bytes.items }
    {
        RawText { bytes }
    }

    pub fn bytes(&self) -> &[u8]
        ensures { result.now ≡ self.now }
    {
        self.bytes.as_slice()
    }
}

/// A line as it stands in the text: its number from 1 on, how many spaces it begins with, and the bytes that follow them.
#[derive(Debug, Drop)]
pub struct RawLine {
    pub line: u32,
    pub indent: u32,
    pub content: RawText,
}

/// A line of a text that is UTF-8: its number from 1 on, how many spaces it begins with, and what follows them.
#[derive(Debug, Drop)]
pub struct YamlLine {
    pub line: u32,
    pub indent: u32,
    pub content: Word,
}
