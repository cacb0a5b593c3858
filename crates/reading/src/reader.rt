//! The reader of bytes.

ghost use Rattle.std.specs.Prelude.{◌≡◌, ◌<◌, ◌≤◌, ℕ, length, drop, if◌then◌else◌};
ghost use Rattle.reading.specs.Answer.{Gives, front};
ghost use Rattle.reading.specs.Bytes.{expect, sees, skip, skip_digits};
ghost use Rattle.reading.specs.Characters.{begins_character, character};

use crate::fault::{Bad, Stop};
use bstr::decode_utf8;
use ha_value::is_blank;
use std::marker::Model;

/// Clauses see the bytes that are still to be read.
#[derive(Drop)]
pub struct Reader<'a> {
    rest: &'a [u8],
}

impl<'a> Model for Reader<'a> {
    ghost use Rattle.std.specs.Prelude.{List, ℕ};

    ghost Value = { List ℕ };

    ghost view = { λ r. r.rest.now };
}

/// Whether a character begins with this byte: the others that are no ASCII go on with one, or stand in none.
fn begins_character(b: Option<u8>) -> bool
    ensures { result ≡ begins_character b }
{
    match b {
        Some(b) => b < 0x80 || (0xC2 <= b && b < 0xF5),
        None => false,
    }
}

impl<'a> Reader<'a> {
    pub fn new(text: &'a [u8]) -> Reader<'a>
        ensures { result ≡ text.now }
    {
        Reader { rest: text }
    }

    /// The bytes that are left.
    pub fn rest(&self) -> &'a [u8]
        ensures { result.now ≡ self.now }
    {
        self.rest
    }

    /// How many bytes are left.
    pub fn left(&self) -> usize
        ensures { result ≡ length self.now }
    {
        self.rest.len()
    }

    /// The next byte, which stays.
    pub fn peek(&self) -> Option<u8>
        ensures { result ≡ front self.now }
    {
        self.rest.first().copied()
    }

    /// Takes the next byte.
    pub fn bump(&mut self)
        requires { 0 < length self.old }
        ensures { self.new ≡ drop 1 self.old }
    {
        self.rest = &self.rest[1..];
    }

    /// The fault at the place of the next byte.
    pub fn stop<C>(&self, code: C) -> Stop<Bad<C>>
        ensures { result ≡ Stop.Fault (record { left = length self.now; code = code }) }
    {
        Stop::Fault(Bad {
            left: self.left(),
            code,
        })
    }

    /// Takes the next byte where it is this one.
    pub fn eat(&mut self, b: u8) -> bool
        ensures found { result ≡ sees b self.old }
        ensures rest { self.new ≡ (if sees b self.old then drop 1 self.old else self.old) }
    {
        let found = self.peek() == Some(b);
        if found {
            self.bump();
        }
        found
    }

    /// Takes the blanks at the front.
    #[tactic(auto, unfolding(crate::specs::Bytes::skip))]
    pub fn skip_blanks(&mut self)
        ensures { self.new ≡ skip self.old }
    {
        while let Some(b) = self.peek()
            && is_blank(b)
        {
            self.bump();
        }
    }

    /// Takes the digits at the front.
    #[tactic(auto, unfolding(crate::specs::Bytes::skip_digits))]
    pub fn skip_digits(&mut self)
        ensures exact { self.new ≡ skip_digits self.old }
        ensures shorter { length self.new ≤ length self.old }
    {
        while let Some(b) = self.peek()
            && b.is_ascii_digit()
        {
            self.bump();
        }
    }

    /// Takes this word, or stops at the first byte that is another.
    #[tactic(auto, unfolding(crate::specs::Bytes::expect))]
    pub fn expect<C: Copy + Drop>(&mut self, word: &[u8], code: C) -> Result<(), Stop<Bad<C>>>
        ensures { Gives (expect code word.now self.old) result self.new }
    {
        'word: for w in word {
            if self.peek() != Some(*w) {
                return Err(self.stop(code));
            }
            self.bump();
        }
        Ok(())
    }

    /// Takes so many bytes.
    pub fn skip(&mut self, count: usize)
        requires { count ≤ length self.old }
        ensures { self.new ≡ drop count self.old }
    {
        self.rest = &self.rest[count..];
    }

    /// Takes a character, or stops at the first byte with which none goes on.
    #[tactic(auto, using(crate::proofs::Characters::decoded_within), unfolding(crate::specs::Characters::character))]
    pub fn character<C: Copy + Drop>(&mut self, code: C) -> Result<char, Stop<Bad<C>>>
        ensures { Gives (character code self.old) result self.new }
    {
        let (found, size) = decode_utf8(self.rest);
        match found {
            Some(c) => {
                self.skip(size);
                Ok(c)
            }
            None => {
                if begins_character(self.peek()) {
                    self.skip(size);
                }
                Err(self.stop(code))
            }
        }
    }
}
