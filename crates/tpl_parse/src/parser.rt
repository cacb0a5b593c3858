//! The reader of a template's bytes: blanks, tokens and faults.

ghost use Rattle.std.specs.Prelude.{◌≡◌, ◌<◌, ◌≤◌, ◌-◌, [], ◌∷◌, length, drop, if◌then◌else◌};
ghost use Rattle.reading.specs.declared.fault.Stop.{Stop};
ghost use Rattle.reading.specs.Answer.{Gives, front};
ghost use Rattle.reading.specs.Bytes.{sees};
ghost use Rattle.tpl_parse.specs.Literal.{before};
ghost use Rattle.tpl_parse.specs.Token.{behind, next_is, reach, spaces, want};

use crate::token::{Token, reach, stands};
use ha_value::is_blank_or_break;
use reading::{Bad, Reader, Stop};
use std::marker::Model;

/// Why a method stops: no memory, or a byte at which no reading goes on.
pub type Stopped = Stop<Bad<()>>;

/// Clauses see the bytes that are still to be read.
#[derive(Drop)]
pub struct Parser<'a> {
    pub bytes: Reader<'a>,
}

impl<'a> Model for Parser<'a> {
    ghost use Rattle.std.specs.Prelude.{List, ℕ};

    ghost Value = { List ℕ };

    ghost view = { λ p. p.bytes };
}

impl<'a> Parser<'a> {
    pub fn new(text: &'a [u8]) -> Parser<'a>
        ensures { result ≡ text.now }
    {
        Parser {
            bytes: Reader::new(text),
        }
    }

    /// The bytes that are left.
    pub fn rest(&self) -> &'a [u8]
        ensures { result.now ≡ self.now }
    {
        self.bytes.rest()
    }

    pub fn peek(&self) -> Option<u8>
        ensures { result ≡ front self.now }
    {
        self.bytes.peek()
    }

    pub fn bump(&mut self)
        requires { 0 < length self.old }
        ensures { self.new ≡ drop 1 self.old }
    {
        self.bytes.bump();
    }

    /// Takes the next byte where it is this one.
    pub fn eat(&mut self, b: u8) -> bool
        ensures found { result ≡ sees b self.old }
        ensures rest { self.new ≡ (if sees b self.old then drop 1 self.old else self.old) }
    {
        self.bytes.eat(b)
    }

    /// Takes so many bytes.
    pub fn take_bytes(&mut self, count: usize)
        requires { count ≤ length self.old }
        ensures { self.new ≡ drop count self.old }
    {
        self.bytes.skip(count);
    }

    /// The bytes before those that are left of this text, which ends where they end.
    pub fn before(&self, text: &'a [u8]) -> &'a [u8]
        ensures { result.now ≡ before text.now self.now }
    {
        &text[..text.len().saturating_sub(self.bytes.left())]
    }

    /// The fault at the next byte.
    pub fn wrong(&self) -> Stopped
        ensures { result ≡ Stop.Fault (record { left = length self.now; code = tt }) }
    {
        self.bytes.stop(())
    }

    /// The fault so many bytes on.
    pub fn wrong_behind(&self, count: usize) -> Stopped
        ensures { result ≡ Stop.Fault (record { left = length (drop count self.now); code = tt }) }
    {
        Stop::Fault(Bad {
            left: self.bytes.left().saturating_sub(count),
            code: (),
        })
    }

    /// The fault where none of these tokens stands: as far as the text goes on as one of them.
    pub fn none_of(&self, tokens: &[Token]) -> Stopped
        ensures { result ≡ Stop.Fault (record { left = length (drop (reach tokens.now self.now) self.now); code = tt }) }
    {
        self.wrong_behind(reach(tokens, self.rest()))
    }

    /// Takes the blanks and breaks at the front.
    #[tactic(auto, unfolding(crate::specs::Token::spaces))]
    pub fn skip_spaces(&mut self)
        ensures { self.new ≡ spaces self.old }
    {
        while let Some(b) = self.peek()
            && is_blank_or_break(b)
        {
            self.bump();
        }
    }

    /// Takes the blanks and breaks at the front, and the token where it stands behind them.
    pub fn take(&mut self, token: Token) -> bool
        ensures found { result ≡ next_is token self.old }
        ensures rest { self.new ≡ behind token self.old }
    {
        self.skip_spaces();
        let found = stands(token, self.rest());
        if found {
            self.take_bytes(token.text().len());
        }
        found
    }

    /// Takes the token, or stops as far as the text goes on as it.
    #[tactic(auto, unfolding(crate::specs::Token::want))]
    pub fn want(&mut self, token: Token) -> Result<(), Stopped>
        ensures { Gives (want token self.old) result self.new }
    {
        if self.take(token) {
            Ok(())
        } else {
            Err(self.none_of(&[token]))
        }
    }
}
