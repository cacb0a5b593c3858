//! Characters, numbers and strings.

ghost use Rattle.std.specs.Prelude.{◌≡◌, ◌≢◌, ◌≤◌, ◌<◌, ◌++◌, length, None, IfSome};
ghost use Rattle.reading.specs.Answer.{Gives, made};
ghost use Rattle.tpl_parse.specs.Literal.{begins_places, behind_number, character, escape, escape_at, is_digit, number, string, string_character, unescaped};
ghost use Rattle.tpl_parse.specs.Leaves.{Leaves};

use crate::parser::{Parser, Stopped};
use crate::range_end::before_range_end;
use ha_value::{Num, Word};
use std::alloc::Global;

/// What a byte behind a backslash stands for, where it is an escape.
fn unescaped(b: u8) -> Option<u8>
    ensures exact { result ≡ unescaped b }
    ensures ascii { IfSome result (λ meant. meant < 128) }
{
    match b {
        b'\\' | b'\'' | b'"' => Some(b),
        b'n' => Some(b'\n'),
        b't' => Some(b'\t'),
        _ => None,
    }
}

/// What the escape at the front of the text stands for.
fn escape_at(rest: &[u8]) -> Option<u8>
    ensures exact { result ≡ escape_at rest.now }
    ensures ascii { IfSome result (λ meant. meant < 128) }
    ensures within { IfSome result (λ meant. 2 ≤ length rest.now) }
{
    match rest.first() {
        Some(b'\\') => escape(rest[1..].first().copied()),
        _ => None,
    }
}

fn escape(b: Option<u8>) -> Option<u8>
    ensures exact { result ≡ escape b }
    ensures ascii { IfSome result (λ meant. meant < 128) }
    ensures some { IfSome result (λ meant. b ≢ None) }
{
    match b {
        Some(b) => unescaped(b),
        None => None,
    }
}

pub(crate) fn is_digit(b: Option<u8>) -> bool
    ensures { result ≡ is_digit b }
{
    match b {
        Some(b) => b.is_ascii_digit(),
        None => false,
    }
}

/// Whether a dot with a digit behind it begins the text.
fn begins_places(rest: &[u8]) -> bool
    ensures { result ≡ begins_places rest.now }
{
    match rest.first() {
        Some(b'.') => is_digit(rest[1..].first().copied()),
        _ => false,
    }
}

impl<'a> Parser<'a> {
    /// One character.
    pub fn character(&mut self) -> Result<char, Stopped>
        ensures { Gives (character self.old) result self.new }
    {
        self.bytes.character(())
    }

    /// Takes digits, and perhaps a dot with digits. A dot with no digit behind it is not the number's.
    fn skip_numeral(&mut self)
        ensures { self.new ≡ behind_number self.old }
    {
        self.bytes.skip_digits();
        if begins_places(self.rest()) {
            self.bump();
            self.bytes.skip_digits();
        }
    }

    #[tactic(auto, unfolding(crate::specs::Literal::number))]
    pub fn number(&mut self) -> Result<Num, Stopped>
        ensures { Gives (number self.old) result self.new }
    {
        let text = self.rest();
        self.skip_numeral();
        let digits = self.before(text);
        match Num::read(digits) {
            Some(number) => Ok(number),
            None => Err(Parser::new(text).wrong_behind(before_range_end(digits))),
        }
    }

    /// A string behind its opening quote.
    #[tactic(auto, unfolding(crate::specs::Literal::string))]
    pub fn string(&mut self, alloc: Global, quote: u8) -> Result<Word, Stopped>
        ensures { Gives (string quote self.old) result self.new }
    {
        let mut text = Word::new(alloc);
        'characters: while !self.eat(quote) {
            self.string_character(&mut text)?;
        }
        Ok(text)
    }

    /// A character or an escape, put behind the text. A backslash that begins no escape stays.
    #[tactic(auto, unfolding(crate::specs::Literal::string_character))]
    fn string_character(&mut self, text: &mut Word) -> Result<(), Stopped>
        ensures { Leaves (made (λ c. text.old ++ c) (string_character self.old)) result text.new self.new }
    {
        let rest = self.rest();
        if let Some(meant) = escape_at(rest) {
            self.take_bytes(2);
            text.push_byte(meant)?;
            return Ok(());
        }
        let letter = self.character()?;
        text.push(letter)?;
        Ok(())
    }
}
