//! Strings.

ghost use Rattle.std.specs.Prelude.{◌≡◌, ◌+◌, ◌*◌, ◌≤◌, ◌<◌, ◌^◌, length, drop, not, true, Some, IfOk, IfSome};
ghost use Rattle.std.specs.List.{position};
ghost use Rattle.reading.specs.Bytes.{sees};
ghost use Rattle.flow_line.specs.Bytes.{is_plain, stands_as_is};
ghost use Rattle.std.specs.Char.{IsScalar};
ghost use Rattle.reading.specs.Answer.{Gives, front};
ghost use Rattle.flow_line.specs.Text.{byte_in, character, escape, hex_in, high_digits, string, text, unicode, unit, IsRun};

use crate::bytes::{hex_value, is_in, is_plain, stands_as_is, unescaped};
use crate::fault::Code;
use crate::value::{FlowReader, Stopped};
use ha_value::Word;
use reading::is_utf8;
use std::alloc::Global;

/// The character of a code that is one.
fn scalar(code: u32) -> char
    requires { IsScalar code }
    ensures { result ≡ code }
{
    match char::from_u32(code) {
        Some(c) => c,
        None => unreachable!(),
    }
}

/// The place of the first byte that is not plain.
fn first_marked(bytes: &[u8]) -> Option<usize>
    ensures place { result ≡ position (λ b. not (is_plain b)) bytes.now }
    ensures bound { IfSome result (λ at. at < length bytes.now) }
{
    bytes.iter().position(|b| !is_plain(*b))
}

/// The place of the first byte that a string has in another form: a quote, a backslash or a control byte.
fn first_escaped(bytes: &[u8]) -> Option<usize>
    ensures place { result ≡ position (λ b. not (stands_as_is b)) bytes.now }
    ensures bound { IfSome result (λ at. at < length bytes.now) }
{
    bytes.iter().position(|b| !stands_as_is(*b))
}

fn begins_with_quote(bytes: &[u8]) -> bool
    ensures { result ≡ sees 34 bytes.now }
{
    match bytes.first() {
        Some(b) => *b == b'"',
        None => false,
    }
}

/// The place of the closing quote, where all bytes before it are plain.
fn plain_end(bytes: &[u8]) -> Option<usize>
    ensures { IfSome result (λ at. IsRun at bytes.now) }
{
    match first_marked(bytes) {
        Some(at) if begins_with_quote(&bytes[at..]) => Some(at),
        _ => None,
    }
}

/// The place of the closing quote, where all characters before it stand for themselves, in any language.
#[inline(never)]
fn shown_end(bytes: &[u8]) -> Option<usize>
    ensures { IfSome result (λ at. IsRun at bytes.now) }
{
    match first_escaped(bytes) {
        Some(at) if begins_with_quote(&bytes[at..]) && is_utf8(&bytes[..at]) => Some(at),
        _ => None,
    }
}

/// The place of the closing quote, where the string has no escapes.
fn run_end(bytes: &[u8]) -> Option<usize>
    ensures { IfSome result (λ at. IsRun at bytes.now) }
{
    match plain_end(bytes) {
        Some(at) => Some(at),
        None => shown_end(bytes),
    }
}

impl<'a> FlowReader<'a> {
    /// The next byte, where it is from `low` to `high`.
    pub fn byte_in(&mut self, low: u8, high: u8) -> Result<u8, Stopped>
        ensures { Gives (byte_in low high (front self.old) self.old) result self.new }
    {
        match self.peek() {
            Some(b) if is_in(low, high, b) => {
                self.bump();
                Ok(b)
            }
            _ => Err(self.wrong()),
        }
    }

    /// A hexadecimal digit whose value is from `low` to `high`.
    fn hex_in(&mut self, low: u8, high: u8) -> Result<u32, Stopped>
        requires { high < 16 }
        ensures exact { Gives (hex_in low high (front self.old) self.old) result self.new }
        ensures few { IfOk result (λ digit. digit < 16) }
        ensures least { IfOk result (λ digit. low ≤ digit) }
    {
        let Some(b) = self.peek() else {
            return Err(self.wrong());
        };
        let digit = hex_value(b);
        if !is_in(low, high, digit) {
            return Err(self.wrong());
        }
        self.bump();
        Ok(u32::from(digit))
    }

    /// The first two digits of a unit, of the low half of a pair or of a unit that is none.
    #[tactic(auto, unfolding(crate::specs::Text::high_digits))]
    fn high_digits(&mut self, low: bool) -> Result<u32, Stopped>
        ensures exact { Gives (high_digits low self.old) result self.new }
        ensures few { IfOk result (λ code. code < 2 ^ 8) }
        ensures least { IfOk result (λ code. low ≡ true → 0xDC ≤ code) }
    {
        let a = self.hex_in(if low { 13 } else { 0 }, if low { 13 } else { 15 })?;
        let last = if a == 13 && !low { 11 } else { 15 };
        let b = self.hex_in(if low { 12 } else { 0 }, last)?;
        Ok(a * 16 + b)
    }

    /// A unit: four digits.
    #[tactic(auto, unfolding(crate::specs::Text::unit))]
    fn unit(&mut self, low: bool) -> Result<u32, Stopped>
        ensures exact { Gives (unit low self.old) result self.new }
        ensures few { IfOk result (λ code. code < 2 ^ 16) }
        ensures least { IfOk result (λ code. low ≡ true → 0xDC00 ≤ code) }
    {
        let high = self.high_digits(low)?;
        let c = self.hex_in(0, 15)?;
        let d = self.hex_in(0, 15)?;
        Ok(high * 256 + c * 16 + d)
    }

    /// A unit behind `\u`, and where it is the high half of a pair, the low half behind another `\u`.
    #[tactic(auto, unfolding(crate::specs::Text::unicode))]
    fn unicode(&mut self) -> Result<u32, Stopped>
        ensures { Gives (unicode self.old) result self.new }
    {
        let code = self.unit(false)?;
        if !(0xD800 <= code && code <= 0xDBFF) {
            return Ok(code);
        }
        self.expect(b"\\u")?;
        let half = self.unit(true)?;
        Ok(0x1_0000 + (code - 0xD800) * 0x400 + (half - 0xDC00))
    }

    /// What stands behind a backslash.
    fn escape(&mut self) -> Result<char, Stopped>
        ensures { Gives (escape (front self.old) self.old) result self.new }
    {
        let Some(b) = self.peek() else {
            return Err(self.wrong());
        };
        if b == b'u' {
            self.bump();
            return Ok(scalar(self.unicode()?));
        }
        let Some(c) = unescaped(b) else {
            return Err(self.wrong());
        };
        self.bump();
        Ok(c)
    }

    #[tactic(auto, unfolding(crate::specs::Text::character))]
    fn character(&mut self) -> Result<char, Stopped>
        ensures { Gives (character self.old) result self.new }
    {
        let Some(b) = self.peek() else {
            return Err(self.wrong());
        };
        if b == b'\\' {
            self.bump();
            return self.escape();
        }
        if !stands_as_is(b) {
            return Err(self.wrong());
        }
        self.bytes.character(Code::Syntax)
    }

    /// A string behind its opening quote, character by character.
    #[tactic(auto, unfolding(crate::specs::Text::characters))]
    fn any_text(&mut self, alloc: Global) -> Result<Word, Stopped>
        ensures { Gives (text self.old) result self.new }
    {
        let mut text = String::new(alloc);
        'characters: while !self.eat(b'"') {
            let c = self.character()?;
            text.push(c)?;
        }
        let word = Word::from_string(alloc, text)?;
        Ok(word)
    }

    /// A string behind its opening quote that is so many bytes as they are: they are copied at once.
    fn run(&mut self, alloc: Global, at: usize) -> Result<Word, Stopped>
        requires { IsRun at self.old }
        ensures { Gives (text self.old) result self.new }
    {
        let rest = self.bytes.rest();
        self.bytes.skip(at + 1);
        Ok(Word::from_bytes(alloc, &rest[..at])?)
    }

    /// A string behind its opening quote.
    pub fn text(&mut self, alloc: Global) -> Result<Word, Stopped>
        ensures { Gives (text self.old) result self.new }
    {
        match run_end(self.bytes.rest()) {
            Some(at) => self.run(alloc, at),
            None => self.any_text(alloc),
        }
    }

    #[tactic(auto, unfolding(crate::specs::Text::string))]
    pub fn string(&mut self, alloc: Global) -> Result<Word, Stopped>
        ensures { Gives (string self.old) result self.new }
    {
        self.expect(b"\"")?;
        self.text(alloc)
    }
}
