//! Quoted scalars, byte by byte.

ghost use Rattle.std.specs.Prelude.{◌≡◌, ◌≤◌, ◌<◌, ◌+◌, ◌++◌, ◌∷◌, ℕ, [], length, drop, false, true, OnOk, IfOk, if◌then◌else◌, encode_utf8};
ghost use Rattle.std.specs.Option.{IfSome};
ghost use Rattle.yaml_scan.specs.Quoted.{escape, digits_behind, hex, shifted, is_character, added, awaits, spoiled, waits, usual_step, character, escape_step, digit_step, step, is_closed, is_quote, at_end, run, next_line, opened, noted, break, is_backslash, is_digits, IsRun};

use crate::words::push_times;
use ha_value::is_blank;
use reading::hex;
use std::alloc::{AllocError, Global};
use std::marker::Model;

/// What was read last in quotes.
#[derive(Clone, Copy, Debug, PartialEq, Eq)]
pub enum Last {
    Usual,
    /// A quote, which closes the scalar unless another follows it in single quotes.
    Quote,
    Backslash,
    /// Digits of a character's number, with its value so far; so many more are wanted.
    Digits { wanted: u8, value: u32 },
}

/// What was read of a quoted scalar; blanks wait for what follows them on their line.
#[derive(Drop)]
pub struct Quoted {
    quote: u8,
    line: u32,
    last: Last,
    text: Vec<u8>,
    blanks: Vec<u8>,
    bad: Option<u32>,
}

impl Model for Quoted {
    ghost use Rattle.yaml_scan.specs.Quoted.{State};

    ghost Value = { State };

    ghost view = { λ s. record { quote = s.quote; line = s.line; last = s.last; text = s.text.items; blanks = s.blanks.items; bad = s.bad } };
}

impl Quoted {
    /// Behind an opening quote, `'` or `"`, on this line.
    pub fn new(alloc: Global, quote: u8, line: u32) -> Quoted
        ensures { result ≡ opened quote line }
    {
        Quoted {
            quote,
            line,
            last: Last::Usual,
            text: Vec::new(alloc),
            blanks: Vec::new(alloc),
            bad: None,
        }
    }

    /// The text so far.
    pub fn text(&self) -> &[u8]
        ensures { result.now ≡ self.now.text }
    {
        self.text.as_slice()
    }

    /// The text so far, moved out.
    pub(crate) fn into_text(self) -> Vec<u8>
        ensures { result.items ≡ self.text }
    {
        self.text
    }

    /// The line of the first bad escape.
    pub fn bad(&self) -> Option<u32>
        ensures { result ≡ self.now.bad }
    {
        self.bad
    }

    /// The line that is being read.
    pub(crate) fn line(&self) -> u32
        ensures { result ≡ self.now.line }
    {
        self.line
    }

    /// The blanks that wait belong to the text.
    fn flush(&mut self, last: Last) -> Result<(), AllocError>
        ensures { OnOk result (self.new ≡ awaits self.old last) }
    {
        self.text.append(&mut self.blanks)?;
        self.last = last;
        Ok(())
    }

    fn add(&mut self, b: u8) -> Result<(), AllocError>
        ensures { OnOk result (self.new ≡ added self.old (b ∷ [])) }
    {
        self.flush(Last::Usual)?;
        self.text.push(b)?;
        Ok(())
    }

    fn note(&mut self)
        ensures { self.new ≡ record self.old { bad = noted self.old.bad self.old.line } }
    {
        if self.bad.is_none() {
            self.bad = Some(self.line);
        }
    }

    fn spoil(&mut self) -> Result<(), AllocError>
        ensures { OnOk result (self.new ≡ spoiled self.old) }
    {
        self.flush(Last::Usual)?;
        self.note();
        Ok(())
    }

    fn character(&mut self, number: u32) -> Result<(), AllocError>
        ensures { OnOk result (self.new ≡ character self.old number) }
    {
        let Some(character) = character_of(number) else {
            return self.spoil();
        };
        self.flush(Last::Usual)?;
        push_character(&mut self.text, character)
    }

    fn usual_step(&mut self, b: u8) -> Result<(), AllocError>
        ensures { OnOk result (self.new ≡ usual_step self.old b) }
    {
        if b == self.quote {
            return self.flush(Last::Quote);
        }
        if b == b'\\' && self.quote == b'"' {
            return self.flush(Last::Backslash);
        }
        if is_blank(b) {
            self.blanks.push(b)?;
            self.last = Last::Usual;
            return Ok(());
        }
        self.add(b)
    }

    fn escape_step(&mut self, b: u8) -> Result<(), AllocError>
        ensures { OnOk result (self.new ≡ escape_step self.old b) }
    {
        let wanted = digits_behind(b);
        if wanted != 0 {
            return self.flush(Last::Digits { wanted, value: 0 });
        }
        match escape(b) {
            Some(number) => self.character(number),
            None => self.spoil(),
        }
    }

    fn digit_step(&mut self, wanted: u8, value: u32, b: u8) -> Result<(), AllocError>
        ensures { OnOk result (self.new ≡ digit_step self.old wanted value b (hex b)) }
    {
        let Some(digit) = hex(b) else {
            self.spoil()?;
            return self.usual_step(b);
        };
        let value = shifted(value, u32::from(digit));
        if wanted <= 1 {
            return self.character(value);
        }
        self.flush(Last::Digits {
            wanted: wanted - 1,
            value,
        })
    }

    fn step(&mut self, b: u8) -> Result<(), AllocError>
        ensures { OnOk result (self.new ≡ step self.old b) }
    {
        match self.last {
            Last::Usual => self.usual_step(b),
            Last::Quote => self.add(b),
            Last::Backslash => self.escape_step(b),
            Last::Digits { wanted, value } => self.digit_step(wanted, value, b),
        }
    }

    fn is_quote(&self) -> bool
        ensures { result ≡ is_quote self.now.last }
    {
        matches!(self.last, Last::Quote)
    }

    fn is_closed(&self, b: u8) -> bool
        ensures { result ≡ is_closed self.now b }
    {
        self.is_quote() && !(self.quote == b'\'' && b == b'\'')
    }

    /// What is left of a line: where the closing quote ends, if it stands here.
    #[tactic(auto, unfolding(crate::specs::Quoted::run))]
    pub fn run(&mut self, bytes: &[u8]) -> Result<Option<usize>, AllocError>
        ensures exact { IsRun (run self.old bytes.now) bytes.now result self.new }
        ensures within { IfOk result (λ found. IfSome found (λ at. at ≤ length bytes.now)) }
    {
        let mut at = 0;
        'bytes: for b in bytes {
            if self.is_closed(*b) {
                return Ok(Some(at));
            }
            self.step(*b)?;
            at += 1;
        }
        Ok(if self.is_quote() { Some(at) } else { None })
    }

    /// The line ends, and so many blank lines stand before this one.
    pub(crate) fn next_line(&mut self, blanks: usize, line: u32) -> Result<(), AllocError>
        ensures { OnOk result (self.new ≡ next_line self.old blanks line) }
    {
        if matches!(self.last, Last::Digits { .. }) {
            self.note();
        }
        let joined = matches!(self.last, Last::Backslash);
        self.blanks.clear();
        self.last = Last::Usual;
        self.line = line;
        push_break(&mut self.text, joined, blanks)
    }
}

/// A break with so many blank lines in it, which a backslash may remove.
fn push_break(text: &mut Vec<u8>, joined: bool, blanks: usize) -> Result<(), AllocError>
    ensures { OnOk result (text.new.items ≡ text.old.items ++ break joined blanks) }
{
    if blanks == 0 {
        if joined {
            return Ok(());
        }
        return text.push(b' ').map_err(|e| AllocError::from(e));
    }
    push_times(text, blanks, b'\n')
}

fn character_of(number: u32) -> Option<char>
    ensures { result ≡ if is_character number then Some number else None }
{
    char::from_u32(number)
}

fn push_character(text: &mut Vec<u8>, c: char) -> Result<(), AllocError>
    ensures { OnOk result (text.new.items ≡ text.old.items ++ encode_utf8 c) }
{
    let mut buffer = [0u8; 4];
    let encoded = c.encode_utf8(&mut buffer);
    text.extend_from_slice(encoded.as_bytes())
}

/// The character that a byte behind a backslash stands for.
fn escape(b: u8) -> Option<u32>
    ensures { result ≡ escape b }
{
    match b {
        b'\\' | b'"' | b'/' | b' ' => Some(u32::from(b)),
        b'n' => Some(10),
        b'r' => Some(13),
        b't' => Some(9),
        b'0' => Some(0),
        b'e' => Some(27),
        b'_' => Some(0xA0),
        _ => None,
    }
}

/// How many digits of a character's number follow a byte behind a backslash.
fn digits_behind(b: u8) -> u8
    ensures { result ≡ digits_behind b }
{
    match b {
        b'x' => 2,
        b'u' => 4,
        b'U' => 8,
        _ => 0,
    }
}

/// One more digit; a number past the last character stays as it is.
fn shifted(value: u32, digit: u32) -> u32
    requires { digit < 16 }
    ensures { result ≡ shifted value digit }
{
    if value > 0x10_FFFF {
        value
    } else {
        16 * value + digit
    }
}
