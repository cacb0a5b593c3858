//! Printing values, and the parts of lines that they have, into one buffer.

ghost use Rattle.std.specs.Prelude.{◌≡◌, ◌+◌, ◌++◌, ◌<◌, drop, length, flat_map, not, IfOk, IfSome, OnOk};
ghost use Rattle.std.specs.Char.{digit_char};
ghost use Rattle.std.specs.List.{position};
ghost use Rattle.ha_config.specs.ValueText.{escaped_byte, print_pairs, print_value, quoted};
ghost use Rattle.flow_line.specs.Bytes.{stands_as_is};
ghost use Rattle.flow_line.specs.Print.{comma_at, print_items};

use crate::bytes::stands_as_is;
use ha_value::{Value, Word};
use std::alloc::{AllocError, Global};

/// A hexadecimal digit, in lower case.
fn hex_digit(digit: u8) -> u8
    requires { digit < 16 }
    ensures value { result ≡ digit_char digit }
    ensures ascii { result < 128 }
{
    if digit < 10 {
        b'0' + digit
    } else {
        b'a' + (digit - 10)
    }
}

/// Appends an ASCII character of a string.
fn push_ascii(text: &mut Word, byte: u8) -> Result<(), AllocError>
    requires { byte < 128 }
    ensures { OnOk result (text.new ≡ text.old ++ escaped_byte byte) }
{
    match byte {
        b'"' => text.push_str("\\\""),
        b'\\' => text.push_str("\\\\"),
        b'\n' => text.push_str("\\n"),
        b'\r' => text.push_str("\\r"),
        b'\t' => text.push_str("\\t"),
        _ if byte < 0x20 => {
            text.push_str("\\u00")?;
            text.push_byte(hex_digit(byte / 16))?;
            text.push_byte(hex_digit(byte % 16))
        }
        _ => text.push_byte(byte),
    }
}

/// The place of the first byte that is not printed as it is.
fn first_escaped(bytes: &[u8]) -> Option<usize>
    ensures place { result ≡ position (λ b. not (stands_as_is b)) bytes.now }
    ensures bound { IfSome result (λ at. at < length bytes.now) }
{
    bytes.iter().position(|b| !stands_as_is(*b))
}

/// What stands behind the byte at a place.
fn behind(bytes: &[u8], at: usize) -> &[u8]
    requires { at < length bytes.now }
    ensures { result.now ≡ drop (at + 1) bytes.now }
{
    &bytes[at + 1..]
}

/// Appends the characters of a string: what stands between two escapes at once.
pub fn push_chars(text: &mut Word, shown: &str) -> Result<(), AllocError>
    ensures { OnOk result (text.new ≡ text.old ++ flat_map escaped_byte shown.now) }
{
    let mut rest = shown.as_bytes();
    'runs: while let Some(at) = first_escaped(rest) {
        text.push_bytes(&rest[..at])?;
        push_ascii(text, rest[at])?;
        rest = behind(rest, at);
    }
    text.push_bytes(rest)
}

/// Appends a string, with its quotes.
pub fn push_quoted(text: &mut Word, shown: &str) -> Result<(), AllocError>
    ensures { OnOk result (text.new ≡ text.old ++ quoted shown.now) }
{
    text.push_byte(b'"')?;
    push_chars(text, shown)?;
    text.push_byte(b'"')
}

/// Appends the comma before the item at a place, where one stands before it.
pub fn push_comma(text: &mut Word, place: usize) -> Result<(), AllocError>
    ensures { OnOk result (text.new ≡ text.old ++ comma_at place) }
{
    if place == 0 {
        return Ok(());
    }
    text.push_byte(b',')
}

/// Appends a value.
#[cycle(print)]
fn push_value(alloc: Global, text: &mut Word, value: &Value) -> Result<(), AllocError>
    ensures { OnOk result (text.new ≡ text.old ++ print_value value.now) }
{
    match value {
        Value::Null => text.push_str("null"),
        Value::Flag(true) => text.push_str("true"),
        Value::Flag(false) => text.push_str("false"),
        Value::Number(number) => {
            let shown = number.print(alloc)?;
            text.push_str(shown.as_str())
        }
        Value::Text(shown) => push_quoted(text, shown.as_str()),
        Value::Items(items) => push_items(alloc, text, items.as_slice()),
        Value::Pairs(pairs) => push_pairs(alloc, text, pairs.as_slice()),
    }
}

/// Appends a list.
#[cycle(print)]
fn push_items(alloc: Global, text: &mut Word, items: &[Value]) -> Result<(), AllocError>
    ensures { OnOk result (text.new ≡ text.old ++ print_items items.now) }
{
    text.push_byte(b'[')?;
    for i in 0..items.len() {
        push_comma(text, i)?;
        push_value(alloc, text, &items[i])?;
    }
    text.push_byte(b']')
}

/// Appends a map.
#[cycle(print)]
pub fn push_pairs(alloc: Global, text: &mut Word, pairs: &[(Word, Value)]) -> Result<(), AllocError>
    ensures { OnOk result (text.new ≡ text.old ++ print_pairs pairs.now) }
{
    text.push_byte(b'{')?;
    for i in 0..pairs.len() {
        push_comma(text, i)?;
        let pair = &pairs[i];
        push_quoted(text, pair.0.as_str())?;
        text.push_byte(b':')?;
        push_value(alloc, text, &pair.1)?;
    }
    text.push_byte(b'}')
}

/// A value as it stands in a line: without blanks, in order.
pub fn print_value(alloc: Global, value: &Value) -> Result<Word, AllocError>
    ensures { IfOk result (λ shown. shown ≡ print_value value.now) }
{
    let mut text = Word::new(alloc);
    push_value(alloc, &mut text, value)?;
    Ok(text)
}
