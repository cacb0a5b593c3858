//! Filters on texts.
ghost use Rattle.std.specs.Prelude.{◌≡◌, ◌≤◌, ◌<◌, ◌^◌, ◌+◌, ◌++◌, length, Some, IfOk};
ghost use Rattle.ha_value.specs.Lists.{after_front, before_end};
ghost use Rattle.ha_sight.specs.Filters as filters;
ghost use Rattle.ha_sight.specs.Values as values;
ghost use Rattle.ha_config.specs.Words.{lower, upper, replaced_all, without_breaks as without_breaks_lem};
ghost use Rattle.ha_value.specs.Numbers.{print_number};
ghost use Rattle.ha_value.specs.Truth.{is_blank_or_break};
ghost use Rattle.tpl_fns.specs.Outcome.{Adds, Gives};

use ha_sight::TplFault;
use ha_value::{Num, Value, Word, is_blank_or_break};
use std::alloc::{AllocError, Global};

/// The bytes that a text made in a template may have.
pub const TEXT_LIMIT: usize = 65_536;

fn without_front(text: &str) -> &str
    ensures { result.now ≡ after_front is_blank_or_break text.now }
{
    let bytes = text.as_bytes();
    let mut start = 0;
    while start < bytes.len() && is_blank_or_break(bytes[start]) {
        start += 1;
    }
    &text[start..]
}

fn without_end(text: &str) -> &str
    ensures { result.now ≡ before_end is_blank_or_break text.now }
{
    let bytes = text.as_bytes();
    let mut end = bytes.len();
    while 0 < end && is_blank_or_break(bytes[end - 1]) {
        end -= 1;
    }
    &text[..end]
}

/// The text without the blanks and breaks at its two ends.
pub fn without_breaks(text: &str) -> &str
    ensures { result.now ≡ without_breaks_lem text.now }
{
    without_end(without_front(text))
}

/// A text that a template makes; it has at most 65,536 bytes.
fn made(text: Word) -> Result<Value, TplFault>
    ensures { Gives result (values.made_text text) }
{
    if text.len() <= TEXT_LIMIT {
        Ok(Value::Text(text))
    } else {
        Err(TplFault::Fault)
    }
}

/// A copy of the text.
pub fn word(alloc: Global, text: &str) -> Result<Word, TplFault>
    ensures { Gives result (Some text.now) }
{
    match Word::from_str(alloc, text) {
        Ok(word) => Ok(word),
        Err(_) => Err(TplFault::Memory),
    }
}

fn number_text(alloc: Global, number: &Num) -> Result<Word, TplFault>
    ensures { Gives result (Some (print_number number.now)) }
{
    match number.print(alloc) {
        Ok(word) => Ok(word),
        Err(_) => Err(TplFault::Memory),
    }
}

/// The printed text; a list or a map has none.
pub fn printed(alloc: Global, value: &Value) -> Result<Word, TplFault>
    ensures { Gives result (values.printed value.now) }
{
    match value {
        Value::Null => word(alloc, "None"),
        Value::Flag(flag) => word(alloc, if *flag { "True" } else { "False" }),
        Value::Number(number) => number_text(alloc, number),
        Value::Text(text) => word(alloc, text.as_str()),
        Value::Items(_) | Value::Pairs(_) => Err(TplFault::Fault),
    }
}

fn lowered(alloc: Global, text: Word) -> Result<Word, AllocError>
    ensures { IfOk result (λ made. made ≡ lower text) }
{
    let mut text = text.into_string(alloc)?;
    text.make_ascii_lowercase();
    let word = Word::from_string(alloc, text)?;
    Ok(word)
}

fn raised(alloc: Global, text: Word) -> Result<Word, AllocError>
    ensures { IfOk result (λ made. made ≡ upper text) }
{
    let mut text = text.into_string(alloc)?;
    text.make_ascii_uppercase();
    let word = Word::from_string(alloc, text)?;
    Ok(word)
}

/// `lower`, of ASCII letters alone.
pub fn to_lower(alloc: Global, value: &Value) -> Result<Value, TplFault>
    ensures { Gives result (filters.printed_by lower value.now) }
{
    match printed(alloc, value) {
        Ok(text) => match lowered(alloc, text) {
            Ok(text) => made(text),
            Err(_) => Err(TplFault::Memory),
        },
        Err(fault) => Err(fault),
    }
}

/// `upper`, of ASCII letters alone.
pub fn to_upper(alloc: Global, value: &Value) -> Result<Value, TplFault>
    ensures { Gives result (filters.printed_by upper value.now) }
{
    match printed(alloc, value) {
        Ok(text) => match raised(alloc, text) {
            Ok(text) => made(text),
            Err(_) => Err(TplFault::Memory),
        },
        Err(fault) => Err(fault),
    }
}

/// `string`: the printed text.
pub fn to_text(alloc: Global, value: &Value) -> Result<Value, TplFault>
    ensures { Gives result (filters.printed_by (λ t. t) value.now) }
{
    match printed(alloc, value) {
        Ok(text) => made(text),
        Err(fault) => Err(fault),
    }
}

/// `trim`: a text without the blanks and breaks at its two ends.
pub fn trimmed(alloc: Global, value: &Value) -> Result<Value, TplFault>
    ensures { Gives result (filters.text_by without_breaks_lem value.now) }
{
    match value {
        Value::Text(text) => match word(alloc, without_breaks(text.as_str())) {
            Ok(text) => made(text),
            Err(fault) => Err(fault),
        },
        _ => Err(TplFault::Fault),
    }
}

/// Appends a text to one that is made. The fault is that it would have more than 65,536 bytes.
pub fn add(made: &mut Word, more: &str) -> Result<(), TplFault>
    requires { length made.old ≤ 65_536 }
    ensures { Adds made.old made.new more.now result }
{
    if TEXT_LIMIT - made.len() < more.len() {
        return Err(TplFault::Fault);
    }
    match made.push_str(more) {
        Ok(()) => Ok(()),
        Err(_) => Err(TplFault::Memory),
    }
}

/// The two texts, one behind the other.
fn both(alloc: Global, left: &str, right: &str) -> Result<Word, AllocError>
    requires { length left.now + length right.now ≤ 65_536 }
    ensures { IfOk result (λ made. made ≡ left.now ++ right.now) }
{
    let mut text = Word::from_str(alloc, left)?;
    text.push_str(right)?;
    Ok(text)
}

/// Two texts joined; the whole has at most 65,536 bytes.
pub fn joined(alloc: Global, left: &str, right: &str) -> Result<Value, TplFault>
    ensures { Gives result (values.made_text (left.now ++ right.now)) }
{
    if TEXT_LIMIT < left.len() || TEXT_LIMIT - left.len() < right.len() {
        return Err(TplFault::Fault);
    }
    match both(alloc, left, right) {
        Ok(made) => Ok(Value::Text(made)),
        Err(_) => Err(TplFault::Memory),
    }
}

/// Appends what stands before an occurrence, and what takes its place.
fn add_both(made: &mut Word, before: &str, new: &str) -> Result<(), TplFault>
    requires { length made.old ≤ 65_536 }
    ensures { Adds made.old made.new (before.now ++ new.now) result }
{
    match add(made, before) {
        Ok(()) => add(made, new),
        Err(fault) => Err(fault),
    }
}

/// The text in which each occurrence of `old`, from the left and not overlapping, gives way to `new`.
fn replaced_text(alloc: Global, text: &str, old: &str, new: &str) -> Result<Word, TplFault>
    requires { 0 < length old.now }
    ensures { Gives result (values.bounded (replaced_all old.now new.now text.now)) }
{
    let mut made = Word::new(alloc);
    let mut rest = text;
    while let Some((before, after)) = rest.split_once(old) {
        match add_both(&mut made, before, new) {
            Ok(()) => rest = after,
            Err(fault) => return Err(fault),
        }
    }
    match add(&mut made, rest) {
        Ok(()) => Ok(made),
        Err(fault) => Err(fault),
    }
}

fn replaced_word(alloc: Global, text: &Word, old: &Word, new: &Word) -> Result<Value, TplFault>
    ensures { Gives result (filters.replaced text.now old.now new.now) }
{
    if old.is_empty() {
        return Err(TplFault::Fault);
    }
    match replaced_text(alloc, text.as_str(), old.as_str(), new.as_str()) {
        Ok(made) => Ok(Value::Text(made)),
        Err(fault) => Err(fault),
    }
}

/// `replace`: an empty text has no place to be replaced at.
pub fn replaced(alloc: Global, value: &Value, old: &Value, new: &Value) -> Result<Value, TplFault>
    ensures { Gives result (filters.replaced_in value.now old.now new.now) }
{
    match (value, old, new) {
        (Value::Text(text), Value::Text(old), Value::Text(new)) => replaced_word(
            alloc, text, old, new,
        ),
        _ => Err(TplFault::Fault),
    }
}
