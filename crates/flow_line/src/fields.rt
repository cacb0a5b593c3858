//! The values of a command's keys, lent from the line's pairs or taken out of them.

ghost use Rattle.std.specs.Prelude.{◌≡◌, ◌<◌, false, is_ok, length, option_copied, position, true, IfSome, Ok};
ghost use Rattle.ha_value.specs.declared.value.Value.TheViews.{out-Value};
ghost use Rattle.ha_config.specs.Words.{first_pair, has_name, same, Text};
ghost use Rattle.flow_line.specs.Command.{flag_of, map_in, map_of, text_in, text_of, Says};
ghost use Rattle.flow_line.specs.Fields.{IsThere, SaysLent};

use crate::refusal::Refusal;
use ha_value::{Many, Value, Word};
use reading::Stop;
use std::alloc::Global;
use std::mem;

/// Why a line gives no command.
pub type Refused = Stop<Refusal>;

/// The keys of a map, with their values.
pub type Pairs = Many<(Word, Value)>;

/// Whether a pair has this key.
fn is_of(pair: &(Word, Value), key: &[u8]) -> bool
    ensures { result ≡ same pair.now.0 key.now }
{
    pair.0.bytes() == key
}

pub fn has_key(pairs: &[(Word, Value)], key: &[u8]) -> bool
    ensures { result ≡ has_name key.now pairs.now }
{
    pairs.iter().any(|pair| is_of(pair, key))
}

/// The place of a key.
fn place_of(pairs: &[(Word, Value)], key: &[u8]) -> Option<usize>
    ensures place { result ≡ position (λ p. same p.0 key.now) pairs.now }
    ensures bound { IfSome result (λ at. at < length pairs.now) }
{
    pairs.iter().position(|pair| is_of(pair, key))
}

/// The value of a key.
pub fn value_at<'a>(pairs: &'a [(Word, Value)], key: &[u8]) -> Option<&'a Value>
    ensures { option_copied result ≡ first_pair key.now pairs.now }
{
    match place_of(pairs, key) {
        Some(at) => Some(&pairs[at].1),
        None => None,
    }
}

/// The text of a key.
pub fn text_at<'a>(pairs: &'a [(Word, Value)], key: &[u8]) -> Result<&'a Word, Refused>
    ensures { SaysLent (text_of (first_pair key.now pairs.now)) result }
{
    match value_at(pairs, key) {
        Some(Value::Text(text)) => Ok(text),
        _ => Err(Stop::Fault(Refusal::Kind)),
    }
}

/// The flag of a key, which is true where the key is missing.
pub fn flag_at(pairs: &[(Word, Value)], key: &[u8]) -> Result<bool, Refused>
    ensures { Says (flag_of (first_pair key.now pairs.now)) result }
{
    match value_at(pairs, key) {
        None => Ok(true),
        Some(Value::Flag(flag)) => Ok(*flag),
        _ => Err(Stop::Fault(Refusal::Kind)),
    }
}

/// That the value of a key is a map, or the key is missing.
pub fn check_map(pairs: &[(Word, Value)], key: &[u8]) -> Result<(), Refused>
    ensures { IsThere (map_of (first_pair key.now pairs.now)) result }
{
    match value_at(pairs, key) {
        None => Ok(()),
        Some(Value::Pairs(_)) => Ok(()),
        _ => Err(Stop::Fault(Refusal::Kind)),
    }
}

/// Takes the text of a value, which keeps an empty one.
fn take_text_in(alloc: Global, value: &mut Value) -> Word
    requires { is_ok (text_in (out-Value value.old)) ≡ true }
    ensures { text_in (out-Value value.old) ≡ Ok result }
{
    match value {
        Value::Text(text) => mem::replace(text, Word::new(alloc)),
        _ => unreachable!(),
    }
}

/// Takes the map of a value, which keeps an empty one.
fn take_map_in(alloc: Global, value: &mut Value) -> Pairs
    requires { is_ok (map_in (out-Value value.old)) ≡ true }
    ensures { map_in (out-Value value.old) ≡ Ok result }
{
    match value {
        Value::Pairs(map) => mem::replace(map, Many::make(alloc)),
        _ => unreachable!(),
    }
}

/// Takes the text of a key, and leaves the values of the other keys.
pub fn take_text(alloc: Global, pairs: &mut [(Word, Value)], key: &[u8]) -> Word
    requires { is_ok (text_of (first_pair key.now pairs.old)) ≡ true }
    ensures value { text_of (first_pair key.now pairs.old) ≡ Ok result }
    ensures others { (k : Text) → same key.now k ≡ false → first_pair k pairs.new ≡ first_pair k pairs.old }
{
    let Some(at) = place_of(pairs, key) else {
        unreachable!()
    };
    take_text_in(alloc, &mut pairs[at].1)
}

/// Takes the map of a key, which is empty where the key is missing.
pub fn take_map(alloc: Global, pairs: &mut [(Word, Value)], key: &[u8]) -> Pairs
    requires { is_ok (map_of (first_pair key.now pairs.old)) ≡ true }
    ensures { map_of (first_pair key.now pairs.old) ≡ Ok result }
{
    match place_of(pairs, key) {
        Some(at) => take_map_in(alloc, &mut pairs[at].1),
        None => Many::make(alloc),
    }
}
