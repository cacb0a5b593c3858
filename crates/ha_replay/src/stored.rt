//! The parts of the value of a trace's first line.
ghost use Rattle.std.specs.Prelude.{◌≡◌, ◌≤◌, IfOk, IfSome, is_some, option_and_then, true};
ghost use Rattle.std.specs.Option.{option_copied};
ghost use Rattle.ha_value.specs.declared.value.Value.TheViews.{out-Value};
ghost use Rattle.ha_clock.specs.Local.{last_moment};
ghost use Rattle.ha_clock.specs.MomentText.{moment_of};
ghost use Rattle.ha_config.specs.Sound.{are_in_name_order};
ghost use Rattle.ha_config.specs.Words.{comes_before as comes_lem, first_pair as first_lem, same};
ghost use Rattle.ha_replay.specs.Boots as boots;

use ha_clock::{Moment, read_moment};
use ha_value::{Many, Plain, Value, Word};
use std::alloc::{AllocError, Global};

/// Whether a pair has this key.
fn is_of(pair: &(Word, Value), key: &str) -> bool
    ensures { result ≡ same pair.now.0 key.now }
{
    pair.0.as_str() == key
}

/// The value of the first pair with this key.
fn first_pair<'a>(pairs: &'a [(Word, Value)], key: &str) -> Option<&'a Value>
    ensures { option_copied result ≡ first_lem key.now pairs.now }
{
    for pair in pairs {
        if is_of(pair, key) {
            return Some(&pair.1);
        }
    }
    None
}

/// The value under a key; none where the value is no map with it.
pub(crate) fn under<'a>(value: &'a Value, key: &str) -> Option<&'a Value>
    ensures { option_copied result ≡ boots.under key.now value.now }
{
    match value {
        Value::Pairs(pairs) => first_pair(pairs.as_slice(), key),
        _ => None,
    }
}

/// The text under a key.
pub(crate) fn text_under<'a>(value: &'a Value, key: &str) -> Option<&'a Word>
    ensures { option_copied result ≡ boots.text_under key.now value.now }
{
    match under(value, key) {
        Some(Value::Text(text)) => Some(text),
        _ => None,
    }
}

/// The moment whose text stands under a key.
pub(crate) fn moment_under(value: &Value, key: &str) -> Option<Moment>
    ensures value { result ≡ boots.moment_under key.now value.now }
    ensures bound { IfSome result (λ at. at ≤ last_moment) }
{
    match text_under(value, key) {
        Some(text) => read_moment(text.bytes()),
        None => None,
    }
}

/// The switches of a map of names and flags; none where a value is no flag.
fn switches_of(
    alloc: Global,
    pairs: &[(Word, Value)],
) -> Result<Option<Many<(Word, bool)>>, AllocError>
    ensures { IfOk result (λ found. found ≡ boots.switches_of pairs.now) }
{
    let mut switches = Many::make(alloc);
    for pair in pairs {
        let Value::Flag(on) = &pair.1 else {
            return Ok(None);
        };
        switches.push((pair.0.copy(alloc)?, *on))?;
    }
    Ok(Some(switches))
}

/// The stored switches under a key: null, or a map of names and flags.
pub(crate) fn stored_under(
    alloc: Global,
    value: &Value,
    key: &str,
) -> Result<Option<Option<Many<(Word, bool)>>>, AllocError>
    ensures { IfOk result (λ found. found ≡ boots.stored_under key.now value.now) }
{
    match under(value, key) {
        Some(Value::Null) => Ok(Some(None)),
        Some(Value::Pairs(pairs)) => match switches_of(alloc, pairs.as_slice())? {
            Some(switches) => Ok(Some(Some(switches))),
            None => Ok(None),
        },
        _ => Ok(None),
    }
}

/// Whether a text stands before another in byte order.
fn comes_before(left: &Word, right: &Word) -> bool
    ensures { result ≡ comes_lem left.now right.now }
{
    left.bytes() < right.bytes()
}

/// Whether names stand in their byte order, each once.
pub(crate) fn are_in_order<T>(pairs: &[(Word, T)]) -> bool
    ensures { result ≡ are_in_name_order pairs.now }
{
    for i in 1..pairs.len() {
        if !comes_before(&pairs[i - 1].0, &pairs[i].0) {
            return false;
        }
    }
    true
}

/// Whether stored names, where there are any, stand in order.
pub(crate) fn are_stored(stored: &Option<Many<(Word, bool)>>) -> bool
    ensures { result ≡ boots.are_stored stored.now }
{
    match stored {
        Some(switches) => are_in_order(switches.as_slice()),
        None => true,
    }
}

/// The moment whose text a value is.
fn moment_in(value: &Value) -> Option<Moment>
    ensures value { result ≡ option_and_then moment_of (boots.text_of (out-Value value.now)) }
    ensures bound { IfSome result (λ at. at ≤ last_moment) }
{
    match value {
        Value::Text(text) => read_moment(text.bytes()),
        _ => None,
    }
}

/// The moments of a map of names and their texts; none where a value is no such text.
fn moments_of(
    alloc: Global,
    pairs: &[(Word, Value)],
) -> Result<Option<Many<(Word, Moment)>>, AllocError>
    ensures value { IfOk result (λ found. found ≡ boots.moments_of pairs.now) }
    ensures bound { IfOk result (λ found. IfSome found (λ last. boots.are_in_time last ≡ true)) }
{
    let mut moments = Many::make(alloc);
    for pair in pairs {
        let Some(at) = moment_in(&pair.1) else {
            return Ok(None);
        };
        moments.push((pair.0.copy(alloc)?, at))?;
    }
    Ok(Some(moments))
}

/// When automations last triggered, under a key: nothing, or a map of names and moments.
pub(crate) fn last_under(
    alloc: Global,
    value: &Value,
    key: &str,
) -> Result<Option<Many<(Word, Moment)>>, AllocError>
    ensures value { IfOk result (λ found. found ≡ boots.last_under key.now value.now) }
    ensures bound { IfOk result (λ found. IfSome found (λ last. boots.are_in_time last ≡ true)) }
{
    match under(value, key) {
        None => Ok(Some(Many::make(alloc))),
        Some(Value::Pairs(pairs)) => moments_of(alloc, pairs.as_slice()),
        Some(_) => Ok(None),
    }
}
