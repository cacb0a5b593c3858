//! Filters and functions on numbers.
ghost use Rattle.std.specs.Prelude.{◌≡◌, ◌≤◌, IfSome, option_and_then, option_map};
ghost use Rattle.std.specs.Option.{option_copied, option_to_list};
ghost use Rattle.ha_value.specs.declared.value.Value.TheViews.{out-Value};
ghost use Rattle.ha_sight.specs.Filters as filters;
ghost use Rattle.ha_config.specs.Numbers.{absolute as absolute_lem, as_fixed};
ghost use Rattle.ha_sight.specs.Values.{number_of};
ghost use Rattle.tpl_fns.specs.Outcome.{Gives, or_other, small};

use crate::outcome::{copied, given};
use crate::texts::without_breaks;
use ha_sight::TplFault;
use ha_value::{Num, Value};
use std::alloc::Global;

/// The number of a number, of a text that is number text without its blanks and breaks, and of a
/// flag, which is 1 or 0.
fn number_from(value: &Value) -> Option<Num>
    ensures { result ≡ filters.number_from (out-Value value.now) }
{
    match value {
        Value::Number(number) => Some(*number),
        Value::Text(text) => Num::read(without_breaks(text.as_str()).as_bytes()),
        Value::Flag(flag) => Some(Num::Whole(if *flag { 1 } else { 0 })),
        Value::Null | Value::Items(_) | Value::Pairs(_) => None,
    }
}

/// The number, else the other value, where there is one.
fn or_other(alloc: Global, number: Option<Num>, other: Option<&Value>) -> Result<Value, TplFault>
    ensures { Gives result (or_other number (option_copied other.entry)) }
{
    match number {
        Some(number) => Ok(Value::Number(number)),
        None => match other {
            Some(other) => copied(alloc, other),
            None => Err(TplFault::Fault),
        },
    }
}

/// `int`: the whole number, cut towards zero.
pub fn to_int(alloc: Global, value: &Value, other: Option<&Value>) -> Result<Value, TplFault>
    ensures { Gives result (filters.to_int value.now (option_to_list (option_copied other.entry))) }
{
    let number = match number_from(value) {
        Some(number) => Some(number.to_whole()),
        None => None,
    };
    or_other(alloc, number, other)
}

fn fixed(number: &Num) -> Option<Num>
    ensures { result ≡ as_fixed number.now }
{
    match number.to_fixed() {
        Ok(number) => Some(number),
        Err(_) => None,
    }
}

/// `float`: the fixed-point number.
pub fn to_float(alloc: Global, value: &Value, other: Option<&Value>) -> Result<Value, TplFault>
    ensures { Gives result (filters.to_float value.now (option_to_list (option_copied other.entry))) }
{
    let number = match number_from(value) {
        Some(number) => fixed(&number),
        None => None,
    };
    or_other(alloc, number, other)
}

/// The number of places, a whole number from 0 to 6.
fn small(number: &Num) -> Option<u8>
    ensures value { result ≡ small number.now }
    ensures size { IfSome result (λ places. places ≤ 6) }
{
    match number {
        Num::Whole(places) => {
            if 0 <= *places && *places <= 6 {
                Some(*places as u8)
            } else {
                None
            }
        }
        Num::Fixed(_) => None,
    }
}

/// How many places to round to: none, where the argument does not say otherwise.
fn places_of(places: Option<&Value>) -> Option<u8>
    ensures value { result ≡ filters.places_of (option_to_list (option_copied places.entry)) }
    ensures size { IfSome result (λ places. places ≤ 6) }
{
    match places {
        None => Some(0),
        Some(Value::Number(number)) => small(number),
        Some(_) => None,
    }
}

/// The number rounded half to even, where it is in range.
fn rounded_in_range(number: &Num, places: u8) -> Option<Num>
    requires { places ≤ 6 }
    ensures { result ≡ filters.rounded_in_range number.now places }
{
    if number.is_in_range() {
        Some(number.round(places))
    } else {
        None
    }
}

/// `round`: half to even.
pub fn to_places(value: &Value, places: Option<&Value>) -> Result<Value, TplFault>
    ensures { Gives result (filters.to_places value.now (option_to_list (option_copied places.entry))) }
{
    match value {
        Value::Number(number) => match places_of(places) {
            Some(places) => given(rounded_in_range(number, places)),
            None => Err(TplFault::Fault),
        },
        _ => Err(TplFault::Fault),
    }
}

fn absolute(number: &Num) -> Option<Num>
    ensures { result ≡ absolute_lem number.now }
{
    match number.absolute() {
        Ok(number) => Some(number),
        Err(_) => None,
    }
}

/// `abs`.
pub fn without_sign(value: &Value) -> Result<Value, TplFault>
    ensures { Gives result (option_map Value.Number (option_and_then absolute_lem (number_of value.now))) }
{
    match value {
        Value::Number(number) => given(absolute(number)),
        _ => Err(TplFault::Fault),
    }
}

/// `is_number`: a number, or a text that is number text as it stands.
pub fn is_number(value: &Value) -> bool
    ensures { result ≡ filters.is_number (out-Value value.now) }
{
    match value {
        Value::Number(_) => true,
        Value::Text(text) => Num::read(text.bytes()).is_some(),
        _ => false,
    }
}
