//! The filters, by their numbers.
ghost use Rattle.std.specs.Prelude.{Some, if◌then◌else◌};
ghost use Rattle.ha_sight.specs.Values.{is_null};
ghost use Rattle.ha_sight.specs.Filters.{bare_filter, filter_without, filter_with, filtered};
ghost use Rattle.tpl_fns.specs.Outcome.{Gives};

use crate::lists::{count, first, last};
use crate::numbers::{is_number, to_float, to_int, to_places, without_sign};
use crate::outcome::copied;
use crate::texts::{replaced, to_lower, to_text, to_upper, trimmed};
use ha_sight::TplFault;
use ha_value::Value;
use std::alloc::Global;

/// What a filter makes of a value.
///
/// The filters are 1 `int`, 2 `float`, 3 `round`, 4 `abs`, 5 `lower`, 6 `upper`, 7 `trim`,
/// 8 `length`, 9 `default`, 10 `first`, 11 `last`, 12 `replace`, 13 `string` and 14 `is_number`.
/// Fault comes exactly where the filter gives nothing: on another number, on a number of arguments
/// that it has not, and on kinds that it does not take.
pub fn filter(alloc: Global, name: u8, value: &Value, args: &[Value]) -> Result<Value, TplFault>
    ensures { Gives result (filtered name value.now args.now) }
{
    match args {
        [] => without_arguments(alloc, name, value),
        [arg] => with_one(alloc, name, value, arg),
        [old, new] => {
            if name == 12 {
                replaced(alloc, value, old, new)
            } else {
                Err(TplFault::Fault)
            }
        }
        _ => Err(TplFault::Fault),
    }
}

fn without_arguments(alloc: Global, name: u8, value: &Value) -> Result<Value, TplFault>
    ensures { Gives result (filter_without name value.now) }
{
    match name {
        1 => to_int(alloc, value, None),
        2 => to_float(alloc, value, None),
        3 => to_places(value, None),
        _ => bare(alloc, name, value),
    }
}

/// The filters that take no argument.
fn bare(alloc: Global, name: u8, value: &Value) -> Result<Value, TplFault>
    ensures { Gives result (bare_filter name value.now) }
{
    match name {
        4 => without_sign(value),
        5 => to_lower(alloc, value),
        6 => to_upper(alloc, value),
        7 => trimmed(alloc, value),
        8 => count(value),
        10 => first(alloc, value),
        11 => last(alloc, value),
        13 => to_text(alloc, value),
        14 => Ok(Value::Flag(is_number(value))),
        _ => Err(TplFault::Fault),
    }
}

fn with_one(alloc: Global, name: u8, value: &Value, arg: &Value) -> Result<Value, TplFault>
    ensures { Gives result (filter_with name value.now arg.now) }
{
    match name {
        1 => to_int(alloc, value, Some(arg)),
        2 => to_float(alloc, value, Some(arg)),
        3 => to_places(value, Some(arg)),
        9 => or_else(alloc, value, arg),
        _ => Err(TplFault::Fault),
    }
}

/// `default`: the argument where the value is null.
fn or_else(alloc: Global, value: &Value, arg: &Value) -> Result<Value, TplFault>
    ensures { Gives result (Some (if is_null value.now then arg.now else value.now)) }
{
    match value {
        Value::Null => copied(alloc, arg),
        _ => copied(alloc, value),
    }
}
