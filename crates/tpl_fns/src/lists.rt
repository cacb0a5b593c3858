//! Filters on texts and lists, and the least and the greatest of numbers.
ghost use Rattle.std.specs.Prelude.{◌≡◌, ◌<◌, ◌^◌, Some, None, option_and_then, option_map, unwrap_or};
ghost use Rattle.std.specs.Option.{option_copied};
ghost use Rattle.ha_value.specs.declared.value.Value.TheViews.{out-Value};
ghost use Rattle.ha_sight.specs.Filters as filters;
ghost use Rattle.ha_sight.specs.Values as values;
ghost use Rattle.ha_config.specs.Words.{first_of_list, last_of};
ghost use Rattle.tpl_fns.specs.Outcome.{Gives};
ghost use Rattle.tpl_fns.specs.Extremes.{beats, better};

use crate::outcome::{copied, given};
use ha_config::characters;
use ha_sight::TplFault;
use ha_value::{Num, Value};
use std::alloc::Global;
use std::cmp::Ordering;

/// The count as a value.
fn counted(count: usize) -> Value
    requires { count < 2 ^ 63 }
    ensures { result ≡ filters.count_value count }
{
    Value::Number(Num::Whole(count as i64))
}

/// `length`: the characters of a text, or the items of a list or a map.
pub fn count(value: &Value) -> Result<Value, TplFault>
    ensures { Gives result (option_map filters.count_value (filters.length_of (out-Value value.now))) }
{
    match value {
        Value::Text(text) => Ok(counted(characters(text.bytes()))),
        Value::Items(items) => Ok(counted(items.as_slice().len())),
        Value::Pairs(pairs) => Ok(counted(pairs.as_slice().len())),
        Value::Null | Value::Flag(_) | Value::Number(_) => Err(TplFault::Fault),
    }
}

/// The item, or null where there is none.
fn item_or_null(alloc: Global, item: Option<&Value>) -> Result<Value, TplFault>
    ensures { Gives result (Some (unwrap_or (option_copied item.entry) Value.Null)) }
{
    match item {
        Some(item) => copied(alloc, item),
        None => Ok(Value::Null),
    }
}

/// `first`: the first item of a list, null where it is empty.
pub fn first(alloc: Global, value: &Value) -> Result<Value, TplFault>
    ensures { Gives result (option_map (λ vs. unwrap_or (first_of_list vs) Value.Null) (values.items_of value.now)) }
{
    match value {
        Value::Items(items) => item_or_null(alloc, items.as_slice().first()),
        _ => Err(TplFault::Fault),
    }
}

fn last_item(items: &[Value]) -> Option<&Value>
    ensures { option_copied result ≡ last_of items.now }
{
    items.last()
}

/// `last`: the last item of a list, null where it is empty.
pub fn last(alloc: Global, value: &Value) -> Result<Value, TplFault>
    ensures { Gives result (option_map (λ vs. unwrap_or (last_of vs) Value.Null) (values.items_of value.now)) }
{
    match value {
        Value::Items(items) => item_or_null(alloc, last_item(items.as_slice())),
        _ => Err(TplFault::Fault),
    }
}

/// Which numbers a comparison prefers.
#[derive(Clone, Copy, Debug, PartialEq, Eq)]
pub enum Side {
    Least,
    Greatest,
}

/// Whether the new number is better than the one so far.
fn beats(side: Side, new: &Num, so_far: &Num) -> bool
    ensures { result ≡ beats side new.now so_far.now }
{
    let order = match side {
        Side::Least => new.compare(so_far),
        Side::Greatest => so_far.compare(new),
    };
    order == Ordering::Less
}

/// The better one, the earlier where neither is.
fn better(side: Side, so_far: Option<Num>, new: Num) -> Num
    ensures { result ≡ better side so_far new }
{
    match so_far {
        Some(number) => if beats(side, &new, &number) {
            new
        } else {
            number
        },
        None => new,
    }
}

/// The number that a value is.
fn number_of(value: &Value) -> Option<Num>
    ensures { result ≡ values.number_of value.now }
{
    match value {
        Value::Number(number) => Some(*number),
        _ => None,
    }
}

/// The best of the values, which are numbers.
fn best(side: Side, values: &[Value]) -> Result<Value, TplFault>
    ensures { Gives result (option_and_then (filters.best_of (beats side)) (filters.all_numbers values.now)) }
{
    let mut so_far = None;
    for value in values {
        match number_of(value) {
            Some(number) => so_far = Some(better(side, so_far, number)),
            None => return Err(TplFault::Fault),
        }
    }
    given(so_far)
}

/// `min` and `max`: of one or more numbers, or of one list of these; of equal ones the first.
pub fn extreme(side: Side, args: &[Value]) -> Result<Value, TplFault>
    ensures { Gives result (filters.extreme (beats side) args.now) }
{
    match args {
        [Value::Items(items)] => best(side, items.as_slice()),
        _ => best(side, args),
    }
}
