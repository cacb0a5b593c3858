//! The functions, which may ask the states of entities.
ghost use Rattle.std.specs.Prelude.{◌≡◌, ◌<◌, ◌&&◌, [], Some, false, not, codes, option_and_then, unwrap_or};
ghost use Rattle.std.specs.Option.{option_copied, option_map_or};
ghost use Rattle.std.specs.List.{list_any};
ghost use Rattle.ha_value.specs.declared.value.Value.TheViews.{out-Value};
ghost use Rattle.ha_sight.specs.declared.state.StateObject.{StateObject};
ghost use Rattle.ha_config.specs.Equal.{equal_value};
ghost use Rattle.ha_sight.specs.Filters as filters;
ghost use Rattle.ha_sight.specs.Sight.{Sight};
ghost use Rattle.ha_sight.specs.Values.{flag, text_of as text_of_value};
ghost use Rattle.ha_config.specs.Words.{same, first_pair as first_pair_lem};
ghost use Rattle.tpl_eval.specs.Seen.{Sees};
ghost use Rattle.tpl_fns.specs.Outcome.{Gives};

use crate::equal::equal;
use crate::parts::first_pair;
use ha_sight::{StateObject, TplFault};
use ha_value::{Value, Word};
use state_table::StateTable;
use std::alloc::Global;
use tpl_fns::{copied, function_of_values, word};

/// What a function gives.
///
/// The functions are 1 `states`, 2 `state_attr`, 3 `is_state`, 4 `is_state_attr`, 5 `has_value`,
/// 6 `int`, 7 `float`, 8 `min`, 9 `max`, 10 `iif` and 11 `is_number`. Fault comes exactly where the
/// function gives nothing: on another number, on a number of arguments that it has not, and on kinds
/// that it does not take.
pub fn function(
    alloc: Global,
    name: u8,
    args: &[Value],
    states: &StateTable,
) -> Result<Value, TplFault>
    ensures seen { (sight : Sight) → Sees sight states.now → Gives result (filters.applied sight name args.now) }
{
    if 6 <= name {
        return function_of_values(alloc, name, args);
    }
    match args {
        [x] => of_one(alloc, name, x, states),
        [x, y] => of_two(alloc, name, x, y, states),
        [x, y, z] => of_three(name, x, y, z, states),
        _ => Err(TplFault::Fault),
    }
}

fn of_one(alloc: Global, name: u8, x: &Value, states: &StateTable) -> Result<Value, TplFault>
    requires { name < 6 }
    ensures { (sight : Sight) → Sees sight states.now → Gives result (filters.function_one sight name x.now) }
{
    match (name, x) {
        (1, Value::Text(id)) => state_text(alloc, named(states, id)),
        (5, Value::Text(id)) => Ok(Value::Flag(has_value(named(states, id)))),
        _ => Err(TplFault::Fault),
    }
}

fn of_two(
    alloc: Global,
    name: u8,
    x: &Value,
    y: &Value,
    states: &StateTable,
) -> Result<Value, TplFault>
    requires { name < 6 }
    ensures { (sight : Sight) → Sees sight states.now → Gives result (filters.function_two sight name x.now y.now) }
{
    match (name, x, y) {
        (2, Value::Text(id), Value::Text(attribute)) => {
            value_or_null(alloc, attribute_of(named(states, id), attribute))
        }
        (3, Value::Text(id), _) => is_state(states, id, y),
        _ => Err(TplFault::Fault),
    }
}

fn of_three(
    name: u8,
    x: &Value,
    y: &Value,
    z: &Value,
    states: &StateTable,
) -> Result<Value, TplFault>
    requires { name < 6 }
    ensures { (sight : Sight) → Sees sight states.now → Gives result (filters.function_three sight name x.now y.now z.now) }
{
    match (name, x, y) {
        (4, Value::Text(id), Value::Text(attribute)) => Ok(Value::Flag(is_attribute(
            attribute_of(named(states, id), attribute),
            z,
        ))),
        _ => Err(TplFault::Fault),
    }
}

/// The state that a text names, if there is one.
fn named<'a>(states: &'a StateTable, id: &Word) -> Option<&'a StateObject>
    ensures { (sight : Sight) → Sees sight states.now → option_copied result ≡ filters.state_named sight id.now }
{
    states.named(id.as_str())
}

/// `states`: the state text, and `unknown` where there is no such entity.
fn state_text(alloc: Global, state: Option<&StateObject>) -> Result<Value, TplFault>
    ensures { Gives result (Some (Value.Text (option_map_or (λ (o : StateObject). o.text) (option_copied state.entry) (codes "unknown")))) }
{
    let text = match state {
        Some(state) => word(alloc, state.text.as_str()),
        None => word(alloc, "unknown"),
    };
    match text {
        Ok(text) => Ok(Value::Text(text)),
        Err(fault) => Err(fault),
    }
}

/// `has_value`: the entity is there, and its state is neither `unknown` nor `unavailable`.
fn has_value(state: Option<&StateObject>) -> bool
    ensures { result ≡ option_map_or (λ (o : StateObject). not (same o.text (codes "unknown")) && not (same o.text (codes "unavailable"))) (option_copied state.entry) false }
{
    match state {
        Some(state) => state.text.as_str() != "unknown" && state.text.as_str() != "unavailable",
        None => false,
    }
}

/// The attribute of that name, where the entity is there and has it.
fn attribute_of<'a>(state: Option<&'a StateObject>, name: &Word) -> Option<&'a Value>
    ensures { option_copied result ≡ option_and_then (λ (o : StateObject). first_pair_lem name.now o.attributes) (option_copied state.entry) }
{
    match state {
        Some(state) => first_pair(state.attributes.as_slice(), name.bytes()),
        None => None,
    }
}

/// `state_attr`: the value, and null where it is not there.
fn value_or_null(alloc: Global, value: Option<&Value>) -> Result<Value, TplFault>
    ensures { Gives result (Some (unwrap_or (option_copied value.entry) Value.Null)) }
{
    match value {
        Some(value) => copied(alloc, value),
        None => Ok(Value::Null),
    }
}

/// `is_state_attr`: the attribute is there and equal.
fn is_attribute(attribute: Option<&Value>, wanted: &Value) -> bool
    ensures { result ≡ option_map_or (equal_value wanted.now) (option_copied attribute.entry) false }
{
    match attribute {
        Some(attribute) => equal(wanted, attribute),
        None => false,
    }
}

fn is_text(value: &Value, text: &[u8]) -> bool
    ensures { result ≡ option_map_or (λ s. same s text.now) (text_of_value value.now) false }
{
    match value {
        Value::Text(one) => one.bytes() == text,
        _ => false,
    }
}

fn is_one_of(values: &[Value], text: &[u8]) -> bool
    ensures { result ≡ list_any (λ v. option_map_or (λ s. same s text.now) (text_of_value v) false) values.now }
{
    values.iter().any(|value| is_text(value, text))
}

/// Whether there is a state, and its text is the wanted one, or one of the list.
fn is_wanted(state: Option<&StateObject>, wanted: &Value) -> Result<Value, TplFault>
    ensures { (sight : Sight) → Gives result (option_and_then flag (option_and_then (λ one. Some (option_map_or (λ (o : StateObject). unwrap_or (filters.text_is_one sight (out-Value wanted.now) o.text) false) (option_copied state.entry) false))
        (filters.text_is_one sight (out-Value wanted.now) []))) }
{
    match (state, wanted) {
        (Some(state), Value::Text(_)) => Ok(Value::Flag(is_text(wanted, state.text.bytes()))),
        (Some(state), Value::Items(all)) => {
            Ok(Value::Flag(is_one_of(all.as_slice(), state.text.bytes())))
        }
        (None, Value::Text(_) | Value::Items(_)) => Ok(Value::Flag(false)),
        _ => Err(TplFault::Fault),
    }
}

/// `is_state`: the entity is there, and its state is the text, or one of the list.
fn is_state(states: &StateTable, id: &Word, wanted: &Value) -> Result<Value, TplFault>
    ensures { (sight : Sight) → Sees sight states.now → Gives result (option_and_then flag (filters.is_state sight id.now (out-Value wanted.now))) }
{
    is_wanted(named(states, id), wanted)
}
