//! A value that is lent, so that nothing is copied on the way to it, or one that was made.
ghost use Rattle.std.specs.Prelude.{◌≡◌, [], Option, Some, option_map, unwrap_or};
ghost use Rattle.std.specs.Option.{option_copied};
ghost use Rattle.ha_value.specs.declared.value.Value.{Value};
ghost use Rattle.ha_value.specs.Truth.{truth};
ghost use Rattle.ha_sight.specs.Values.{part_at};
ghost use Rattle.tpl_fns.specs.Outcome.{Gives};
ghost use Rattle.tpl_eval.specs.Held.{held_value, Puts, Yields};
ghost use Rattle.tpl_eval.specs.Sizes.{PutsWithin};

use crate::parts::part;
use crate::sizes::take_size;
use ha_sight::TplFault;
use ha_value::{Many, Value, Word};
use std::alloc::Global;
use tpl_fns::copied;

/// A value of the template, of its variables or of a state, or one that was made.
#[derive(Drop)]
pub enum Held<'a> {
    Lent(&'a Value),
    Made(Value),
}

impl<'a> Held<'a> {
    /// The value.
    pub fn get(&self) -> &Value
        ensures { result.now ≡ held_value self.now }
    {
        match self {
            Held::Lent(value) => value,
            Held::Made(value) => value,
        }
    }

    /// The value, copied where it is lent.
    pub fn into_value(self, alloc: Global) -> Result<Value, TplFault>
        ensures { Gives result (Some (held_value self.entry)) }
    {
        match self {
            Held::Lent(value) => copied(alloc, value),
            Held::Made(value) => Ok(value),
        }
    }
}

/// What stands for `else` where there is none.
pub fn empty_text<'a>(alloc: Global) -> Held<'a>
    ensures { held_value result ≡ Value.Text [] }
{
    Held::Made(Value::Text(Word::new(alloc)))
}

/// The value that a call made.
pub fn made<'a>(value: Result<Value, TplFault>) -> Result<Held<'a>, TplFault>
    ensures { (given : Option Value) → Gives value given → Yields result given }
{
    match value {
        Ok(value) => Ok(Held::Made(value)),
        Err(fault) => Err(fault),
    }
}

/// A part that is lent, null where there is none.
fn lent_or_null(part: Option<&Value>) -> Held<'_>
    ensures { held_value result ≡ unwrap_or (option_copied part.entry) Value.Null }
{
    match part {
        Some(value) => Held::Lent(value),
        None => Held::Made(Value::Null),
    }
}

/// A copy of a part, null where there is none.
fn copied_or_null(alloc: Global, part: Option<&Value>) -> Result<Value, TplFault>
    ensures { Gives result (Some (unwrap_or (option_copied part.entry) Value.Null)) }
{
    match part {
        Some(value) => copied(alloc, value),
        None => Ok(Value::Null),
    }
}

/// What a map or a list has at an index.
pub fn part_of<'a>(alloc: Global, base: Held<'a>, index: &Value) -> Result<Held<'a>, TplFault>
    ensures { Yields result (Some (part_at (held_value base.entry) index.now)) }
{
    match base {
        Held::Lent(value) => Ok(lent_or_null(part(value, index))),
        Held::Made(value) => match copied_or_null(alloc, part(&value, index)) {
            Ok(value) => Ok(Held::Made(value)),
            Err(fault) => Err(fault),
        },
    }
}

/// Whether the value counts as true.
pub fn truth_of(held: Result<Held<'_>, TplFault>) -> Result<bool, TplFault>
    ensures { (given : Option Value) → Yields held.entry given → Gives result (option_map truth given) }
{
    match held {
        Ok(held) => Ok(held.get().truth()),
        Err(fault) => Err(fault),
    }
}

/// Appends a value to a list.
pub fn add(
    alloc: Global,
    all: &mut Many<Value>,
    held: Result<Held<'_>, TplFault>,
) -> Result<(), TplFault>
    ensures { (given : Option Value) → Yields held.entry given → Puts all.old all.new given result }
{
    match held {
        Ok(held) => match held.into_value(alloc) {
            Ok(value) => match all.push(value) {
                Ok(()) => Ok(()),
                Err(_) => Err(TplFault::Memory),
            },
            Err(fault) => Err(fault),
        },
        Err(fault) => Err(fault),
    }
}

/// Appends a value to a list that may have so many values more, those inside them counted, and gives how many it may have then. A
/// greater value is a fault, and is not copied.
pub fn add_within(
    alloc: Global,
    all: &mut Many<Value>,
    left: usize,
    held: Result<Held<'_>, TplFault>,
) -> Result<usize, TplFault>
    ensures { (given : Option Value) → Yields held.entry given → PutsWithin left all.old all.new given result }
{
    let held = match held {
        Ok(held) => held,
        Err(fault) => return Err(fault),
    };
    let rest = match take_size(held.get(), left) {
        Some(rest) => rest,
        None => return Err(TplFault::Fault),
    };
    match held.into_value(alloc) {
        Ok(value) => match all.push(value) {
            Ok(()) => Ok(rest),
            Err(_) => Err(TplFault::Memory),
        },
        Err(fault) => Err(fault),
    }
}
