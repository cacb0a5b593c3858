//! What a path leads to: only its last part is made, and not what stands on the way.
ghost use Rattle.std.specs.Prelude.{Option, Some, option_map};
ghost use Rattle.ha_value.specs.declared.value.Value.{Value};
ghost use Rattle.ha_sight.specs.Parts.{part_value};
ghost use Rattle.ha_sight.specs.Values.{field_of, part_at};
ghost use Rattle.tpl_fns.specs.Outcome.{Gives};
ghost use Rattle.tpl_eval.specs.Held.{Leads, Yields};

use crate::held::{Held, made, part_of};
use ha_sight::{Part, TplFault};
use ha_value::{Value, Word};
use std::alloc::Global;

/// The value of a part.
fn whole(alloc: Global, part: Part<'_>) -> Result<Value, TplFault>
    ensures { Gives result (Some (part_value part.entry)) }
{
    match part.into_value(alloc) {
        Ok(value) => Ok(value),
        Err(_) => Err(TplFault::Memory),
    }
}

/// The same, lent where it can be.
pub fn held_part<'a>(alloc: Global, part: Part<'a>) -> Result<Held<'a>, TplFault>
    ensures { Yields result (Some (part_value part.entry)) }
{
    match part {
        Part::Lent(value) => Ok(Held::Lent(value)),
        Part::Made(value) => Ok(Held::Made(value)),
        other => made(whole(alloc, other)),
    }
}

/// The value that a path leads to.
pub fn held_at_end<'a>(
    alloc: Global,
    part: Result<Part<'a>, TplFault>,
) -> Result<Held<'a>, TplFault>
    ensures { (given : Option Value) → Leads part.entry given → Yields result given }
{
    match part {
        Ok(part) => held_part(alloc, part),
        Err(fault) => Err(fault),
    }
}

/// A value where a path begins.
pub fn begun<'a>(held: Result<Held<'a>, TplFault>) -> Result<Part<'a>, TplFault>
    ensures { (given : Option Value) → Yields held.entry given → Leads result given }
{
    match held {
        Ok(Held::Lent(value)) => Ok(Part::Lent(value)),
        Ok(Held::Made(value)) => Ok(Part::Made(value)),
        Err(fault) => Err(fault),
    }
}

fn field_of_part<'a>(alloc: Global, part: Part<'a>, name: &Word) -> Result<Part<'a>, TplFault>
    ensures { Leads result (Some (field_of (part_value part.entry) name.now)) }
{
    match part.field(alloc, name.bytes()) {
        Ok(field) => Ok(field),
        Err(_) => Err(TplFault::Memory),
    }
}

/// What a map has under a name.
pub fn field_in<'a>(
    alloc: Global,
    base: Result<Part<'a>, TplFault>,
    name: &Word,
) -> Result<Part<'a>, TplFault>
    ensures { (given : Option Value) → Leads base.entry given → Leads result (option_map (λ v. field_of v name.now) given) }
{
    match base {
        Ok(part) => field_of_part(alloc, part, name),
        Err(fault) => Err(fault),
    }
}

/// What a value has at an index that is no text.
fn item_of_part<'a>(alloc: Global, part: Part<'a>, index: &Value) -> Result<Part<'a>, TplFault>
    ensures { Leads result (Some (part_at (part_value part.entry) index.now)) }
{
    match held_part(alloc, part) {
        Ok(held) => begun(part_of(alloc, held, index)),
        Err(fault) => Err(fault),
    }
}

fn at_part<'a>(alloc: Global, part: Part<'a>, index: &Value) -> Result<Part<'a>, TplFault>
    ensures { Leads result (Some (part_at (part_value part.entry) index.now)) }
{
    match index {
        Value::Text(name) => field_of_part(alloc, part, name),
        _ => item_of_part(alloc, part, index),
    }
}

/// What a map or a list has at an index, once that is known. It stands apart, since what calls it is a link of a chain that may be deep.
#[inline(never)]
pub fn part_in<'a>(
    alloc: Global,
    base: Part<'a>,
    index: Result<Held<'a>, TplFault>,
) -> Result<Part<'a>, TplFault>
    ensures { (given : Option Value) → Yields index.entry given → Leads result (option_map (part_at (part_value base.entry)) given) }
{
    match index {
        Ok(index) => at_part(alloc, base, index.get()),
        Err(fault) => Err(fault),
    }
}
