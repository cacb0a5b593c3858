//! Copies and comparisons of conditions.
ghost use Rattle.std.specs.Prelude.{◌≡◌, ◌↔◌, IsTrue, IfOk};

use crate::config::Condition;
use crate::copies::times::same_hold;
use ha_value::{Many, Plain};
use std::alloc::{AllocError, Global};

#[cycle(copy_condition)]
fn copy_condition(alloc: Global, condition: &Condition) -> Result<Condition, AllocError>
    ensures { IfOk result (λ made. made ≡ condition.now) }
{
    match condition {
        Condition::And(inner) => Ok(Condition::And(copy_conditions(alloc, inner.as_slice())?)),
        Condition::Or(inner) => Ok(Condition::Or(copy_conditions(alloc, inner.as_slice())?)),
        Condition::Not(inner) => Ok(Condition::Not(copy_conditions(alloc, inner.as_slice())?)),
        Condition::State {
            entities,
            attribute,
            texts,
            hold,
        } => Ok(Condition::State {
            entities: entities.copy(alloc)?,
            attribute: attribute.copy(alloc)?,
            texts: texts.copy(alloc)?,
            hold: *hold,
        }),
        Condition::Numeric {
            entities,
            attribute,
            above,
            below,
        } => Ok(Condition::Numeric {
            entities: entities.copy(alloc)?,
            attribute: attribute.copy(alloc)?,
            above: *above,
            below: *below,
        }),
        Condition::Template(template) => Ok(Condition::Template(template.copy(alloc)?)),
        Condition::Time {
            after,
            before,
            weekdays,
        } => Ok(Condition::Time {
            after: *after,
            before: *before,
            weekdays: weekdays.copy(alloc)?,
        }),
        Condition::Trigger(ids) => Ok(Condition::Trigger(ids.copy(alloc)?)),
    }
}

#[cycle(copy_condition)]
fn copy_conditions(alloc: Global, conditions: &[Condition]) -> Result<Many<Condition>, AllocError>
    ensures { IfOk result (λ made. made ≡ conditions.now) }
{
    let mut all = Many::make(alloc);
    for i in 0..conditions.len() {
        all.push(copy_condition(alloc, &conditions[i])?)?;
    }
    Ok(all)
}

#[cycle(same_condition)]
fn same_condition(left: &Condition, right: &Condition) -> bool
    ensures { IsTrue result ↔ (left.now ≡ right.now) }
{
    match left {
        Condition::And(a) => match right {
            Condition::And(b) => same_conditions(a.as_slice(), b.as_slice()),
            _ => false,
        },
        Condition::Or(a) => match right {
            Condition::Or(b) => same_conditions(a.as_slice(), b.as_slice()),
            _ => false,
        },
        Condition::Not(a) => match right {
            Condition::Not(b) => same_conditions(a.as_slice(), b.as_slice()),
            _ => false,
        },
        Condition::State {
            entities,
            attribute,
            texts,
            hold,
        } => match right {
            Condition::State {
                entities: other_entities,
                attribute: other_attribute,
                texts: other_texts,
                hold: other_hold,
            } => {
                entities.same(other_entities)
                    && attribute.same(other_attribute)
                    && texts.same(other_texts)
                    && same_hold(*hold, *other_hold)
            }
            _ => false,
        },
        Condition::Numeric {
            entities,
            attribute,
            above,
            below,
        } => match right {
            Condition::Numeric {
                entities: other_entities,
                attribute: other_attribute,
                above: other_above,
                below: other_below,
            } => {
                entities.same(other_entities)
                    && attribute.same(other_attribute)
                    && above.same(other_above)
                    && below.same(other_below)
            }
            _ => false,
        },
        Condition::Template(a) => match right {
            Condition::Template(b) => a.same(b),
            _ => false,
        },
        Condition::Time {
            after,
            before,
            weekdays,
        } => match right {
            Condition::Time {
                after: other_after,
                before: other_before,
                weekdays: other_weekdays,
            } => {
                after.same(other_after)
                    && before.same(other_before)
                    && weekdays.same(other_weekdays)
            }
            _ => false,
        },
        Condition::Trigger(a) => match right {
            Condition::Trigger(b) => a.same(b),
            _ => false,
        },
    }
}

#[cycle(same_condition)]
fn same_conditions(left: &[Condition], right: &[Condition]) -> bool
    ensures { IsTrue result ↔ (left.now ≡ right.now) }
{
    if left.len() != right.len() {
        return false;
    }
    for i in 0..left.len() {
        if !same_condition(&left[i], &right[i]) {
            return false;
        }
    }
    true
}

impl Plain for Condition {
    fn copy(&self, alloc: Global) -> Result<Condition, AllocError> {
        copy_condition(alloc, self)
    }

    fn same(&self, other: &Condition) -> bool {
        same_condition(self, other)
    }
}
