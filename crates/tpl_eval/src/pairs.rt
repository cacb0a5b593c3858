//! An operator between two values, one after the other.
ghost use Rattle.std.specs.Prelude.{option_and_then, Option};
ghost use Rattle.ha_value.specs.declared.value.Value.{Value};
ghost use Rattle.ha_sight.specs.Sight.{Sight};
ghost use Rattle.ha_sight.specs.Values.{operate as operate_lem};
ghost use Rattle.tpl_eval.specs.Held.{held_value, Yields};
ghost use Rattle.tpl_eval.specs.Pairs.{Tells};

use crate::held::{Held, made};
use crate::operators::operate;
use ha_config::Op;
use ha_sight::TplFault;
use std::alloc::Global;

/// What is known once the left operand is.
#[derive(Drop)]
pub enum Begun<'a> {
    /// The left operand decides, or is a fault.
    Decided(Result<Held<'a>, TplFault>),
    /// The right operand is the answer.
    Passed,
    /// The operator takes both.
    Taken(Held<'a>),
}

/// What the left operand tells.
#[tactic(auto, using(crate::proofs::PairLemmas::pairs))]
pub fn begin<'a>(op: Op, left: Result<Held<'a>, TplFault>) -> Begun<'a>
    ensures { (sight : Sight) (given : Option Value) → Yields left.entry given → Tells sight op given result }
{
    match left {
        Err(fault) => Begun::Decided(Err(fault)),
        Ok(held) => match op {
            Op::Or => {
                if held.get().truth() {
                    Begun::Decided(Ok(held))
                } else {
                    Begun::Passed
                }
            }
            Op::And => {
                if !held.get().truth() {
                    Begun::Decided(Ok(held))
                } else {
                    Begun::Passed
                }
            }
            _ => Begun::Taken(held),
        },
    }
}

/// An operator on both.
pub fn operate_on<'a>(
    alloc: Global,
    op: Op,
    left: Held<'a>,
    right: Result<Held<'a>, TplFault>,
) -> Result<Held<'a>, TplFault>
    ensures { (given : Option Value) → Yields right.entry given → Yields result (option_and_then (operate_lem op (held_value left.entry)) given) }
{
    match right {
        Ok(right) => made(operate(alloc, op, left.get(), right.get())),
        Err(fault) => Err(fault),
    }
}
