//! The turns of a repeat.
ghost use Rattle.std.specs.Prelude.{◌≡◌, ◌≤◌, ◌∷◌, [], ◌++◌, List, Some, None, true, codes, IfOk, OnOk, suc, slice_get, unwrap_or};
ghost use Rattle.ha_value.specs.declared.value.Value.{Value};
ghost use Rattle.ha_sight.specs.Conditions.{hold_all};
ghost use Rattle.ha_sight.specs.Scripts.{flat, plain_turn};
ghost use Rattle.script_step.specs.Parts.{loop_by};
ghost use Rattle.script_step.specs.Turns.{turn_more, turn_value};

use crate::fields::all_hold;
use crate::scopes::Scopes;
use crate::thread::{Rounds, Thread, Turn};
use ha_config::Condition;
use ha_sight::Answers;
use ha_value::{Many, Num, Plain, Value, Word};
use std::alloc::{AllocError, Global};

/// A pair with this name.
pub fn named(alloc: Global, name: &str, value: Value) -> Result<(Word, Value), AllocError>
    ensures { IfOk result (λ pair. pair ≡ (name.now, value)) }
{
    Ok((Word::from_str(alloc, name)?, value))
}

/// The value of a turn of `for_each`.
fn item_at(alloc: Global, values: &Many<Value>, at: usize) -> Result<Value, AllocError>
    ensures { IfOk result (λ value. value ≡ unwrap_or (slice_get values.now at) Value.Null) }
{
    match values.get(at) {
        Some(value) => value.copy(alloc),
        None => Ok(Value::Null),
    }
}

/// What `repeat` has behind `index` and `first`.
fn turn_more(
    alloc: Global,
    rounds: &Rounds,
    most: u64,
    index: u64,
) -> Result<Many<(Word, Value)>, AllocError>
    requires { 1 ≤ index }
    ensures { IfOk result (λ pairs. pairs ≡ turn_more rounds.now most index) }
{
    let mut pairs = Many::make(alloc);
    match rounds {
        Rounds::Count => {
            pairs.push(named(alloc, "last", Value::Flag(index == most))?)?;
        }
        Rounds::Each(values) => {
            let last = index == values.len() as u64;
            pairs.push(named(alloc, "last", Value::Flag(last))?)?;
            let at = (index - 1) as usize;
            pairs.push(named(alloc, "item", item_at(alloc, values, at)?)?)?;
        }
        Rounds::While => {}
        Rounds::Until => {}
    }
    Ok(pairs)
}

/// The variable `repeat` of a turn.
pub fn turn_value(
    alloc: Global,
    rounds: &Rounds,
    most: u64,
    index: u64,
) -> Result<Value, AllocError>
    requires from { 1 ≤ index }
    requires small { index ≤ 9223372036854775807 }
    ensures { IfOk result (λ value. value ≡ turn_value rounds.now most index) }
{
    let number = Value::Number(Num::Whole(index as i64));
    let mut pairs = Many::make(alloc);
    pairs.push(named(alloc, "index", number)?)?;
    pairs.push(named(alloc, "first", Value::Flag(index == 1))?)?;
    pairs.append(turn_more(alloc, rounds, most, index)?)?;
    Ok(Value::Pairs(pairs))
}

/// Whether the conditions hold with the `repeat` of a turn of `while` or `until`.
pub fn hold_in_turn<A: Answers>(
    alloc: Global,
    scopes: &mut Scopes,
    index: u64,
    tests: &[Condition],
    answers: &A,
) -> Result<bool, AllocError>
    requires from { 1 ≤ index }
    requires small { index ≤ 9223372036854775807 }
    ensures value { IfOk result (λ b. b ≡ hold_all (A.sight answers.now) tests.now (flat (scopes.old ++ plain_turn index ∷ []))) }
    ensures scopes { OnOk result (scopes.new ≡ scopes.old) }
{
    let value = turn_value(alloc, &Rounds::While, 0, index)?;
    scopes.open_with(alloc, Word::from_str(alloc, "repeat")?, value)?;
    let holds = all_hold(alloc, answers, tests, scopes.flat())?;
    scopes.close();
    Ok(holds)
}

/// Whether the turn after this one is entered, where the block of this one is closed.
pub fn enters_next<A: Answers>(
    alloc: Global,
    scopes: &mut Scopes,
    turn: &Turn,
    tests: &[Condition],
    answers: &A,
) -> Result<bool, AllocError>
    ensures value { IfOk result (λ b. b ≡ (loop_by turn.now.rounds turn.now.most tests.now).enters (suc turn.now.index) scopes.old (A.sight answers.now)) }
    ensures scopes { OnOk result (scopes.new ≡ scopes.old) }
{
    match &turn.rounds {
        Rounds::Count => Ok(turn.index < turn.most),
        Rounds::Each(values) => Ok(turn.index < values.len() as u64),
        Rounds::While => hold_in_turn(alloc, scopes, turn.index + 1, tests, answers),
        Rounds::Until => {
            let holds = hold_in_turn(alloc, scopes, turn.index, tests, answers)?;
            Ok(!holds)
        }
    }
}

impl Thread {
    /// Goes into a turn of the repeat that is its last action.
    pub fn enter_turn(&mut self, alloc: Global, turn: Turn) -> Result<(), AllocError>
        ensures outer { OnOk result (self.new.outer ≡ self.old.outer ++ (record { inside = 0; at = self.old.here.at; turn = self.old.here.turn }) ∷ []) }
        ensures here { OnOk result (self.new.here ≡ record { inside = 0; at = 0; turn = Some turn }) }
        ensures scopes { OnOk result (self.new.scopes ≡ self.old.scopes ++ ((codes "repeat", turn_value turn.rounds turn.most turn.index) ∷ []) ∷ []) }
    {
        let value = turn_value(alloc, &turn.rounds, turn.most, turn.index)?;
        self.scopes
            .open_with(alloc, Word::from_str(alloc, "repeat")?, value)?;
        self.go_in(0, Some(turn))
    }
}
