//! A repeat begins.
ghost use Rattle.std.specs.Prelude.{◌≡◌, ◌≤◌, ◌<◌, List, IfOk, true};
ghost use Rattle.ha_config.specs.declared.config.Action.{Action};
ghost use Rattle.ha_config.specs.declared.config.RepeatKind.{RepeatKind};
ghost use Rattle.ha_config.specs.declared.config.ActionKind.TheOpen.{ActionKind-F};
ghost use Rattle.ha_sight.specs.Sight.{Sight};
ghost use Rattle.script_step.specs.Sides.{is_plain};
ghost use Rattle.script_step.specs.Step.{Does, IsFirst};

use crate::act::failed;
use crate::fault::FieldFault;
use crate::forms::forms_of;
use crate::spans::count_of;
use crate::strand::Stage;
use crate::thread::{Rounds, Thread, Turn};
use crate::turns::hold_in_turn;
use ha_config::{Condition, Form, RepeatKind, Template};
use ha_sight::{Answers, Item, TplFault};
use ha_value::Many;
use std::alloc::{AllocError, Global};

/// How many turns a `while` or `until` may take.
const MOST_TURNS: u64 = 10_000;

/// Enters the first turn.
fn enter_first(
    alloc: Global,
    thread: &mut Thread,
    rounds: Rounds,
    most: u64,
) -> Result<(Item, Stage), AllocError>
    requires some { 1 ≤ most }
    requires small { most < 9223372036854775807 }
    ensures step { IfOk result (λ r. IsFirst rounds most thread.old r.0 thread.new r.1) }
    ensures plain { IfOk result (λ r. is_plain r.1 ≡ true) }
{
    let turn = Turn {
        rounds,
        index: 1,
        most,
    };
    thread.enter_turn(alloc, turn)?;
    Ok((Item::Nothing, Stage::Ready))
}

/// `count`: the rendered number of turns.
fn repeat_count<A: Answers>(
    alloc: Global,
    thread: &mut Thread,
    count: &Template,
    answers: &A,
) -> Result<(Item, Stage), AllocError>
    ensures step { IfOk result (λ r. (body : List Action) → Does (A.sight answers.now) (ActionKind-F.Repeat (RepeatKind.Count count.now) body) thread.old r.0 thread.new r.1) }
    ensures plain { IfOk result (λ r. is_plain r.1 ≡ true) }
{
    match count_of(alloc, answers, thread.scopes.flat(), count) {
        Ok(n) => {
            if n == 0 {
                Ok((Item::Nothing, Stage::Ready))
            } else {
                enter_first(alloc, thread, Rounds::Count, n)
            }
        }
        Err(fault) => failed(fault),
    }
}

/// `for_each`: a turn for each value.
fn repeat_each<A: Answers>(
    alloc: Global,
    thread: &mut Thread,
    forms: &Many<Form>,
    answers: &A,
) -> Result<(Item, Stage), AllocError>
    ensures step { IfOk result (λ r. (body : List Action) → Does (A.sight answers.now) (ActionKind-F.Repeat (RepeatKind.Each forms.now) body) thread.old r.0 thread.new r.1) }
    ensures plain { IfOk result (λ r. is_plain r.1 ≡ true) }
{
    match forms_of(forms.as_slice(), alloc, answers, thread.scopes.flat()) {
        Ok(values) => {
            let most = values.as_slice().len() as u64;
            if most == 0 {
                Ok((Item::Nothing, Stage::Ready))
            } else {
                enter_first(alloc, thread, Rounds::Each(values), most)
            }
        }
        Err(TplFault::Fault) => failed(FieldFault::Template),
        Err(TplFault::Memory) => Err(AllocError),
    }
}

/// `while`: as long as its conditions hold before a turn.
fn repeat_while<A: Answers>(
    alloc: Global,
    thread: &mut Thread,
    tests: &Many<Condition>,
    answers: &A,
) -> Result<(Item, Stage), AllocError>
    ensures step { IfOk result (λ r. (body : List Action) → Does (A.sight answers.now) (ActionKind-F.Repeat (RepeatKind.While tests.now) body) thread.old r.0 thread.new r.1) }
    ensures plain { IfOk result (λ r. is_plain r.1 ≡ true) }
{
    if hold_in_turn(alloc, &mut thread.scopes, 1, tests.as_slice(), answers)? {
        enter_first(alloc, thread, Rounds::While, MOST_TURNS)
    } else {
        Ok((Item::Nothing, Stage::Ready))
    }
}

/// `until`: until its conditions hold after a turn.
fn repeat_until(
    alloc: Global,
    thread: &mut Thread,
    tests: &Many<Condition>,
) -> Result<(Item, Stage), AllocError>
    ensures step { IfOk result (λ r. (sight : Sight) (body : List Action) → Does sight (ActionKind-F.Repeat (RepeatKind.Until tests.now) body) thread.old r.0 thread.new r.1) }
    ensures plain { IfOk result (λ r. is_plain r.1 ≡ true) }
{
    enter_first(alloc, thread, Rounds::Until, MOST_TURNS)
}

/// `repeat` enters its first turn, or is over.
pub fn repeat<A: Answers>(
    alloc: Global,
    thread: &mut Thread,
    kind: &RepeatKind,
    answers: &A,
) -> Result<(Item, Stage), AllocError>
    ensures step { IfOk result (λ r. (body : List Action) → Does (A.sight answers.now) (ActionKind-F.Repeat kind.now body) thread.old r.0 thread.new r.1) }
    ensures plain { IfOk result (λ r. is_plain r.1 ≡ true) }
{
    match kind {
        RepeatKind::Count(count) => repeat_count(alloc, thread, count, answers),
        RepeatKind::Each(forms) => repeat_each(alloc, thread, forms, answers),
        RepeatKind::While(tests) => repeat_while(alloc, thread, tests, answers),
        RepeatKind::Until(tests) => repeat_until(alloc, thread, tests),
    }
}
