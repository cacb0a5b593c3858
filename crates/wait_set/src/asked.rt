//! A wait that is asked for, and what one entry does to it.
ghost use Rattle.std.specs.Prelude.{◌≡◌, ◌+◌, ◌-◌, ◌*◌, ◌≤◌, ◌&&◌, ◌||◌, ℕ, false, Some, None, List, find, filter, map, is_some, is_none, IfOk, OnOk, OnErr, pos, option_map, nat_eq, nat_le};
ghost use Rattle.std.specs.Option.{option_copied, option_map_or};
ghost use Rattle.ha_value.specs.declared.value.Num as num;
ghost use Rattle.ha_value.specs.declared.value.Value.{Value as Data};
ghost use Rattle.ha_journal.specs.declared.firing.Firing.{Firing as Fire};
ghost use Rattle.ha_config.specs.Words.{first_of_list};
ghost use Rattle.ha_sight.specs.Templates.{rendered, says};
ghost use Rattle.wait_set.specs.Asked as lem;
ghost use Rattle.wait_set.specs.Asked.{fired_values, is_late, noted_one, value_of};

use ha_clock::Moment;
use ha_journal::Firing;
use ha_sight::{Answers, Branch, Env, WaitAsk, WaitEnd, true_in};
use ha_value::{Many, Num, Value};
use std::alloc::{AllocError, Global};

/// A wait: who owns its triggers, the entry of the step that asked for it, what it waits for, and
/// how it ended, if it has.
#[derive(Drop)]
pub struct Asked {
    pub owner: u64,
    pub place: u64,
    pub ask: WaitAsk,
    pub end: Option<WaitEnd>,
}

/// Whether the wait is of this run, in this branch.
pub fn is_of(asked: &Asked, serial: u64, branch: &Branch) -> bool
    ensures { result ≡ lem.is_of serial branch.now asked.now }
{
    asked.ask.serial == serial && asked.ask.branch.as_slice() == branch.as_slice()
}

/// The first firing of an owner.
fn firing_of(fired: &[Firing], owner: u64) -> Option<&Firing>
    ensures { option_copied result ≡ find (λ (f : Fire). nat_eq f.owner owner) fired.now }
{
    fired.iter().find(|firing| firing.owner == owner)
}

/// The value of the first pair.
fn first_value(alloc: Global, env: &Env) -> Result<Value, AllocError>
    ensures { IfOk result (λ v. v ≡ value_of env.now) }
{
    match env.first() {
        Some(seen) => seen.value(alloc),
        None => Ok(Value::Null),
    }
}

/// The variables of an owner's first firing.
fn fired_value(alloc: Global, fired: &Many<Firing>, owner: u64) -> Result<Option<Value>, AllocError>
    ensures { IfOk result (λ v. v ≡ first_of_list (fired_values owner fired.now)) }
{
    match firing_of(fired.as_slice(), owner) {
        None => Ok(None),
        Some(firing) => match first_value(alloc, &firing.env) {
            Ok(value) => Ok(Some(value)),
            Err(fault) => Err(fault),
        },
    }
}

/// Whether the due has come.
fn is_late(due: Option<Moment>, now: Moment) -> bool
    ensures { result ≡ option_map_or (λ due. nat_le due now) due false }
{
    match due {
        Some(due) => now.millis() >= due.millis(),
        None => false,
    }
}

/// The seconds that are left until the due, not under zero.
fn remaining(due: Option<Moment>, now: Moment) -> Option<Num>
    ensures { result ≡ option_map (λ due. num.Num.Fixed (pos (1000 * (due - now)))) due }
{
    match due {
        Some(due) => Some(Num::Fixed(millionths(due.millis().saturating_sub(now.millis())))),
        None => None,
    }
}

/// Milliseconds as millionths of a second.
fn millionths(millis: u64) -> i64
    requires { millis ≤ 100000000000000 }
    ensures { result ≡ pos (1000 * millis) }
{
    (1000 * millis) as i64
}

/// What the entry at `place` does to a wait, where `answers` holds what is seen after it: whether
/// it ends it.
pub fn note_one<A: Answers>(
    alloc: Global,
    asked: &mut Asked,
    place: u64,
    fired: &Many<Firing>,
    answers: &A,
) -> Result<bool, AllocError>
    ensures ok { OnOk result (asked.new ≡ noted_one place (A.sight answers.now) fired.now asked.old) }
    ensures ends { IfOk result (λ ends. ends ≡ (is_none asked.old.end && is_some asked.new.end)) }
    ensures err { OnErr result (asked.new ≡ asked.old) }
{
    if asked.end.is_some() {
        return Ok(false);
    }
    let trigger = fired_value(alloc, fired, asked.owner)?;
    let test = is_met(alloc, &asked.ask, answers)?;
    let done = test || trigger.is_some();
    let now = answers.now();
    if !done && !is_late(asked.ask.due, now) {
        return Ok(false);
    }
    asked.end = Some(WaitEnd {
        place,
        done,
        remaining: remaining(asked.ask.due, now),
        trigger,
    });
    Ok(true)
}

/// Whether the template that the wait asks, if it asks one, is true.
fn is_met<A: Answers>(alloc: Global, ask: &WaitAsk, answers: &A) -> Result<bool, AllocError>
    ensures { IfOk result (λ b. b ≡ option_map_or (λ t. says (rendered (A.sight answers.now) t ask.now.env)) ask.now.test false) }
{
    match &ask.test {
        Some(test) => true_in(alloc, test, &ask.env, answers),
        None => Ok(false),
    }
}
