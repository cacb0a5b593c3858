//! What a step's wait asks for.
ghost use Rattle.std.specs.Prelude.{◌≡◌, ◌≤◌, ◌+◌, [], None, IfOk, option_map};
ghost use Rattle.std.specs.Option.{option_copied, option_map_or};
ghost use Rattle.ha_clock.specs.Local.{last_moment};
ghost use Rattle.ha_sight.specs.Scripts.{flat};
ghost use Rattle.script_step.specs.Continuation.{ask_in, asks, last_action, test_in, timeout_in, triggers_in};
ghost use Rattle.script_step.specs.Parts.{kind_of};
ghost use Rattle.script_step.specs.Frames.{asked_by};

use crate::held::Held;
use crate::parts::{before, list_in};
use crate::step::side_list;
use crate::strand::{Stage, Strand};
use crate::thread::Thread;
use ha_clock::{Moment, Span};
use ha_config::{Action, ActionKind, Template, Trigger};
use ha_sight::{Branch, WaitAsk};
use ha_value::{Many, Plain};
use std::alloc::{AllocError, Global};

/// The template of a wait.
fn test_of(alloc: Global, action: Option<&Action>) -> Result<Option<Template>, AllocError>
    ensures { IfOk result (λ test. test ≡ option_map_or (λ x. test_in (kind_of x)) (option_copied action.entry) None) }
{
    match action {
        Some(action) => match &action.kind {
            ActionKind::WaitUntil { test, .. } => Ok(Some(test.copy(alloc)?)),
            _ => Ok(None),
        },
        None => Ok(None),
    }
}

/// The triggers of a wait.
fn triggers_of(alloc: Global, action: Option<&Action>) -> Result<Many<Trigger>, AllocError>
    ensures { IfOk result (λ triggers. triggers ≡ option_map_or (λ x. triggers_in (kind_of x)) (option_copied action.entry) []) }
{
    match action {
        Some(action) => match &action.kind {
            ActionKind::WaitFor { triggers, .. } => triggers.copy(alloc),
            _ => Ok(Many::make(alloc)),
        },
        None => Ok(Many::make(alloc)),
    }
}

/// The timeout of a wait; a call that waits has none.
fn timeout_of(action: Option<&Action>, timeout: Option<Span>) -> Option<Span>
    ensures { result ≡ option_map_or (λ x. timeout_in (kind_of x) timeout) (option_copied action.entry) timeout }
{
    match action {
        Some(action) => match &action.kind {
            ActionKind::Call { .. } => None,
            _ => timeout,
        },
        None => timeout,
    }
}

/// The moment at which the wait is over without an end, if it has a timeout.
fn due_of(action: Option<&Action>, timeout: Option<Span>, now: Moment) -> Option<Moment>
    requires { now ≤ last_moment }
    ensures { result ≡ option_map (λ d. now + d) (option_map_or (λ x. timeout_in (kind_of x) timeout) (option_copied action.entry) timeout) }
{
    match timeout_of(action, timeout) {
        Some(span) => Some(now.plus(span)),
        None => None,
    }
}

/// What a thread's last action, a wait or a call that waits, asks for.
fn ask_of(
    alloc: Global,
    thread: &Thread,
    list: &[Action],
    timeout: Option<Span>,
    serial: u64,
    branch: &Branch,
    now: Moment,
) -> Result<WaitAsk, AllocError>
    requires { now ≤ last_moment }
    ensures { IfOk result (λ made. made ≡ asked_by serial branch.now now (ask_in (last_action list.now thread.now) timeout (flat thread.now.scopes))) }
{
    let action = before(list_in(list, thread.outer.as_slice()), thread.here.at);
    Ok(WaitAsk {
        serial,
        branch: branch.copy(alloc)?,
        test: test_of(alloc, action)?,
        triggers: triggers_of(alloc, action)?,
        due: due_of(action, timeout, now),
        env: thread.scopes.flat().copy(alloc)?,
    })
}

/// The same in memory of its own: most steps begin no wait.
#[inline(never)]
fn held_ask(
    alloc: Global,
    thread: &Thread,
    list: &[Action],
    timeout: Option<Span>,
    serial: u64,
    branch: &Branch,
    now: Moment,
) -> Result<Held<WaitAsk>, AllocError>
    requires { now ≤ last_moment }
    ensures { IfOk result (λ made. made ≡ asked_by serial branch.now now (ask_in (last_action list.now thread.now) timeout (flat thread.now.scopes))) }
{
    let ask = ask_of(alloc, thread, list, timeout, serial, branch, now)?;
    let held = Held::make(alloc, ask)?;
    Ok(held)
}

/// What the pending wait of a branch asks for, if there is one.
pub fn asked(
    alloc: Global,
    strand: &Strand,
    list: &[Action],
    path: &[u32],
    serial: u64,
    branch: &Branch,
    now: Moment,
) -> Result<Option<Held<WaitAsk>>, AllocError>
    requires { now ≤ last_moment }
    ensures { IfOk result (λ made. made ≡ option_map (asked_by serial branch.now now) (asks strand.now list.now path.now)) }
{
    match &strand.stage {
        Stage::Wait(timeout) => {
            if path.is_empty() {
                let ask = held_ask(alloc, &strand.thread, list, *timeout, serial, branch, now)?;
                Ok(Some(ask))
            } else {
                Ok(None)
            }
        }
        Stage::Sides(strands) => match path.split_first() {
            Some((first, rest)) => match strands.get(*first as usize) {
                Some(side) => asked(
                    alloc,
                    side,
                    side_list(&strand.thread, list, *first as usize),
                    rest,
                    serial,
                    branch,
                    now,
                ),
                None => Ok(None),
            },
            None => Ok(None),
        },
        _ => Ok(None),
    }
}
