//! One action is done: each kind by its step.
ghost use Rattle.std.specs.Prelude.{◌≡◌, ◌≤◌, ◌<◌, List, IfOk, OnOk, OnErr, length, true};
ghost use Rattle.ha_clock.specs.Local.{last_moment};
ghost use Rattle.ha_config.specs.declared.config.Action.{Action};
ghost use Rattle.ha_config.specs.declared.config.ActionKind.TheOpen.{ActionKind-F};
ghost use Rattle.script_step.specs.declared.thread.Thread.{Thread};
ghost use Rattle.script_step.specs.Continuation.{own_list, thread_next};
ghost use Rattle.script_step.specs.Sides.{is_fresh, is_plain, is_whole};
ghost use Rattle.script_step.specs.Step.{Does, GoesBehind, IsDone, IsFailure, IsInto, IsTaken};

use crate::choices::{first_holding, set_all};
use crate::fault::FieldFault;
use crate::fields::{all_hold, call_item};
use crate::forms::fields_of;
use crate::loops::repeat;
use crate::parts::list_in;
use crate::sides::parallel;
use crate::spans::{span_of, spans_of};
use crate::strand::{End, Stage};
use crate::thread::Thread;
use ha_config::{Action, ActionKind, Condition, Form, SpanForm, Template};
use ha_sight::{Answers, Item, TplFault};
use ha_value::{Many, Plain, Word};
use std::alloc::{AllocError, Global};

/// The code's number of a fault, and how the run ends by it.
pub fn failed(fault: FieldFault) -> Result<(Item, Stage), AllocError>
    ensures fails { IfOk result (λ r. IsFailure fault r.0 r.1) }
    ensures plain { IfOk result (λ r. is_plain r.1 ≡ true) }
{
    let code = fault.code()?;
    Ok((Item::Failed(code), Stage::Ended(End::Faulted)))
}

/// How a run goes on behind a call's item: one that waits asks for the end of the run that it started, from that place on.
fn behind_call(item: &Item) -> Stage
    ensures step { GoesBehind item.now result }
    ensures plain { is_plain result ≡ true }
{
    match item {
        Item::Failed(_) => Stage::Ended(End::Faulted),
        Item::Started { waits: true, .. } => Stage::Wait(None),
        _ => Stage::Ready,
    }
}

/// A call gives its item.
fn call<A: Answers>(
    alloc: Global,
    thread: &Thread,
    service: &Template,
    target: &Many<Template>,
    fields: &Many<(Word, Form)>,
    answers: &A,
) -> Result<(Item, Stage), AllocError>
    ensures step { IfOk result (λ r. Does (A.sight answers.now) (ActionKind-F.Call service.now target.now fields.now) thread.now r.0 thread.now r.1) }
    ensures plain { IfOk result (λ r. is_plain r.1 ≡ true) }
{
    let item = call_item(
        alloc,
        answers,
        thread.scopes.flat(),
        service,
        target.as_slice(),
        fields.as_slice(),
    )?;
    let stage = behind_call(&item);
    Ok((item, stage))
}

/// `delay` begins at its first place.
fn delay<A: Answers>(
    alloc: Global,
    thread: &Thread,
    form: &SpanForm,
    answers: &A,
) -> Result<(Item, Stage), AllocError>
    requires moment { (A.sight answers.now).now ≤ last_moment }
    ensures step { IfOk result (λ r. Does (A.sight answers.now) (ActionKind-F.Delay form.now) thread.now r.0 thread.now r.1) }
    ensures plain { IfOk result (λ r. is_plain r.1 ≡ true) }
{
    match span_of(alloc, answers, thread.scopes.flat(), form) {
        Ok(span) => Ok((Item::Nothing, Stage::Delay(answers.now().plus(span)))),
        Err(fault) => failed(fault),
    }
}

/// A wait begins at its first place.
fn wait<A: Answers>(
    alloc: Global,
    thread: &Thread,
    timeout: &Option<SpanForm>,
    answers: &A,
) -> Result<(Item, Stage), AllocError>
    ensures until { IfOk result (λ r. (test : _) (go_on : _) → Does (A.sight answers.now) (ActionKind-F.WaitUntil test timeout.now go_on) thread.now r.0 thread.now r.1) }
    ensures triggers { IfOk result (λ r. (triggers : _) (go_on : _) → Does (A.sight answers.now) (ActionKind-F.WaitFor triggers timeout.now go_on) thread.now r.0 thread.now r.1) }
    ensures plain { IfOk result (λ r. is_plain r.1 ≡ true) }
{
    match spans_of(alloc, answers, thread.scopes.flat(), timeout) {
        Ok(span) => Ok((Item::Nothing, Stage::Wait(span))),
        Err(fault) => failed(fault),
    }
}

/// Goes into list `k` of the last action.
fn go_into(thread: &mut Thread, k: usize) -> Result<(Item, Stage), AllocError>
    ensures step { IfOk result (λ r. IsInto k thread.old r.0 thread.new r.1) }
    ensures plain { IfOk result (λ r. is_plain r.1 ≡ true) }
{
    thread.enter(k)?;
    Ok((Item::Nothing, Stage::Ready))
}

/// `choose` goes into the first option whose conditions all hold, else into the fallback.
fn choose<A: Answers>(
    alloc: Global,
    thread: &mut Thread,
    options: &Many<(Many<Condition>, Many<Action>)>,
    answers: &A,
) -> Result<(Item, Stage), AllocError>
    ensures step { IfOk result (λ r. (fallback : List Action) → Does (A.sight answers.now) (ActionKind-F.Choose options.now fallback) thread.old r.0 thread.new r.1) }
    ensures plain { IfOk result (λ r. is_plain r.1 ≡ true) }
{
    let k = first_holding(alloc, answers, options.as_slice(), thread.scopes.flat())?;
    go_into(thread, k)
}

/// `if` goes into one of its two lists.
fn choose_side<A: Answers>(
    alloc: Global,
    thread: &mut Thread,
    tests: &Many<Condition>,
    answers: &A,
) -> Result<(Item, Stage), AllocError>
    ensures step { IfOk result (λ r. (yes no : List Action) → Does (A.sight answers.now) (ActionKind-F.If tests.now yes no) thread.old r.0 thread.new r.1) }
    ensures plain { IfOk result (λ r. is_plain r.1 ≡ true) }
{
    if all_hold(alloc, answers, tests.as_slice(), thread.scopes.flat())? {
        go_into(thread, 0)
    } else {
        go_into(thread, 1)
    }
}

/// `variables` sets its pairs in order.
fn set<A: Answers>(
    alloc: Global,
    thread: &mut Thread,
    pairs: &Many<(Word, Form)>,
    answers: &A,
) -> Result<(Item, Stage), AllocError>
    ensures step { IfOk result (λ r. Does (A.sight answers.now) (ActionKind-F.Set pairs.now) thread.old r.0 thread.new r.1) }
    ensures plain { IfOk result (λ r. is_plain r.1 ≡ true) }
{
    match set_all(alloc, &mut thread.scopes, pairs.as_slice(), answers) {
        Ok(()) => Ok((Item::Nothing, Stage::Ready)),
        Err(TplFault::Fault) => failed(FieldFault::Template),
        Err(TplFault::Memory) => Err(AllocError),
    }
}

/// `event` makes an event.
fn fire<A: Answers>(
    alloc: Global,
    thread: &Thread,
    event: &Word,
    fields: &Many<(Word, Form)>,
    answers: &A,
) -> Result<(Item, Stage), AllocError>
    ensures step { IfOk result (λ r. Does (A.sight answers.now) (ActionKind-F.Fire event.now fields.now) thread.now r.0 thread.now r.1) }
    ensures plain { IfOk result (λ r. is_plain r.1 ≡ true) }
{
    match fields_of(fields.as_slice(), alloc, answers, thread.scopes.flat()) {
        Ok(pairs) => {
            let kind = event.copy(alloc)?;
            Ok((Item::Fired { kind, pairs }, Stage::Ready))
        }
        Err(TplFault::Fault) => failed(FieldFault::Template),
        Err(TplFault::Memory) => Err(AllocError),
    }
}

/// A condition that does not hold ends its list, which has this length.
fn test<A: Answers>(
    alloc: Global,
    thread: &mut Thread,
    len: usize,
    condition: &Condition,
    answers: &A,
) -> Result<(Item, Stage), AllocError>
    ensures step { IfOk result (λ r. (list : List Action) → length (own_list list thread.old) ≡ len
        → IsDone (A.sight answers.now) list (ActionKind-F.Test condition.now) thread.old r.0 thread.new r.1) }
    ensures plain { IfOk result (λ r. is_plain r.1 ≡ true) }
{
    let holds = answers.test(alloc, condition, thread.scopes.flat())?;
    if !holds {
        thread.here.at = len;
    }
    Ok((Item::Nothing, Stage::Ready))
}

/// The next action of a thread over a list.
pub fn act<A: Answers>(
    alloc: Global,
    thread: &mut Thread,
    list: &[Action],
    answers: &A,
) -> Result<(Item, Stage), AllocError>
    requires left { thread.old.here.at < length (own_list list.now thread.old) }
    requires moment { (A.sight answers.now).now ≤ last_moment }
    ensures step { IfOk result (λ r. IsTaken (A.sight answers.now) list.now (λ b ps. thread_next b list.now thread.old.outer thread.old.here thread.old.scopes ps) r.0 thread.new r.1) }
    ensures whole { IfOk result (λ r. is_whole r.1 list.now thread.new ≡ true) }
    ensures fresh { IfOk result (λ r. is_fresh r.1 ≡ true) }
{
    let own = list_in(list, thread.outer.as_slice());
    let action = &own[thread.here.at];
    thread.here.at += 1;
    match &action.kind {
        ActionKind::Call {
            service,
            target,
            fields,
        } => call(alloc, thread, service, target, fields, answers),
        ActionKind::Delay(form) => delay(alloc, thread, form, answers),
        ActionKind::WaitUntil { timeout, .. } => wait(alloc, thread, timeout, answers),
        ActionKind::WaitFor { timeout, .. } => wait(alloc, thread, timeout, answers),
        ActionKind::Choose { options, .. } => choose(alloc, thread, options, answers),
        ActionKind::If { tests, .. } => choose_side(alloc, thread, tests, answers),
        ActionKind::Repeat { kind, .. } => repeat(alloc, thread, kind, answers),
        ActionKind::Parallel(lists) => parallel(alloc, thread, lists),
        ActionKind::Block(_) => go_into(thread, 0),
        ActionKind::Set(pairs) => set(alloc, thread, pairs, answers),
        ActionKind::Fire { event, fields } => fire(alloc, thread, event, fields, answers),
        ActionKind::Stop => Ok((Item::Nothing, Stage::Ended(End::Stopped))),
        ActionKind::Test(condition) => test(alloc, thread, own.len(), condition, answers),
    }
}
