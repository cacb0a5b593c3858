//! One step of a strand, in one of its branches.
ghost use Rattle.std.specs.Prelude.{◌≡◌, ◌≤◌, ◌⊎◌, ℕ, ◌&&◌, ◌∷◌, [], ◌++◌, List, Option, Some, true, false, IfOk, length, map, is_some, slice_get, slice_set, unwrap_or};
ghost use Rattle.std.specs.Option.{option_map_or};
ghost use Rattle.ha_value.specs.declared.value.Value.{Value};
ghost use Rattle.ha_clock.specs.Local.{last_moment};
ghost use Rattle.ha_config.specs.declared.config.Action.{Action};
ghost use Rattle.ha_sight.specs.declared.item.Item.{Item};
ghost use Rattle.ha_sight.specs.declared.waiting.WaitEnd.{WaitEnd};
ghost use Rattle.ha_sight.specs.Scripts.{Branch, Spot, add_inside, wait_value};
ghost use Rattle.script_step.specs.declared.strand.Strand.{Strand};
ghost use Rattle.script_step.specs.Continuation.{Began, continuation, has_next, is_call, last_action, lists_of, may_go_on, may_side, may_step, nth_list, placed, thread_next};
ghost use Rattle.script_step.specs.Gates.{Gate, fronts, fronts_from, fronts_on, gate_at};
ghost use Rattle.script_step.specs.Sides.{all_settled, is_fresh, is_plain, is_settled, is_whole, standing};
ghost use Rattle.script_step.specs.Step.{IsSide, IsStep, IsTaken, IsWaited, thread_on};
ghost use Rattle.script_step.specs.Told.{Tells};

use crate::act::act;
use crate::held::Held;
use crate::next::next_turn;
use crate::parts::{before, list_in, lists_in};
use crate::scopes::Scopes;
use crate::sides::finished;
use crate::strand::{End, Stage, Strand};
use crate::thread::Thread;
use crate::turns::named;
use ha_config::{Action, ActionKind};
use ha_sight::{Answers, Item, WaitEnd};
use ha_value::{Many, Num, Value, Word};
use std::alloc::{AllocError, Global};

/// The next action, or the place behind a turn.
fn advance<A: Answers>(
    alloc: Global,
    thread: &mut Thread,
    list: &[Action],
    answers: &A,
) -> Result<(Item, Stage), AllocError>
    requires next { has_next list.now thread.old ≡ true }
    requires moment { (A.sight answers.now).now ≤ last_moment }
    ensures whole { IfOk result (λ r. is_whole r.1 list.now thread.new ≡ true) }
    ensures fresh { IfOk result (λ r. is_fresh r.1 ≡ true) }
    ensures step { IfOk result (λ r. IsTaken (A.sight answers.now) list.now (λ b ps. thread_next b list.now thread.old.outer thread.old.here thread.old.scopes ps) r.0 thread.new r.1) }
{
    if thread.here.at < list_in(list, thread.outer.as_slice()).len() {
        act(alloc, thread, list, answers)
    } else {
        next_turn(alloc, thread, list, answers)
    }
}

/// The strand behind a step.
fn behind(thread: Thread, list: &[Action], stage: Stage) -> Strand
    ensures means { (b : Branch) (began : Began) (ps : List Spot) → thread_on list.now thread stage b began ps ≡ continuation result list.now b began ps }
    ensures settled { is_whole stage list.now thread ≡ true → is_settled list.now result ≡ true }
    ensures told { (began : Began) (c : Branch) (g : Gate) → gate_at c (fronts result list.now began) ≡ Some g
        → (g ≡ Gate.Free) ⊎ (gate_at c (fronts_on stage list.now thread began) ≡ Some g) }
{
    let mut thread = thread;
    let stage = finished(&mut thread, list, stage);
    Strand { thread, stage }
}

/// The same where the strand stands.
fn settle_behind(strand: &mut Strand, list: &[Action], stage: Stage)
    ensures means { (b : Branch) (began : Began) (ps : List Spot) → thread_on list.now strand.old.thread stage b began ps ≡ continuation strand.new list.now b began ps }
    ensures settled { is_whole stage list.now strand.old.thread ≡ true → is_settled list.now strand.new ≡ true }
    ensures told { (began : Began) (c : Branch) (g : Gate) → gate_at c (fronts strand.new list.now began) ≡ Some g
        → (g ≡ Gate.Free) ⊎ (gate_at c (fronts_on stage list.now strand.old.thread began) ≡ Some g) }
{
    let stage = finished(&mut strand.thread, list, stage);
    strand.stage = stage;
}

/// The list of a parallel block that is a thread's last action.
pub fn side_list<'a>(thread: &Thread, list: &'a [Action], i: usize) -> &'a [Action]
    ensures { result.now ≡ nth_list (lists_of (last_action list.now thread.now)) i }
{
    match before(list_in(list, thread.outer.as_slice()), thread.here.at) {
        Some(action) => match lists_in(action).get(i) {
            Some(side) => side.as_slice(),
            None => &[],
        },
        None => &[],
    }
}

/// The seconds that were left, as a value.
fn left_value(remaining: Option<Num>) -> Value
    ensures { result ≡ option_map_or Value.Number remaining Value.Null }
{
    match remaining {
        Some(number) => Value::Number(number),
        None => Value::Null,
    }
}

/// The variables of the trigger that fired, as a value.
fn fired_value(trigger: Option<Value>) -> Value
    ensures { result ≡ unwrap_or trigger Value.Null }
{
    match trigger {
        Some(value) => value,
        None => Value::Null,
    }
}

/// What `wait` holds after a wait.
fn wait_value(alloc: Global, end: WaitEnd) -> Result<Value, AllocError>
    ensures { IfOk result (λ v. v ≡ wait_value end) }
{
    let WaitEnd {
        done,
        remaining,
        trigger,
        ..
    } = end;
    let mut pairs = Many::make(alloc);
    pairs.push(named(alloc, "completed", Value::Flag(done))?)?;
    pairs.push(named(alloc, "remaining", left_value(remaining))?)?;
    pairs.push(named(alloc, "trigger", fired_value(trigger))?)?;
    Ok(Value::Pairs(pairs))
}

/// Whether a thread's last action, a wait, lets it go on after a timeout.
fn may_go_on(thread: &Thread, list: &[Action]) -> bool
    ensures { result ≡ may_go_on (last_action list.now thread.now) }
{
    match before(list_in(list, thread.outer.as_slice()), thread.here.at) {
        Some(action) => match &action.kind {
            ActionKind::WaitUntil { go_on, .. } => *go_on,
            ActionKind::WaitFor { go_on, .. } => *go_on,
            _ => true,
        },
        None => true,
    }
}

/// Whether a thread's last action is a call.
pub fn is_call(thread: &Thread, list: &[Action]) -> bool
    ensures { result ≡ is_call (last_action list.now thread.now) }
{
    match before(list_in(list, thread.outer.as_slice()), thread.here.at) {
        Some(action) => match &action.kind {
            ActionKind::Call { .. } => true,
            _ => false,
        },
        None => false,
    }
}

/// The second place of a wait that ended so; behind the end of a called run the variables are as they were.
fn end_wait(
    alloc: Global,
    thread: &mut Thread,
    list: &[Action],
    end: WaitEnd,
) -> Result<Stage, AllocError>
    ensures plain { IfOk result (λ stage. is_plain stage ≡ true) }
    ensures waited { IfOk result (λ stage. IsWaited list.now end thread.old thread.new stage) }
{
    if end.done || may_go_on(thread, list) {
        if is_call(thread, list) {
            return Ok(Stage::Ready);
        }
        let value = wait_value(alloc, end)?;
        thread
            .scopes
            .add_inside(alloc, Word::from_str(alloc, "wait")?, value)?;
        Ok(Stage::Ready)
    } else {
        Ok(Stage::Ended(End::Stopped))
    }
}

/// A step in one list of a parallel block.
#[cycle(step)]
fn step_side<A: Answers>(
    alloc: Global,
    strands: Many<Strand>,
    thread: &Thread,
    list: &[Action],
    path: &[u32],
    end: Option<WaitEnd>,
    answers: &A,
) -> Result<(Many<Strand>, Item), AllocError>
    requires may { may_side (map may_step strands) (lists_of (last_action list.now thread.now)) path.now (A.sight answers.now).now end ≡ true }
    requires moment { (A.sight answers.now).now ≤ last_moment }
    ensures many { IfOk result (λ r. length r.0 ≡ length strands) }
    ensures settled { IfOk result (λ r. all_settled 0 (map standing strands) (lists_of (last_action list.now thread.now)) ≡ true → all_settled 0 (map standing r.0) (lists_of (last_action list.now thread.now)) ≡ true) }
    ensures told { IfOk result (λ r. (began : Began) (n : ℕ) (c : Branch) (g : Gate)
        → gate_at c (fronts_from 0 (map fronts r.0) (lists_of (last_action list.now thread.now)) (placed path.now n began)) ≡ Some g
        → Tells path.now (fronts_from 0 (map fronts strands) (lists_of (last_action list.now thread.now)) began) c g) }
    ensures step { IfOk result (λ r. IsSide (A.sight answers.now) (lists_of (last_action list.now thread.now)) path.now end strands r.1 r.0) }
{
    let Some((first, rest)) = path.split_first() else {
        unreachable!()
    };
    let i = *first as usize;
    let mut strands = strands;
    let inner = strands.remove(i);
    let (inner, item) = step(alloc, inner, side_list(thread, list, i), rest, end, answers)?;
    strands.insert(i, inner)?;
    Ok((strands, item))
}

/// One step of a strand over a list of actions, in the branch that the path names below its own.
#[cycle(step)]
pub fn step<A: Answers>(
    alloc: Global,
    strand: Strand,
    list: &[Action],
    path: &[u32],
    end: Option<WaitEnd>,
    answers: &A,
) -> Result<(Strand, Item), AllocError>
    requires may { may_step strand list.now path.now (A.sight answers.now).now end ≡ true }
    requires moment { (A.sight answers.now).now ≤ last_moment }
    ensures settled { IfOk result (λ r. is_settled list.now strand ≡ true → is_settled list.now r.0 ≡ true) }
    ensures told { IfOk result (λ r. (began : Began) (n : ℕ) (c : Branch) (g : Gate)
        → gate_at c (fronts r.0 list.now (placed path.now n began)) ≡ Some g → Tells path.now (fronts strand list.now began) c g) }
    ensures step { IfOk result (λ r. IsStep (A.sight answers.now) list.now path.now end strand r.1 r.0) }
{
    let Strand { mut thread, stage } = strand;
    match stage {
        Stage::Ready => {
            let (item, stage) = advance(alloc, &mut thread, list, answers)?;
            Ok((behind(thread, list, stage), item))
        }
        Stage::Delay(_) => Ok((behind(thread, list, Stage::Ready), Item::Nothing)),
        Stage::Wait(_) => match end {
            Some(end) => {
                let stage = end_wait(alloc, &mut thread, list, end)?;
                Ok((behind(thread, list, stage), Item::Nothing))
            }
            None => unreachable!(),
        },
        Stage::Sides(strands) => {
            let (strands, item) = step_side(alloc, strands, &thread, list, path, end, answers)?;
            Ok((behind(thread, list, Stage::Sides(strands)), item))
        }
        Stage::Ended(_) => unreachable!(),
    }
}

/// What stands in the place of a strand that is at work.
fn spent(alloc: Global) -> Strand
    ensures { (list : List Action) → is_settled list result ≡ true }
{
    Strand {
        thread: Thread::start(alloc, Scopes::none(alloc)),
        stage: Stage::Ended(End::Done),
    }
}

/// Whether a strand goes on with its next action, or with the place behind a turn.
fn is_ready(strand: &Strand) -> bool
    ensures { result ≡ true → strand.now.stage ≡ Stage.Ready }
{
    match &strand.stage {
        Stage::Ready => true,
        _ => false,
    }
}

/// A strand that failed at its step is spent.
#[inline(never)]
fn give_up(alloc: Global, strand: &mut Strand)
    ensures { (list : List Action) → is_settled list strand.new ≡ true }
{
    *strand = spent(alloc);
}

/// The step of a strand that is ready, which is not moved for it. After an error it is spent.
fn step_ready<A: Answers>(
    alloc: Global,
    strand: &mut Strand,
    list: &[Action],
    answers: &A,
) -> Result<Item, AllocError>
    requires next { has_next list.now strand.old.thread ≡ true }
    requires moment { (A.sight answers.now).now ≤ last_moment }
    ensures settled { is_settled list.now strand.new ≡ true }
    ensures told { IfOk result (λ item. (path : Branch) (began : Began) (n : ℕ) (c : Branch) (g : Gate) → path ≡ []
        → gate_at c (fronts strand.new list.now (placed path n began)) ≡ Some g → Tells path (fronts strand.old list.now began) c g) }
    ensures step { IfOk result (λ item. (path : Branch) (end : Option WaitEnd) → strand.old.stage ≡ Stage.Ready → path ≡ []
        → IsStep (A.sight answers.now) list.now path end strand.old item strand.new) }
{
    match advance(alloc, &mut strand.thread, list, answers) {
        Ok(done) => {
            let (item, stage) = done;
            settle_behind(strand, list, stage);
            Ok(item)
        }
        Err(error) => {
            give_up(alloc, strand);
            Err(error)
        }
    }
}

/// How a wait ended, out of its own memory.
fn opened(end: Option<Held<WaitEnd>>) -> Option<WaitEnd>
    ensures { result ≡ end }
{
    match end {
        Some(end) => Some(end.taken()),
        None => None,
    }
}

/// The step of any other strand, which is moved. After an error it is spent.
#[inline(never)]
fn step_moved<A: Answers>(
    alloc: Global,
    strand: &mut Strand,
    list: &[Action],
    path: &[u32],
    end: Option<Held<WaitEnd>>,
    answers: &A,
) -> Result<Item, AllocError>
    requires may { may_step strand.old list.now path.now (A.sight answers.now).now end ≡ true }
    requires moment { (A.sight answers.now).now ≤ last_moment }
    ensures settled { is_settled list.now strand.old ≡ true → is_settled list.now strand.new ≡ true }
    ensures told { IfOk result (λ item. (began : Began) (n : ℕ) (c : Branch) (g : Gate)
        → gate_at c (fronts strand.new list.now (placed path.now n began)) ≡ Some g → Tells path.now (fronts strand.old list.now began) c g) }
    ensures step { IfOk result (λ item. IsStep (A.sight answers.now) list.now path.now end strand.old item strand.new) }
{
    let whole = std::mem::replace(strand, spent(alloc));
    let (made, item) = step(alloc, whole, list, path, opened(end), answers)?;
    *strand = made;
    Ok(item)
}

/// One step of a strand, as `step`, where the strand stands. After an error it is spent.
pub fn step_here<A: Answers>(
    alloc: Global,
    strand: &mut Strand,
    list: &[Action],
    path: &[u32],
    end: Option<Held<WaitEnd>>,
    answers: &A,
) -> Result<Item, AllocError>
    requires may { may_step strand.old list.now path.now (A.sight answers.now).now end ≡ true }
    requires moment { (A.sight answers.now).now ≤ last_moment }
    ensures settled { is_settled list.now strand.old ≡ true → is_settled list.now strand.new ≡ true }
    ensures told { IfOk result (λ item. (began : Began) (n : ℕ) (c : Branch) (g : Gate)
        → gate_at c (fronts strand.new list.now (placed path.now n began)) ≡ Some g → Tells path.now (fronts strand.old list.now began) c g) }
    ensures step { IfOk result (λ item. IsStep (A.sight answers.now) list.now path.now end strand.old item strand.new) }
{
    if is_ready(strand) {
        step_ready(alloc, strand, list, answers)
    } else {
        step_moved(alloc, strand, list, path, end, answers)
    }
}
