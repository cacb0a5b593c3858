//! The lists of a parallel block.
ghost use Rattle.std.specs.Prelude.{◌≡◌, ◌⊎◌, List, Some, IfOk, map, true, false};
ghost use Rattle.ha_config.specs.declared.config.Action.{Action};
ghost use Rattle.ha_config.specs.declared.config.ActionKind.TheOpen.{ActionKind-F};
ghost use Rattle.ha_sight.specs.Sight.{Sight};
ghost use Rattle.ha_sight.specs.Scripts.{Branch, Spot};
ghost use Rattle.script_step.specs.declared.strand.Stage.{Stage};
ghost use Rattle.script_step.specs.Continuation.{Began};
ghost use Rattle.script_step.specs.Gates.{Gate, fronts_on, gate_at};
ghost use Rattle.script_step.specs.Sides.{all_over, end_of, halt_of, is_whole, side_of, stage_settled};
ghost use Rattle.script_step.specs.declared.strand.Stage.TheVariants.{Sides};
ghost use Rattle.script_step.specs.Step.{Does, thread_on};

use crate::scopes::Scopes;
use crate::strand::{End, Stage, Strand};
use crate::thread::Thread;
use ha_config::Action;
use ha_sight::Item;
use ha_value::Many;
use std::alloc::{AllocError, Global};

/// A list begins, with these variables and a block of its own.
fn side(alloc: Global, scopes: &Scopes, list: &Many<Action>) -> Result<Strand, AllocError>
    ensures { IfOk result (λ made. made ≡ side_of scopes.now list.now) }
{
    let mut own = scopes.copy(alloc)?;
    own.open()?;
    let thread = Thread::start(alloc, own);
    if list.len() == 0 {
        Ok(Strand {
            thread,
            stage: Stage::Ended(End::Done),
        })
    } else {
        Ok(Strand {
            thread,
            stage: Stage::Ready,
        })
    }
}

/// All lists begin.
fn sides(
    alloc: Global,
    scopes: &Scopes,
    lists: &Many<Many<Action>>,
) -> Result<Many<Strand>, AllocError>
    ensures { IfOk result (λ made. made ≡ map (side_of scopes.now) lists.now) }
{
    let mut all = Many::make(alloc);
    for list in lists.as_slice() {
        all.push(side(alloc, scopes, list)?)?;
    }
    Ok(all)
}

/// `parallel` starts its lists.
pub fn parallel(
    alloc: Global,
    thread: &Thread,
    lists: &Many<Many<Action>>,
) -> Result<(Item, Stage), AllocError>
    ensures begins { IfOk result (λ r. r.1 ≡ Sides (map (side_of thread.now.scopes) lists.now)) }
    ensures step { IfOk result (λ r. (sight : Sight) → Does sight (ActionKind-F.Parallel lists.now) thread.now r.0 thread.now r.1) }
{
    let strands = sides(alloc, &thread.scopes, lists)?;
    Ok((Item::Nothing, Stage::Sides(strands)))
}

/// How a strand has ended, if it has.
pub fn end_of(strand: &Strand) -> Option<End>
    ensures { result ≡ end_of strand.now }
{
    match &strand.stage {
        Stage::Ended(end) => Some(*end),
        _ => None,
    }
}

/// Whether all have ended.
pub fn all_over(strands: &[Strand]) -> bool
    ensures { result ≡ all_over strands.now }
{
    for i in 0..strands.len() {
        if end_of(&strands[i]).is_none() {
            return false;
        }
    }
    true
}

/// The first that stopped or faulted.
pub fn halt_of(strands: &[Strand]) -> Option<End>
    ensures { result ≡ halt_of strands.now }
{
    for i in 0..strands.len() {
        match end_of(&strands[i]) {
            Some(End::Stopped) => return Some(End::Stopped),
            Some(End::Faulted) => return Some(End::Faulted),
            _ => {}
        }
    }
    None
}

/// How a thread goes on where nothing of its block may be left: blocks that are over are left.
fn goes_on(thread: &mut Thread, list: &[Action]) -> Stage
    ensures means { (b : Branch) (began : Began) (ps : List Spot) → thread_on list.now thread.old Stage.Ready b began ps ≡ thread_on list.now thread.new result b began ps }
    ensures settled { stage_settled result list.now thread.new ≡ true }
    ensures free { (began : Began) (c : Branch) (g : Gate) → gate_at c (fronts_on result list.now thread.new began) ≡ Some g → g ≡ Gate.Free }
{
    if thread.settle(list) {
        Stage::Ready
    } else {
        Stage::Ended(End::Done)
    }
}

/// How a thread goes on behind a step: where nothing of a block is left, and where all lists of a parallel block have ended.
pub fn finished(thread: &mut Thread, list: &[Action], stage: Stage) -> Stage
    ensures means { (b : Branch) (began : Began) (ps : List Spot) → thread_on list.now thread.old stage b began ps ≡ thread_on list.now thread.new result b began ps }
    ensures settled { is_whole stage list.now thread.old ≡ true → stage_settled result list.now thread.new ≡ true }
    ensures told { (began : Began) (c : Branch) (g : Gate) → gate_at c (fronts_on result list.now thread.new began) ≡ Some g
        → (g ≡ Gate.Free) ⊎ (gate_at c (fronts_on stage list.now thread.old began) ≡ Some g) }
{
    match stage {
        Stage::Ready => goes_on(thread, list),
        Stage::Sides(strands) => {
            if all_over(strands.as_slice()) {
                match halt_of(strands.as_slice()) {
                    Some(end) => Stage::Ended(end),
                    None => goes_on(thread, list),
                }
            } else {
                Stage::Sides(strands)
            }
        }
        stage => stage,
    }
}
