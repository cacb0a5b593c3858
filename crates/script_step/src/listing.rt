//! The branches of a run that may step, in order.
ghost use Rattle.std.specs.Prelude.{◌≡◌, ◌<◌, ◌++◌, ◌∷◌, map, [], length, true, IfOk, OnOk};
ghost use Rattle.script_step.specs.Continuation.{last_action, lists_of};
ghost use Rattle.script_step.specs.Few.{has_few_lists};
ghost use Rattle.script_step.specs.Ready.{readies, readies_from};
ghost use Rattle.script_step.specs.Sides.{all_settled, is_settled, standing};

use crate::step::side_list;
use crate::strand::{Stage, Strand};
use crate::thread::Thread;
use ha_clock::Moment;
use ha_config::Action;
use ha_sight::{Branch, Ended};
use ha_value::{Many, Plain};
use std::alloc::{AllocError, Global};

/// Adds a branch.
fn add(alloc: Global, branch: &Branch, found: &mut Many<Branch>) -> Result<(), AllocError>
    ensures { OnOk result (found.new ≡ found.old ++ branch.now ∷ []) }
{
    let copy = branch.copy(alloc)?;
    found.push(copy)?;
    Ok(())
}

/// The number of a list. The lists of a block are fewer than 2^32.
fn number_of(i: usize) -> u32
    ensures { i < 4_294_967_296 → result ≡ i }
{
    match u32::try_from(i) {
        Ok(number) => number,
        Err(_) => 0,
    }
}

/// The branch of a list of a parallel block in a branch.
fn branch_below(alloc: Global, branch: &Branch, i: u32) -> Result<Branch, AllocError>
    ensures { IfOk result (λ made. made ≡ branch.now ++ i ∷ []) }
{
    let mut made = branch.copy(alloc)?;
    made.push(i)?;
    Ok(made)
}

/// Adds the branches that may step in the lists of a parallel block.
#[cycle(listing)]
fn add_sides<E: Ended>(
    alloc: Global,
    strands: &[Strand],
    thread: &Thread,
    list: &[Action],
    branch: &Branch,
    serial: u64,
    now: Moment,
    ended: &E,
    found: &mut Many<Branch>,
) -> Result<(), AllocError>
    ensures { length strands.now < 4_294_967_296 → has_few_lists list.now ≡ true
        → all_settled 0 (map standing strands.now) (lists_of (last_action list.now thread.now)) ≡ true
        → OnOk result (found.new ≡ found.old ++ map (λ c. branch.now ++ c) (readies_from 0 (map readies strands.now) (lists_of (last_action list.now thread.now)) now (λ c. E.ends ended.now serial (branch.now ++ c)))) }
{
    for i in 0..strands.len() {
        let below = branch_below(alloc, branch, number_of(i))?;
        add_ready(
            alloc,
            &strands[i],
            side_list(thread, list, i),
            &below,
            serial,
            now,
            ended,
            found,
        )?;
    }
    Ok(())
}

/// Adds the branches of a strand that may step, where the strand is in this branch.
#[cycle(listing)]
pub fn add_ready<E: Ended>(
    alloc: Global,
    strand: &Strand,
    list: &[Action],
    branch: &Branch,
    serial: u64,
    now: Moment,
    ended: &E,
    found: &mut Many<Branch>,
) -> Result<(), AllocError>
    ensures { has_few_lists list.now ≡ true → is_settled list.now strand.now ≡ true
        → OnOk result (found.new ≡ found.old ++ map (λ c. branch.now ++ c) (readies strand.now list.now now (λ c. E.ends ended.now serial (branch.now ++ c)))) }
{
    match &strand.stage {
        Stage::Ready => {
            if strand.thread.has_next(list) {
                add(alloc, branch, found)
            } else {
                Ok(())
            }
        }
        Stage::Delay(due) => {
            if *due <= now {
                add(alloc, branch, found)
            } else {
                Ok(())
            }
        }
        Stage::Wait(_) => {
            if ended.ended(serial, branch).is_some() {
                add(alloc, branch, found)
            } else {
                Ok(())
            }
        }
        Stage::Sides(strands) => add_sides(
            alloc,
            strands.as_slice(),
            &strand.thread,
            list,
            branch,
            serial,
            now,
            ended,
            found,
        ),
        Stage::Ended(_) => Ok(()),
    }
}
