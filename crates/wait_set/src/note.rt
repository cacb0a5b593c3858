//! The waits at an entry: each is noted, or those alone that it concerns.
ghost use Rattle.std.specs.Prelude.{◌≡◌, ◌++◌, All, Bool, OnOk};
ghost use Rattle.wait_set.specs.Asked.{ended_at, noted, noted_at, owners_ended};
ghost use Rattle.wait_set.specs.Concern.{IsStill, OfOthers, has};
ghost use Rattle.wait_set.specs.Tested.{TestedOrQuiet};
ghost use Rattle.wait_set.specs.Timers.{AreKept};

use crate::asked::{Asked, note_one};
use crate::concern::concerned;
use crate::pending::{Pending, mark};
use ha_journal::Firing;
use ha_sight::Answers;
use ha_value::Many;
use std::alloc::{AllocError, Global};
use std::collections::BTreeSet;

/// Notes an entry with the wait at a place, if there is one.
fn note_at<A: Answers>(
    alloc: Global,
    at: usize,
    asks: &mut Vec<Asked>,
    fresh: &mut Vec<u64>,
    pending: &mut Pending,
    place: u64,
    fired: &Many<Firing>,
    answers: &A,
) -> Result<(), AllocError>
    ensures ok { OnOk result (asks.new.items ≡ noted_at place (A.sight answers.now) fired.now at asks.old.items) }
    ensures fresh { OnOk result (fresh.new.items ≡ fresh.old.items ++ ended_at place (A.sight answers.now) fired.now at asks.old.items) }
    ensures kept { (ordered : Bool) → AreKept asks.old.items pending.old.timers pending.old.readers pending.old.runs ordered
        → AreKept asks.new.items pending.new.timers pending.new.readers pending.new.runs ordered }
{
    if at >= asks.len() {
        return Ok(());
    }
    let asked = &mut asks[at];
    let owner = asked.owner;
    let ends = note_one(alloc, asked, place, fired, answers)?;
    if !ends {
        return Ok(());
    }
    mark(pending, fresh, owner)
}

/// Notes an entry with each wait in turn.
fn note_all<A: Answers>(
    alloc: Global,
    asks: &mut Vec<Asked>,
    fresh: &mut Vec<u64>,
    pending: &mut Pending,
    place: u64,
    fired: &Many<Firing>,
    answers: &A,
) -> Result<(), AllocError>
    ensures ok { OnOk result (asks.new.items ≡ noted place (A.sight answers.now) fired.now asks.old.items) }
    ensures fresh { OnOk result (fresh.new.items ≡ fresh.old.items ++ owners_ended place (A.sight answers.now) fired.now asks.old.items) }
    ensures kept { (ordered : Bool) → AreKept asks.old.items pending.old.timers pending.old.readers pending.old.runs ordered
        → AreKept asks.new.items pending.new.timers pending.new.readers pending.new.runs ordered }
{
    for at in 0..asks.len() {
        note_at(alloc, at, asks, fresh, pending, place, fired, answers)?;
    }
    Ok(())
}

/// Notes an entry with the waits at these places, where it leaves the others as they are.
fn note_some<A: Answers>(
    alloc: Global,
    places: BTreeSet<usize>,
    asks: &mut Vec<Asked>,
    fresh: &mut Vec<u64>,
    pending: &mut Pending,
    place: u64,
    fired: &Many<Firing>,
    answers: &A,
) -> Result<(), AllocError>
    requires { OfOthers (IsStill place (A.sight answers.now) fired.now) places asks.old.items }
    ensures ok { OnOk result (asks.new.items ≡ noted place (A.sight answers.now) fired.now asks.old.items) }
    ensures fresh { OnOk result (fresh.new.items ≡ fresh.old.items ++ owners_ended place (A.sight answers.now) fired.now asks.old.items) }
    ensures kept { (ordered : Bool) → AreKept asks.old.items pending.old.timers pending.old.readers pending.old.runs ordered
        → AreKept asks.new.items pending.new.timers pending.new.readers pending.new.runs ordered }
{
    let mut left = places;
    'places: while let Some(at) = left.pop_first() {
        note_at(alloc, at, asks, fresh, pending, place, fired, answers)?;
    }
    Ok(())
}

/// Notes the next entry: with the waits that it concerns, or with all where the owners are not
/// known to ascend.
pub(crate) fn note_entry<A: Answers>(
    alloc: Global,
    asks: &mut Vec<Asked>,
    fresh: &mut Vec<u64>,
    pending: &mut Pending,
    ordered: bool,
    place: u64,
    tested: &BTreeSet<u64>,
    fired: &Many<Firing>,
    answers: &A,
) -> Result<(), AllocError>
    requires kept { AreKept asks.old.items pending.old.timers pending.old.readers pending.old.runs ordered }
    requires quiet { All (TestedOrQuiet (A.sight answers.now) (has tested.now)) asks.old.items }
    ensures ok { OnOk result (asks.new.items ≡ noted place (A.sight answers.now) fired.now asks.old.items) }
    ensures fresh { OnOk result (fresh.new.items ≡ fresh.old.items ++ owners_ended place (A.sight answers.now) fired.now asks.old.items) }
    ensures kept { AreKept asks.new.items pending.new.timers pending.new.readers pending.new.runs ordered }
{
    if asks.is_empty() || !ordered {
        return note_all(alloc, asks, fresh, pending, place, fired, answers);
    }
    let places = concerned(
        alloc,
        asks.as_slice(),
        &pending.timers,
        tested,
        fired.as_slice(),
        answers.now(),
    )?;
    note_some(alloc, places, asks, fresh, pending, place, fired, answers)
}
