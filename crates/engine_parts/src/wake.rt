//! Whose branches may step since an entry: delays that are over, and waits that ended.
ghost use Rattle.std.specs.Prelude.{◌≡◌, ◌<◌, ◌≤◌, All, IsNone, ◌++◌, ◌-◌, ◌∷◌, [], ℕ, List, true, OnOk, length, slice_get, option_and_then};
ghost use Rattle.std.specs.Option.{option_copied};
ghost use Rattle.ha_journal.specs.Journal.{Journal};
ghost use Rattle.ha_model.specs.Records.{CallEnds, Records};
ghost use Rattle.engine_parts.specs.Runs.{Waking, first_wait};
ghost use Rattle.ha_ready.specs.ReadyPairs.{branches_with, pairs_from};
ghost use Rattle.ha_ready.specs.Agree.{AgreesBut, step_at, touched};
ghost use Rattle.engine_parts.specs.Touched.{QueueKept, due_places, wait_places};
ghost use Rattle.timer_queue.specs.Timers.{first_due, after_due};
ghost use Rattle.ha_past.specs.Firings.{without_owner};
ghost use Rattle.trig_set.specs.Stands.{StandsFor, attached};
ghost use Rattle.wait_set.specs.Asked.{WaitTable};
ghost use Rattle.engine_parts.specs.Waiting.{fresh};
ghost use Rattle.engine_parts.specs.Pending.{AreOthers, AreWaits};
ghost use Rattle.engine_parts.specs.Without.{without_owners};
ghost use Rattle.engine_parts.specs.Kept.{KeysBelow, Owned};

use crate::parts::FIRST_WAIT;
use crate::ready::{Ready, set_run};
use crate::slots::Slots;
use ha_clock::Moment;
use ha_value::Many;
use script_step::Frames;
use segment_view::Segment;
use std::alloc::{AllocError, Global};
use timer_queue::TimerQueue;
use trig_set::TrigSet;
use wait_set::Waits;

/// The frames of the run with this serial, if it has not ended.
fn run_at(frames: &Slots<Frames>, serial: u64) -> Option<&Frames>
    ensures { option_copied result ≡ option_and_then (λ slot. slot) (slice_get frames.now.items (serial - 1)) }
{
    frames.get(serial.saturating_sub(1) as usize)
}

/// Lists the branches of a run that may step anew.
fn refresh(
    ready: &mut Ready,
    frames: &Slots<Frames>,
    journal: &Segment<'_>,
    alloc: Global,
    now: Moment,
    waits: &Waits,
    serial: u64,
) -> Result<(), AllocError>
    ensures { OnOk result ((told : CallEnds) (rs : Records) (p : ℕ) (left : List ℕ) → Waking told rs journal.now waits.now frames.now.items now → step_at journal.now serial p ≡ true
        → AgreesBut told (touched journal.now (p ∷ left)) rs journal.now ready.old.pairs.items → AgreesBut told (touched journal.now left) rs journal.now ready.new.pairs.items) }
{
    match run_at(frames, serial) {
        Some(run) => match run.list_ready(alloc, journal.script(run.automation()), now, waits) {
            Ok(branches) => set_run(ready, serial, branches),
            Err(error) => Err(error),
        },
        None => set_run(ready, serial, Many::make(alloc)),
    }
}

/// A delay that is over: the branches of its run are listed anew.
fn wake_one(
    ready: &mut Ready,
    frames: &Slots<Frames>,
    journal: &Segment<'_>,
    alloc: Global,
    now: Moment,
    waits: &Waits,
    place: u64,
) -> Result<(), AllocError>
    ensures { OnOk result ((told : CallEnds) (rs : Records) (left : List ℕ) → Waking told rs journal.now waits.now frames.now.items now
        → AgreesBut told (touched journal.now (place ∷ left)) rs journal.now ready.old.pairs.items → AgreesBut told (touched journal.now left) rs journal.now ready.new.pairs.items) }
{
    match journal.stepper(place) {
        Some(serial) => refresh(ready, frames, journal, alloc, now, waits, serial),
        None => Ok(()),
    }
}

/// The first delay that is over leaves the queue.
#[tactic(auto, using(crate::proofs::KeyLemmas::keys_after))]
fn pop(delays: &mut TimerQueue, now: Moment) -> Option<u64>
    ensures first { result ≡ first_due now delays.old }
    ensures rest { delays.new ≡ after_due now delays.old }
    ensures none { IsNone result → All (λ t. now < t.0) delays.old }
    ensures early { (n : ℕ) → KeysBelow n delays.old → KeysBelow n delays.new }
{
    delays.pop_due(now)
}

/// The delays that are over at this moment leave the queue, and the branches of their runs are listed anew.
fn wake_delays(
    delays: &mut TimerQueue,
    ready: &mut Ready,
    frames: &Slots<Frames>,
    journal: &Segment<'_>,
    alloc: Global,
    now: Moment,
    waits: &Waits,
) -> Result<(), AllocError>
    ensures over { OnOk result (due_places now delays.new ≡ []) }
    ensures queue { OnOk result (QueueKept now delays.old delays.new) }
    ensures early { OnOk result ((n : ℕ) → KeysBelow n delays.old → KeysBelow n delays.new) }
    ensures agree { OnOk result ((told : CallEnds) (rs : Records) (left : List ℕ) → Waking told rs journal.now waits.now frames.now.items now
        → AgreesBut told (touched journal.now (due_places now delays.old ++ left)) rs journal.now ready.old.pairs.items → AgreesBut told (touched journal.now left) rs journal.now ready.new.pairs.items) }
{
    'due: while let Some(place) = pop(delays, now) {
        wake_one(ready, frames, journal, alloc, now, waits, place)?;
    }
    Ok(())
}

/// The triggers of a wait that has ended are detached.
pub fn detach(triggers: &mut TrigSet, owner: u64)
    ensures rest { attached triggers.new ≡ without_owner owner (attached triggers.old) }
    ensures stands { (j : Journal) → StandsFor triggers.old j → StandsFor triggers.new j }
    ensures owned { (j : Journal) (left : List ℕ) (w : WaitTable) → first_wait ≤ owner → AreOthers (owner ∷ left) w.asks → Owned j triggers.old w → Owned j triggers.new w }
{
    triggers.detach(owner);
}

/// The triggers of waits that have ended are detached.
fn detach_all(triggers: &mut TrigSet, owners: &[u64])
    ensures rest { attached triggers.new ≡ without_owners owners.now (attached triggers.old) }
    ensures stands { (j : Journal) → StandsFor triggers.old j → StandsFor triggers.new j }
    ensures owned { (j : Journal) (w : WaitTable) → AreWaits owners.now → AreOthers owners.now w.asks → Owned j triggers.old w → Owned j triggers.new w }
{
    'owners: for owner in owners {
        detach(triggers, *owner);
    }
}

/// The branches of the runs whose waits ended at the entry noted last are listed anew.
fn wake_waits(
    ready: &mut Ready,
    frames: &Slots<Frames>,
    journal: &Segment<'_>,
    alloc: Global,
    now: Moment,
    waits: &Waits,
) -> Result<(), AllocError>
    ensures { OnOk result ((told : CallEnds) (rs : Records) (left : List ℕ) → Waking told rs journal.now waits.now frames.now.items now
        → AgreesBut told (touched journal.now (wait_places (fresh waits.now) ++ left)) rs journal.now ready.old.pairs.items → AgreesBut told (touched journal.now left) rs journal.now ready.new.pairs.items) }
{
    let owners = waits.ended_now();
    'owners: for owner in owners {
        let owner = *owner;
        wake_one(
            ready,
            frames,
            journal,
            alloc,
            now,
            waits,
            owner.saturating_sub(FIRST_WAIT),
        )?;
    }
    Ok(())
}

/// Whose branches may step since the entry that was noted last: behind it the pairs are those of the records before it.
pub fn wake(
    delays: &mut TimerQueue,
    triggers: &mut TrigSet,
    ready: &mut Ready,
    frames: &Slots<Frames>,
    journal: &Segment<'_>,
    alloc: Global,
    now: Moment,
    waits: &Waits,
) -> Result<(), AllocError>
    ensures stands { OnOk result ((j : Journal) → StandsFor triggers.old j → StandsFor triggers.new j) }
    ensures rest { OnOk result (attached triggers.new ≡ without_owners waits.now.fresh (attached triggers.old)) }
    ensures owned { OnOk result ((j : Journal) → AreWaits waits.now.fresh → AreOthers waits.now.fresh waits.now.asks → Owned j triggers.old waits.now → Owned j triggers.new waits.now) }
    ensures over { OnOk result (due_places now delays.new ≡ []) }
    ensures queue { OnOk result (QueueKept now delays.old delays.new) }
    ensures early { OnOk result ((n : ℕ) → KeysBelow n delays.old → KeysBelow n delays.new) }
    ensures pairs { OnOk result ((told : CallEnds) (rs : Records) → Waking told rs journal.now waits.now frames.now.items now
        → AgreesBut told (touched journal.now (due_places now delays.old ++ wait_places (fresh waits.now))) rs journal.now ready.old.pairs.items
        → ready.new.pairs.items ≡ pairs_from 0 (length rs) (branches_with told rs journal.now)) }
{
    wake_delays(delays, ready, frames, journal, alloc, now, waits)?;
    detach_all(triggers, waits.ended_now());
    wake_waits(ready, frames, journal, alloc, now, waits)?;
    Ok(())
}

/// The same behind a step, which stands at this place: its own run is listed anew too.
pub fn wake_step(
    delays: &mut TimerQueue,
    triggers: &mut TrigSet,
    ready: &mut Ready,
    frames: &Slots<Frames>,
    journal: &Segment<'_>,
    alloc: Global,
    now: Moment,
    waits: &Waits,
    place: u64,
) -> Result<(), AllocError>
    ensures stands { OnOk result ((j : Journal) → StandsFor triggers.old j → StandsFor triggers.new j) }
    ensures rest { OnOk result (attached triggers.new ≡ without_owners waits.now.fresh (attached triggers.old)) }
    ensures owned { OnOk result ((j : Journal) → AreWaits waits.now.fresh → AreOthers waits.now.fresh waits.now.asks → Owned j triggers.old waits.now → Owned j triggers.new waits.now) }
    ensures over { OnOk result (due_places now delays.new ≡ []) }
    ensures queue { OnOk result (QueueKept now delays.old delays.new) }
    ensures early { OnOk result ((n : ℕ) → KeysBelow n delays.old → KeysBelow n delays.new) }
    ensures pairs { OnOk result ((told : CallEnds) (rs : Records) → Waking told rs journal.now waits.now frames.now.items now
        → AgreesBut told (touched journal.now (place ∷ (due_places now delays.old ++ wait_places (fresh waits.now)))) rs journal.now ready.old.pairs.items
        → ready.new.pairs.items ≡ pairs_from 0 (length rs) (branches_with told rs journal.now)) }
{
    wake_one(ready, frames, journal, alloc, now, waits, place)?;
    wake(delays, triggers, ready, frames, journal, alloc, now, waits)?;
    Ok(())
}
