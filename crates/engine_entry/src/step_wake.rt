//! A step whose own changes were made: its wait and its delay are taken in, the triggers and the waits are told of it, and the runs that it
//! wakes are listed anew.
ghost use Rattle.std.specs.Prelude.{◌≡◌, ◌-◌, ◌<◌, ◌∷◌, [], ℕ, List, Option, Some, IfOk, OnOk, false, length, slice_get};
ghost use Rattle.std.specs.Option.{option_map_or};
ghost use Rattle.timer_queue.specs.Timers.{Timer};
ghost use Rattle.ha_sight.specs.declared.item.Item.{Item};
ghost use Rattle.ha_sight.specs.declared.steps.Progress.{Progress as Far};
ghost use Rattle.ha_sight.specs.Scripts.{Branch as Path};
ghost use Rattle.ha_journal.specs.declared.entry.Entry.TheVariants.{Step};
ghost use Rattle.ha_journal.specs.Attempts.{fired as fired_lem};
ghost use Rattle.ha_journal.specs.Journal.{Journal, last_place, more, units};
ghost use Rattle.ha_model.specs.Records.{Records, actions_of};
ghost use Rattle.script_step.specs.declared.frames.Frames.{Frames as Framed};
ghost use Rattle.script_step.specs.Frames.{ask_of};
ghost use Rattle.trig_set.specs.Next.{Listed};
ghost use Rattle.wait_set.specs.Asked.{WaitTable};
ghost use Rattle.wait_set.specs.Timers.{timer_added};
ghost use Rattle.engine_parts.specs.Kept.{Going, KeysBelow, nobody};
ghost use Rattle.engine_parts.specs.Owners.{attempts_by};
ghost use Rattle.engine_parts.specs.Stages.{Entered, Noted};
ghost use Rattle.engine_entry.specs.Stepping.{CallBegun, StepEntered, StepRuns, asks_with};

use crate::step_take::{take_delay, take_wait};
use engine_parts::attend::note_entry;
use engine_parts::parts::Parts;
use engine_parts::slots::Slots;
use engine_parts::wake::wake_step;
use ha_clock::Moment;
use ha_journal::{Entry, Firing};
use ha_sight::{Branch, WaitAsk};
use ha_value::{Many, Plain};
use script_calls::Calls;
use script_step::{Frames, Held};
use segment_view::Segment;
use std::alloc::{AllocError, Global};
use trig_set::Before;

/// The wait and the delay that the step began are taken in.
fn take_over(
    parts: &mut Parts,
    alloc: Global,
    journal: &Segment<'_>,
    before: &Before,
    wait: Option<Held<WaitAsk>>,
    due: Option<Moment>,
) -> Result<(), AllocError>
    requires { StepEntered journal.now parts.old before.now wait }
    ensures entered { OnOk result (Entered journal.now parts.new before.now) }
    ensures asks { OnOk result (parts.new.waits.asks ≡ asks_with (last_place journal.now) wait parts.old.waits.asks) }
    ensures delays { OnOk result (parts.new.delays ≡ timer_added due (last_place journal.now) parts.old.delays) }
    ensures rest { OnOk result (parts.new ≡ record parts.old { triggers = parts.new.triggers; waits = parts.new.waits; delays = parts.new.delays }) }
{
    let place = journal.place();
    take_wait(&mut parts.triggers, &mut parts.waits, alloc, place, wait)?;
    take_delay(&mut parts.delays, place, due)?;
    Ok(())
}

/// Whether a run waits in this branch for the end of a run that it called.
fn is_calling(frames: &Slots<Frames>, journal: &Segment<'_>, serial: u64, branch: &Branch) -> bool
    ensures { (f : Framed) → slice_get frames.now.items (serial - 1) ≡ Some (Some f) → actions_of (units journal.now) f.automation ≡ f.script.value
        → result ≡ option_map_or (λ ask. ask.called) (ask_of f branch.now) false }
{
    match frames.get(serial.saturating_sub(1) as usize) {
        Some(run) => run.calls(journal.script(run.automation()), branch),
        None => false,
    }
}

/// Where the branch of a run waits for a run that it called, the wait is known by that run: the next one.
fn begin_call(
    calls: &mut Calls,
    alloc: Global,
    frames: &Slots<Frames>,
    journal: &Segment<'_>,
    serial: u64,
    branch: &Branch,
) -> Result<(), AllocError>
    ensures { OnOk result ((f : Framed) → slice_get frames.now.items (serial - 1) ≡ Some (Some f) → actions_of (units journal.now) f.automation ≡ f.script.value
        → CallBegun (option_map_or (λ ask. ask.called) (ask_of f branch.now) false) (length frames.now.items) serial branch.now calls.old calls.new) }
{
    if is_calling(frames, journal, serial, branch) {
        let caller = branch.copy(alloc)?;
        return calls.begin(serial, caller, frames.len() as u64 + 1);
    }
    Ok(())
}

/// The same of the run that made the last step.
fn note_call(
    calls: &mut Calls,
    alloc: Global,
    frames: &Slots<Frames>,
    journal: &Segment<'_>,
) -> Result<(), AllocError>
    ensures { OnOk result ((j : Journal) (worker s : ℕ) (b : Path) (item : Item) (f : Framed) → journal.now ≡ more j (Step worker s b item) → slice_get frames.now.items (s - 1) ≡ Some (Some f)
        → actions_of (units journal.now) f.automation ≡ f.script.value → CallBegun (option_map_or (λ ask. ask.called) (ask_of f b) false) (length frames.now.items) s b calls.old calls.new) }
{
    match journal.last_entry() {
        Entry::Step { serial, branch, .. } => begin_call(
            calls, alloc, frames, journal, *serial, branch,
        ),
        Entry::Line { .. } => Ok(()),
        Entry::Boot { .. } => Ok(()),
        Entry::Again { .. } => Ok(()),
    }
}

/// The runs that a step wakes are listed anew, its own with them.
fn wake_after(parts: &mut Parts, alloc: Global, journal: &Segment<'_>) -> Result<(), AllocError>
    ensures going { OnOk result ((rs : Records) (w0 w1 : WaitTable) (delays0 : List Timer) (progress : Far) (wait : Option WaitAsk) (due : Option ℕ)
        → StepRuns journal.now rs progress wait due w0 delays0 parts.old.frames.items parts.old.ready.pairs.items parts.old.calls → w1.asks ≡ asks_with (last_place journal.now) wait w0.asks
        → parts.old.delays ≡ timer_added due (last_place journal.now) delays0 → KeysBelow (last_place journal.now) delays0 → Noted journal.now w1 parts.old → Going nobody journal.now rs parts.new) }
    ensures rest { parts.new.rested ≡ parts.old.rested }
{
    note_call(&mut parts.calls, alloc, &parts.frames, journal)?;
    wake_step(
        &mut parts.delays,
        &mut parts.triggers,
        &mut parts.ready,
        &parts.frames,
        journal,
        alloc,
        parts.at,
        &parts.waits,
        journal.place(),
    )?;
    Ok(())
}

/// All of it for a step; the answer has what fired.
pub fn attend_step(
    parts: &mut Parts,
    alloc: Global,
    journal: &Segment<'_>,
    before: Before,
    wait: Option<Held<WaitAsk>>,
    due: Option<Moment>,
) -> Result<Many<Firing>, AllocError>
    requires { StepEntered journal.now parts.old before wait }
    ensures fired { IfOk result (λ fired. attempts_by fired ≡ fired_lem journal.now (last_place journal.now)) }
    ensures going { OnOk result ((rs : Records) (progress : Far) → StepRuns journal.now rs progress wait due parts.old.waits parts.old.delays parts.old.frames.items parts.old.ready.pairs.items parts.old.calls
        → Going nobody journal.now rs parts.new) }
    ensures rested { OnOk result (parts.new.rested ≡ parts.old.rested) }
{
    take_over(parts, alloc, journal, &before, wait, due)?;
    let fired = note_entry(parts, alloc, journal, before)?;
    wake_after(parts, alloc, journal)?;
    Ok(fired)
}
