//! The step itself: the frames of a run are taken out of their slot, step on what the journal shows, and are put back.
ghost use Rattle.std.specs.Prelude.{◌≡◌, ◌-◌, ◌<◌, IfOk, None, Some, length, set, slice_get, true};
ghost use Rattle.ha_journal.specs.Journal.{IsJournal, units};
ghost use Rattle.ha_model.specs.Records.{actions_of};
ghost use Rattle.ha_journal.specs.Moves.{sight};
ghost use Rattle.helper_set.specs.Kept.{StandsFor};
ghost use Rattle.script_step.specs.Frames.{may};
ghost use Rattle.script_step.specs.Taken.{out_of};
ghost use Rattle.engine_parts.specs.Kept.{AreSound, Looks};
ghost use Rattle.engine_parts.specs.Slots.{value_in};
ghost use Rattle.engine_entry.specs.Stepping.{IsRunStep, MaySlot, SlotStep};

use engine_parts::slots::Slots;
use ha_clock::{Moment, Zone};
use ha_sight::{Branch, WaitEnd};
use ha_value::Many;
use helper_set::Helpers;
use script_calls::Seeing;
use script_step::{Frames, Held, Taken};
use segment_view::Behind;
use state_table::StateTable;
use std::alloc::{AllocError, Global};

/// One step of a run, on what the journal shows. After an error the frames are spent.
fn step_frames<'a>(
    run: &mut Frames,
    alloc: Global,
    journal: &'a Behind<'_>,
    states: &'a StateTable,
    numbers: &'a Many<u32>,
    helpers: &'a Helpers,
    zone: &'a Zone,
    at: Moment,
    branch: &Branch,
    wait: Option<Held<WaitEnd>>,
) -> Result<Taken, AllocError>
    requires journal { IsJournal journal.now }
    requires looks { Looks journal.now states.now numbers.now zone.now at }
    requires helpers { StandsFor helpers.now journal.now }
    requires sound { AreSound journal.now }
    requires script { actions_of (units journal.now) run.old.automation ≡ run.old.script.value }
    requires may { may run.old branch.now at wait ≡ true }
    ensures { IfOk result (λ out. IsRunStep (sight journal.entry.now (length journal.entry.now)) branch.now wait run.old run.new (out_of out)) }
{
    let view = Seeing::make(states, journal.configuration(), numbers, zone, at, helpers);
    // The borrow checker builds its plan only where a place has the type that the view holds.
    let _ = &view.view;
    let actions = journal.script(run.automation());
    let out = run.step(alloc, actions, branch, wait, &view)?;
    Ok(out)
}

/// The frames are taken out of the slot of a run.
fn take_frames(frames: &mut Slots<Frames>, serial: u64) -> Option<Box<Frames>>
    requires { serial - 1 < length frames.old.items }
    ensures taken { slice_get frames.old.items (serial - 1) ≡ Some (value_in result) }
    ensures rest { frames.new.items ≡ set frames.old.items (serial - 1) None }
{
    frames.take(serial.saturating_sub(1) as usize)
}

/// Frames are put into the slot of a run.
fn put_frames(frames: &mut Slots<Frames>, serial: u64, run: Box<Frames>)
    requires { serial - 1 < length frames.old.items }
    ensures { frames.new.items ≡ set frames.old.items (serial - 1) (Some run.value) }
{
    frames.put(serial.saturating_sub(1) as usize, run);
}

/// The step of a run in its slot, and the due of the delay in which its branch then is, if it is in one. After an error the slot is empty.
pub fn step_slot(
    frames: &mut Slots<Frames>,
    alloc: Global,
    journal: &Behind<'_>,
    states: &StateTable,
    numbers: &Many<u32>,
    helpers: &Helpers,
    zone: &Zone,
    at: Moment,
    serial: u64,
    branch: &Branch,
    wait: Option<Held<WaitEnd>>,
) -> Result<(Taken, Option<Moment>), AllocError>
    requires journal { IsJournal journal.now }
    requires looks { Looks journal.now states.now numbers.now zone.now at }
    requires helpers { StandsFor helpers.now journal.now }
    requires sound { AreSound journal.now }
    requires slot { MaySlot journal.now serial branch.now at wait frames.old.items }
    ensures { IfOk result (λ x. SlotStep (sight journal.now (length journal.now)) serial branch.now wait frames.old.items frames.new.items (out_of x.0) x.1) }
{
    let Some(mut run) = take_frames(frames, serial) else {
        unreachable!()
    };
    let out = step_frames(
        &mut run, alloc, journal, states, numbers, helpers, zone, at, branch, wait,
    )?;
    let due = run.due(branch);
    put_frames(frames, serial, run);
    Ok((out, due))
}
