//! An entry whose own changes were made: the triggers and the waits are told of it, and the runs that it wakes are listed anew.
ghost use Rattle.std.specs.Prelude.{◌≡◌, ◌-◌, ℕ, IfOk, OnOk, length};
ghost use Rattle.ha_journal.specs.Attempts.{fired as fired_lem};
ghost use Rattle.ha_journal.specs.Helpers.{last_events};
ghost use Rattle.ha_model.specs.Records.{Records};
ghost use Rattle.ha_past.specs.Firings.{firings};
ghost use Rattle.helper_set.specs.Kept.{StandsFor};
ghost use Rattle.trig_set.specs.Stands.{attached};
ghost use Rattle.wait_set.specs.Asked.{WaitTable};
ghost use Rattle.engine_parts.specs.Kept.{AreSound, Going, Looks, nobody};
ghost use Rattle.engine_parts.specs.Owners.{attempts_by};
ghost use Rattle.engine_parts.specs.Stages.{Entered, Noted, RunsBefore, Told, Untold};
ghost use Rattle.engine_parts.specs.Waiting.{EndsGrow};
ghost use Rattle.engine_parts.specs.Without.{without_owners};

use crate::note::note;
use crate::order::ordered;
use crate::parts::Parts;
use crate::tested::tested_by;
use crate::wake::wake;
use ha_clock::{Moment, Zone};
use ha_journal::{BusEvent, Firing};
use ha_value::Many;
use helper_set::Helpers;
use script_calls::Seeing;
use segment_view::Segment;
use state_table::StateTable;
use std::alloc::{AllocError, Global};
use trig_set::{Before, TrigSet};
use wait_set::Waits;

/// The triggers and the waits note the last entry, where these are the states, the helpers, the zone and Now after it, and the events of
/// helpers that it gives.
fn note_last<'a>(
    triggers: &mut TrigSet,
    waits: &mut Waits,
    alloc: Global,
    journal: &'a Segment<'_>,
    before: Before,
    given: &Many<BusEvent>,
    states: &'a StateTable,
    numbers: &'a Many<u32>,
    helpers: &'a Helpers,
    zone: &'a Zone,
    at: Moment,
) -> Result<Many<Firing>, AllocError>
    requires looks { Looks journal.now states.now numbers.now zone.now at }
    requires helpers { StandsFor helpers.now journal.now }
    requires sound { AreSound journal.now }
    requires given { given.now ≡ last_events journal.now }
    requires untold { Untold journal.now triggers.old waits.old before }
    ensures attached { OnOk result (attached triggers.new ≡ attached triggers.old) }
    ensures told { OnOk result (Told journal.entry.now waits.old triggers.new waits.new) }
    ensures fired { IfOk result (λ fired. fired ≡ firings journal.entry.now (length journal.entry.now - 1) (attached triggers.old)) }
{
    let tested = tested_by(waits, alloc, journal, &before)?;
    let view = Seeing::make(states, journal.configuration(), numbers, zone, at, helpers);
    // The borrow checker builds its plan only where a place has the type that the view holds.
    let _ = &view.view;
    let fired = note(
        triggers,
        waits,
        alloc,
        journal.place(),
        &tested,
        journal.last_entry(),
        before,
        given,
        &view,
    )?;
    Ok(fired)
}

/// The triggers and the waits note the entry; the answer has what fired, by the owners' numbers.
fn note_parts(
    parts: &mut Parts,
    alloc: Global,
    journal: &Segment<'_>,
    before: Before,
) -> Result<Many<Firing>, AllocError>
    requires { Entered journal.now parts.old before }
    ensures attached { OnOk result (attached parts.new.triggers ≡ attached parts.old.triggers) }
    ensures noted { OnOk result (Noted journal.now parts.old.waits parts.new) }
    ensures fired { IfOk result (λ fired. fired ≡ firings journal.now (length journal.now - 1) (attached parts.old.triggers)) }
    ensures rest { OnOk result (parts.new ≡ record parts.old { triggers = parts.new.triggers; waits = parts.new.waits }) }
{
    let fired = note_last(
        &mut parts.triggers,
        &mut parts.waits,
        alloc,
        journal,
        before,
        &parts.given,
        &parts.states,
        &parts.numbers,
        &parts.helpers,
        &parts.zone,
        parts.at,
    )?;
    Ok(fired)
}

/// The triggers and the waits note the entry; the answer has what fired, the attempts of automations as configured.
pub fn note_entry(
    parts: &mut Parts,
    alloc: Global,
    journal: &Segment<'_>,
    before: Before,
) -> Result<Many<Firing>, AllocError>
    requires { Entered journal.now parts.old before }
    ensures attached { OnOk result (attached parts.new.triggers ≡ attached parts.old.triggers) }
    ensures noted { OnOk result (Noted journal.now parts.old.waits parts.new) }
    ensures fired { IfOk result (λ fired. attempts_by fired ≡ fired_lem journal.now (length journal.now - 1)) }
    ensures rest { OnOk result (parts.new ≡ record parts.old { triggers = parts.new.triggers; waits = parts.new.waits }) }
{
    let fired = note_parts(parts, alloc, journal, before)?;
    let made = ordered(alloc, parts.ascending, &parts.numbers, journal, fired)?;
    Ok(made)
}

/// The runs that a line wakes are listed anew, and the triggers of the waits that ended are detached.
pub fn wake_line(parts: &mut Parts, alloc: Global, journal: &Segment<'_>) -> Result<(), AllocError>
    ensures attached { OnOk result (attached parts.new.triggers ≡ without_owners parts.old.waits.fresh (attached parts.old.triggers)) }
    ensures waits { parts.new.waits ≡ parts.old.waits }
    ensures going { OnOk result ((rs : Records) (w : WaitTable) → Noted journal.now w parts.old
        → RunsBefore journal.now rs w parts.old.delays parts.old.frames.items parts.old.ready.pairs.items parts.old.calls → Going nobody journal.now rs parts.new) }
    ensures rest { parts.new.rested ≡ parts.old.rested }
{
    wake(
        &mut parts.delays,
        &mut parts.triggers,
        &mut parts.ready,
        &parts.frames,
        journal,
        alloc,
        parts.at,
        &parts.waits,
    )?;
    Ok(())
}

/// All of it for a line; the answer has what fired.
pub fn attend(
    parts: &mut Parts,
    alloc: Global,
    journal: &Segment<'_>,
    before: Before,
) -> Result<Many<Firing>, AllocError>
    requires { Entered journal.now parts.old before }
    ensures attached { OnOk result (attached parts.new.triggers ≡ without_owners parts.new.waits.fresh (attached parts.old.triggers)) }
    ensures ended { OnOk result ((serial : ℕ) → EndsGrow parts.old.waits parts.new.waits serial) }
    ensures fired { IfOk result (λ fired. attempts_by fired ≡ fired_lem journal.now (length journal.now - 1)) }
    ensures going { OnOk result ((rs : Records) → RunsBefore journal.now rs parts.old.waits parts.old.delays parts.old.frames.items parts.old.ready.pairs.items parts.old.calls
        → Going nobody journal.now rs parts.new) }
    ensures rested { OnOk result (parts.new.rested ≡ parts.old.rested) }
{
    let fired = note_entry(parts, alloc, journal, before)?;
    wake_line(parts, alloc, journal)?;
    Ok(fired)
}
