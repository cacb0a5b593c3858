//! A report of an entity that concerns nobody: nothing fires, and its old state is asked by nobody.
ghost use Rattle.std.specs.Prelude.{◌≡◌, ◌-◌, ℕ, [], OnOk, length};
ghost use Rattle.ha_journal.specs.Attempts.{fired as fired_lem};
ghost use Rattle.ha_model.specs.Records.{Records};
ghost use Rattle.ha_past.specs.Firings.{firings};
ghost use Rattle.helper_set.specs.Kept.{StandsFor};
ghost use Rattle.trig_set.specs.Stands.{attached};
ghost use Rattle.engine_parts.specs.Kept.{AreSound, Going, Looks, nobody};
ghost use Rattle.engine_parts.specs.Stages.{EnteredLeft, Noted, RunsBefore, Told, UntoldLeft};
ghost use Rattle.engine_parts.specs.Waiting.{EndsGrow};
ghost use Rattle.engine_parts.specs.Without.{without_owners};

use crate::attend::wake_line;
use crate::note::note_waits;
use crate::parts::Parts;
use crate::tested::tested_for;
use ha_clock::{Moment, Zone};
use ha_value::{EntityId, Many, Value, Word};
use helper_set::Helpers;
use script_calls::Seeing;
use segment_view::Segment;
use state_table::StateTable;
use std::alloc::{AllocError, Global};
use trig_set::TrigSet;
use wait_set::Waits;

/// The triggers and the waits note the report, which is the last entry, where these are the states, the helpers, the zone and Now after it.
fn note_report<'a>(
    triggers: &mut TrigSet,
    waits: &mut Waits,
    alloc: Global,
    journal: &'a Segment<'_>,
    entity: &EntityId,
    text: &Word,
    attributes: &Many<(Word, Value)>,
    states: &'a StateTable,
    numbers: &'a Many<u32>,
    helpers: &'a Helpers,
    zone: &'a Zone,
    at: Moment,
) -> Result<(), AllocError>
    requires looks { Looks journal.now states.now numbers.now zone.now at }
    requires helpers { StandsFor helpers.now journal.now }
    requires sound { AreSound journal.now }
    requires untold { UntoldLeft journal.now triggers.old waits.old entity.now text.now attributes.now }
    ensures attached { OnOk result (attached triggers.new ≡ attached triggers.old) }
    ensures told { OnOk result (Told journal.entry.now waits.old triggers.new waits.new) }
    ensures fired { firings journal.entry.now (length journal.entry.now - 1) (attached triggers.old) ≡ [] }
{
    triggers.note_left(alloc, entity, text, attributes, at)?;
    let tested = tested_for(waits, alloc, journal, entity)?;
    let view = Seeing::make(states, journal.configuration(), numbers, zone, at, helpers);
    // The borrow checker builds its plan only where a place has the type that the view holds.
    let _ = &view.view;
    let fired = Many::make(alloc);
    note_waits(waits, alloc, journal.place(), &tested, &fired, &view)?;
    Ok(())
}

/// The same, of the parts.
fn note_left(
    parts: &mut Parts,
    alloc: Global,
    journal: &Segment<'_>,
    entity: &EntityId,
    text: &Word,
    attributes: &Many<(Word, Value)>,
) -> Result<(), AllocError>
    requires { EnteredLeft journal.now parts.old entity.now text.now attributes.now }
    ensures attached { OnOk result (attached parts.new.triggers ≡ attached parts.old.triggers) }
    ensures noted { OnOk result (Noted journal.now parts.old.waits parts.new) }
    ensures fired { firings journal.now (length journal.now - 1) (attached parts.old.triggers) ≡ [] }
    ensures rest { OnOk result (parts.new ≡ record parts.old { triggers = parts.new.triggers; waits = parts.new.waits }) }
{
    note_report(
        &mut parts.triggers,
        &mut parts.waits,
        alloc,
        journal,
        entity,
        text,
        attributes,
        &parts.states,
        &parts.numbers,
        &parts.helpers,
        &parts.zone,
        parts.at,
    )?;
    Ok(())
}

/// All of it: the runs that it wakes are listed anew.
pub fn attend_left(
    parts: &mut Parts,
    alloc: Global,
    journal: &Segment<'_>,
    entity: &EntityId,
    text: &Word,
    attributes: &Many<(Word, Value)>,
) -> Result<(), AllocError>
    requires { EnteredLeft journal.now parts.old entity.now text.now attributes.now }
    ensures attached { OnOk result (attached parts.new.triggers ≡ without_owners parts.new.waits.fresh (attached parts.old.triggers)) }
    ensures ended { OnOk result ((serial : ℕ) → EndsGrow parts.old.waits parts.new.waits serial) }
    ensures fired { [] ≡ fired_lem journal.now (length journal.now - 1) }
    ensures going { OnOk result ((rs : Records) → RunsBefore journal.now rs parts.old.waits parts.old.delays parts.old.frames.items parts.old.ready.pairs.items parts.old.calls
        → Going nobody journal.now rs parts.new) }
    ensures rested { OnOk result (parts.new.rested ≡ parts.old.rested) }
{
    note_left(parts, alloc, journal, entity, text, attributes)?;
    wake_line(parts, alloc, journal)?;
    Ok(())
}
