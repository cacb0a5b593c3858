//! What a line itself changes: the state of an entity, or Now, with the timers that are over. The answer lists the states that it changes, as
//! they were.
ghost use Rattle.std.specs.Prelude.{◌≡◌, false, max, IfOk, OnOk};
ghost use Rattle.ha_config.specs.declared.command.Cmd as cmd;
ghost use Rattle.ha_journal.specs.Journal.{Journal};
ghost use Rattle.ha_model.specs.Records.{Records};
ghost use Rattle.trig_set.specs.Left.{Leaves};
ghost use Rattle.engine_parts.specs.Stages.{Entered, EnteredLeft, IsOther, Pushed};

use engine_parts::parts::Parts;
use engine_parts::see::{see_gone, see_report};
use engine_parts::texts::{events_of, idle_all, tell_all};
use ha_clock::Moment;
use ha_value::{EntityId, Many, Value, Word};
use std::alloc::{AllocError, Global};
use trig_set::Before;

/// A report.
pub fn enter_report(
    parts: &mut Parts,
    alloc: Global,
    entity: &EntityId,
    text: &Word,
    attributes: &Many<(Word, Value)>,
) -> Result<Before, AllocError>
    ensures entered { IfOk result (λ before. (k : Journal) (rs : Records) → (h : Pushed k rs parts.old) → h.cmd ≡ cmd.Cmd.Report entity.now text.now attributes.now → Entered k parts.new before) }
    ensures rest { OnOk result (parts.new ≡ record parts.old { states = parts.new.states; given = parts.new.given; changed = false }) }
{
    let before = see_report(&mut parts.states, alloc, entity, text, attributes, parts.at)?;
    parts.given = Many::make(alloc);
    parts.changed = false;
    Ok(before)
}

/// A report of an entity that concerns nobody: nobody asks what was before it.
pub fn enter_left(
    parts: &mut Parts,
    alloc: Global,
    entity: &EntityId,
    text: &Word,
    attributes: &Many<(Word, Value)>,
) -> Result<(), AllocError>
    ensures entered { OnOk result ((k : Journal) (rs : Records) → (h : Pushed k rs parts.old) → h.cmd ≡ cmd.Cmd.Report entity.now text.now attributes.now → Leaves parts.old.triggers entity.now
        → EnteredLeft k parts.new entity.now text.now attributes.now) }
    ensures rest { OnOk result (parts.new ≡ record parts.old { states = parts.new.states; given = parts.new.given; changed = false }) }
{
    parts
        .states
        .report(alloc, entity, text, attributes, parts.at)?;
    parts.given = Many::make(alloc);
    parts.changed = false;
    Ok(())
}

/// An entity goes.
pub fn enter_gone(parts: &mut Parts, alloc: Global, entity: &EntityId) -> Result<Before, AllocError>
    ensures entered { IfOk result (λ before. (k : Journal) (rs : Records) → (h : Pushed k rs parts.old) → h.cmd ≡ cmd.Cmd.Gone entity.now → Entered k parts.new before) }
    ensures rest { OnOk result (parts.new ≡ record parts.old { states = parts.new.states; given = parts.new.given; changed = false }) }
{
    let before = see_gone(&mut parts.states, alloc, entity)?;
    parts.given = Many::make(alloc);
    parts.changed = false;
    Ok(before)
}

/// The later of two moments.
fn later(a: Moment, b: Moment) -> Moment
    ensures { result ≡ max a b }
{
    if a < b { b } else { a }
}

/// It is this moment, or later already: the timers that are over are idle.
pub fn enter_moment(parts: &mut Parts, alloc: Global, at: Moment) -> Result<Before, AllocError>
    ensures entered { IfOk result (λ before. (k : Journal) (rs : Records) → (h : Pushed k rs parts.old) → h.cmd ≡ cmd.Cmd.Moment at → Entered k parts.new before) }
    ensures rest { OnOk result (parts.new ≡ record parts.old { at = parts.new.at; states = parts.new.states; helpers = parts.new.helpers; given = parts.new.given; changed = false }) }
{
    let now = later(parts.at, at);
    let finished = parts.helpers.pass(alloc, now)?;
    let ended = finished.as_slice();
    let changes = idle_all(alloc, ended)?;
    let idle = changes.as_slice();
    let before = tell_all(&mut parts.states, alloc, idle, now)?;
    let events = events_of(alloc, idle)?;
    parts.at = now;
    parts.given = events;
    parts.changed = false;
    Ok(before)
}

/// Anything else that changes neither switches nor states: an event, an automation that is asked for, a line that was refused.
pub fn enter_other(parts: &mut Parts, alloc: Global) -> Before
    ensures entered { (k : Journal) (rs : Records) → (h : Pushed k rs parts.old) → IsOther h.cmd → Entered k parts.new result }
    ensures rest { parts.new ≡ record parts.old { given = parts.new.given; changed = false } }
{
    parts.given = Many::make(alloc);
    parts.changed = false;
    Before::make(alloc)
}
