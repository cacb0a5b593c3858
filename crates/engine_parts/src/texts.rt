//! The texts that an entry gives helpers: their states, which are listed as they were, and the events.
ghost use Rattle.std.specs.Prelude.{◌≡◌, ◌∷◌, ◌++◌, [], List, Option, Some, IfOk, OnOk, filter_map, is_some, map};
ghost use Rattle.std.specs.List.{cons_option};
ghost use Rattle.ha_value.specs.declared.value.EntityId.{EntityId as Id};
ghost use Rattle.ha_journal.specs.Helpers.{event_of_change, timer_event, timer_pairs};
ghost use Rattle.ha_sight.specs.declared.helped.HelperChange.{HelperChange as Change};
ghost use Rattle.ha_sight.specs.declared.state.StateObject.{StateObject as State};
ghost use Rattle.ha_sight.specs.StateStep.{next_object};
ghost use Rattle.state_table.specs.Table.{ChangesAt, at as state_at};
ghost use Rattle.entity_places.specs.Placed.{ArePlaced, place_in, place_or};
ghost use Rattle.engine_parts.specs.Texts.{AreTold, change_is_of, first_change, idle_change};

use entity_places::{FEW, Places};
use ha_clock::Moment;
use ha_config::Helper;
use ha_journal::BusEvent;
use ha_sight::HelperChange;
use ha_value::{EntityId, Many, Plain, Value, Word, push_text};
use helper_set::first_text;
use state_table::StateTable;
use std::alloc::{AllocError, Global};
use trig_set::Before;

/// The state of a helper is that of its new text; the one that it had is listed.
fn tell(
    states: &mut StateTable,
    alloc: Global,
    change: &HelperChange,
    now: Moment,
    before: &mut Before,
) -> Result<(), AllocError>
    ensures changes { OnOk result (ChangesAt states.old states.new change.now.entity (Some (next_object (state_at states.old change.now.entity) change.now.text [] now))) }
    ensures listed { OnOk result (before.new ≡ before.old ++ (change.now.entity, state_at states.old change.now.entity) ∷ []) }
{
    let none = Many::make(alloc);
    let old = states.report_over(alloc, &change.entity, &change.text, &none, now)?;
    let entity = change.entity.copy(alloc)?;
    before.push(alloc, (entity, old))?;
    Ok(())
}

/// The same, but for a helper that is listed already.
fn tell_first(
    states: &mut StateTable,
    alloc: Global,
    change: &HelperChange,
    now: Moment,
    before: &mut Before,
) -> Result<(), AllocError>
    ensures { OnOk result ((old : Id → Option State) (front : List Change) → AreTold now old front states.old before.old → AreTold now old (front ++ change.now ∷ []) states.new before.new) }
{
    if before.lists(&change.entity) {
        return Ok(());
    }
    tell(states, alloc, change, now, before)
}

/// The same, of all changes, in their order.
fn tell_few(
    states: &mut StateTable,
    alloc: Global,
    changes: &[HelperChange],
    now: Moment,
) -> Result<Before, AllocError>
    ensures { IfOk result (λ before. AreTold now (state_at states.old) changes.now states.new before) }
{
    let mut before = Before::make(alloc);
    for place in 0..changes.len() {
        tell_first(states, alloc, &changes[place], now, &mut before)?;
    }
    Ok(before)
}

/// Whether an entity has a place in the table.
fn is_placed(places: &Places, entity: &EntityId) -> bool
    ensures { result ≡ is_some (place_in places.now entity.now) }
{
    places.place_of(entity).is_some()
}

/// What `tell` does, but for a helper of which the table has a change already.
fn tell_new(
    states: &mut StateTable,
    alloc: Global,
    change: &HelperChange,
    now: Moment,
    places: &Places,
    before: &mut Before,
) -> Result<(), AllocError>
    ensures { OnOk result ((old : Id → Option State) (front : List Change) → AreTold now old front states.old before.old → ArePlaced places.now change_is_of front
        → AreTold now old (front ++ change.now ∷ []) states.new before.new) }
{
    if is_placed(places, &change.entity) {
        return Ok(());
    }
    tell(states, alloc, change, now, before)
}

/// The same; the table then has the change at its place.
fn tell_placed(
    states: &mut StateTable,
    alloc: Global,
    change: &HelperChange,
    now: Moment,
    place: usize,
    places: &mut Places,
    before: &mut Before,
) -> Result<(), AllocError>
    ensures told { OnOk result ((old : Id → Option State) (front : List Change) → AreTold now old front states.old before.old → ArePlaced places.old change_is_of front
        → AreTold now old (front ++ change.now ∷ []) states.new before.new) }
    ensures placed { OnOk result ((e : Id) → place_in places.new e ≡ place_or place (change_is_of e change.now) (place_in places.old e)) }
{
    tell_new(states, alloc, change, now, places, before)?;
    places.put(alloc, &change.entity, place)?;
    Ok(())
}

/// The same, of all changes, with a table of their places.
fn tell_many(
    states: &mut StateTable,
    alloc: Global,
    changes: &[HelperChange],
    now: Moment,
) -> Result<Before, AllocError>
    ensures { IfOk result (λ before. AreTold now (state_at states.old) changes.now states.new before) }
{
    let mut before = Before::make(alloc);
    let mut places = Places::make(alloc);
    for place in 0..changes.len() {
        tell_placed(
            states,
            alloc,
            &changes[place],
            now,
            place,
            &mut places,
            &mut before,
        )?;
    }
    Ok(before)
}

/// The states of helpers are those of these changes, in their order; those that they had are listed. Of several changes of one helper the
/// first counts.
pub fn tell_all(
    states: &mut StateTable,
    alloc: Global,
    changes: &[HelperChange],
    now: Moment,
) -> Result<Before, AllocError>
    ensures { IfOk result (λ before. AreTold now (state_at states.old) changes.now states.new before) }
{
    if changes.len() <= FEW {
        return tell_few(states, alloc, changes, now);
    }
    tell_many(states, alloc, changes, now)
}

/// The data of a timer's event.
fn event_pairs(alloc: Global, entity: &EntityId) -> Result<Many<(Word, Value)>, AllocError>
    ensures { IfOk result (λ ps. ps ≡ timer_pairs entity.now) }
{
    let mut pairs = Many::with_room(alloc, 1)?;
    push_text(alloc, &mut pairs, "entity_id", entity.text())?;
    Ok(pairs)
}

/// An event of a timer.
fn event(alloc: Global, kind: &Word, entity: &EntityId) -> Result<BusEvent, AllocError>
    ensures { IfOk result (λ v. v ≡ timer_event kind.now entity.now) }
{
    let pairs = event_pairs(alloc, entity)?;
    let own = entity.copy(alloc)?;
    Ok(BusEvent {
        kind: kind.copy(alloc)?,
        pairs,
        entity: Some(own),
    })
}

/// Appends the event of a change, if it gives one.
fn push_event(
    alloc: Global,
    change: &HelperChange,
    events: &mut Many<BusEvent>,
) -> Result<(), AllocError>
    ensures { OnOk result (events.new ≡ events.old ++ cons_option (event_of_change change.now) []) }
{
    let Some(kind) = &change.event else {
        return Ok(());
    };
    events.push(event(alloc, kind, &change.entity)?)?;
    Ok(())
}

/// The events of these changes, in order.
pub fn events_of(alloc: Global, changes: &[HelperChange]) -> Result<Many<BusEvent>, AllocError>
    ensures { IfOk result (λ events. events ≡ filter_map event_of_change changes.now) }
{
    let mut events = Many::make(alloc);
    for place in 0..changes.len() {
        push_event(alloc, &changes[place], &mut events)?;
    }
    Ok(events)
}

/// The change of a timer that finishes.
fn idle(alloc: Global, entity: &EntityId) -> Result<HelperChange, AllocError>
    ensures { IfOk result (λ c. c ≡ idle_change entity.now) }
{
    let own = entity.copy(alloc)?;
    Ok(HelperChange {
        entity: own,
        text: Word::from_str(alloc, "idle")?,
        span: None,
        event: Some(Word::from_str(alloc, "timer.finished")?),
    })
}

/// One more.
fn push_idle(
    alloc: Global,
    entity: &EntityId,
    changes: &mut Many<HelperChange>,
) -> Result<(), AllocError>
    ensures { OnOk result (changes.new ≡ changes.old ++ idle_change entity.now ∷ []) }
{
    changes.push(idle(alloc, entity)?)?;
    Ok(())
}

/// The changes of the timers that finish.
pub fn idle_all(alloc: Global, entities: &[EntityId]) -> Result<Many<HelperChange>, AllocError>
    ensures { IfOk result (λ changes. changes ≡ map idle_change entities.now) }
{
    let mut changes = Many::with_room(alloc, entities.len())?;
    for place in 0..entities.len() {
        push_idle(alloc, &entities[place], &mut changes)?;
    }
    Ok(changes)
}

/// The first text of a helper, as a change.
fn first(alloc: Global, helper: &Helper) -> Result<HelperChange, AllocError>
    ensures { IfOk result (λ c. c ≡ first_change helper.now) }
{
    let own = helper.entity.copy(alloc)?;
    let text = first_text(alloc, &helper.kind)?;
    Ok(HelperChange {
        entity: own,
        text,
        span: None,
        event: None,
    })
}

/// One more.
fn push_first(
    alloc: Global,
    helper: &Helper,
    changes: &mut Many<HelperChange>,
) -> Result<(), AllocError>
    ensures { OnOk result (changes.new ≡ changes.old ++ first_change helper.now ∷ []) }
{
    changes.push(first(alloc, helper)?)?;
    Ok(())
}

/// The first texts of helpers.
pub fn first_all(alloc: Global, helpers: &[Helper]) -> Result<Many<HelperChange>, AllocError>
    ensures { IfOk result (λ changes. changes ≡ map first_change helpers.now) }
{
    let mut changes = Many::with_room(alloc, helpers.len())?;
    for place in 0..helpers.len() {
        push_first(alloc, &helpers[place], &mut changes)?;
    }
    Ok(changes)
}
