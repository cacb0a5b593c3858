//! What an entry changes of each entity.
ghost use Rattle.std.specs.Prelude.{◌≡◌, ◌∷◌, ◌++◌, [], ℕ, None, Some, Bool, IfOk, OnOk, codes, find, length, option_map, option_and_then, if◌then◌else◌};
ghost use Rattle.std.specs.Option.{option_copied};
ghost use Rattle.ha_sight.specs.Calls.{automation_at};
ghost use Rattle.ha_journal.specs.Entries.{change_of, report_in as report_in_lem};
ghost use Rattle.ha_journal.specs.Journal.{Journal};
ghost use Rattle.ha_sight.specs.Sight.{switch_seen};
ghost use Rattle.ha_config.specs.Words.{Text, Pairs, same_entity};
ghost use Rattle.trig_set.specs.Next.{Listed};
ghost use Rattle.trig_set.specs.Scenes.{AreShifts, face, shifts_in};
ghost use Rattle.trig_set.specs.Shifts.{AreMade, IsMade, IsTold, face_after, face_of_switch, finishes_in, is_automation, next_face, removes};

use crate::attached::is_moment;
use crate::before::Before;
use crate::events::Events;
use crate::scene::{Shift, Shifts};
use ha_clock::Moment;
use ha_config::{Cmd, same_id};
use ha_journal::Entry;
use ha_sight::{Answers, HelperChange, Item, StateObject};
use ha_value::{EntityId, Many, Plain, Value, Word, copy_pairs};
use std::alloc::{AllocError, Global};

/// Whether the entity is of the domain of automations.
fn is_automation(entity: &EntityId) -> bool
    ensures { result ≡ is_automation entity.now }
{
    entity.has_domain("automation")
}

/// Whether the automation of that name is on, if there is one.
fn switch_of<A: Answers>(entity: &EntityId, answers: &A) -> Option<bool>
    ensures { result ≡ option_and_then (switch_seen (A.sight answers.now)) (automation_at (A.sight answers.now).automations entity.now) }
{
    match answers.automation(entity) {
        Some(automation) => Some(answers.is_on(automation)),
        None => None,
    }
}

/// A state with this text and these attributes.
fn state(
    alloc: Global,
    text: &Word,
    attributes: &Many<(Word, Value)>,
    now: Moment,
) -> Result<StateObject, AllocError>
    ensures { IfOk result (λ s. face (Some s) ≡ Some (text.now, attributes.now)) }
{
    Ok(StateObject {
        text: text.copy(alloc)?,
        attributes: copy_pairs(alloc, attributes.as_slice())?,
        changed: now,
        updated: now,
    })
}

/// The state of a switch.
fn switch_state(
    alloc: Global,
    switch: Option<bool>,
    now: Moment,
) -> Result<Option<StateObject>, AllocError>
    ensures { IfOk result (λ s. face s ≡ option_map face_of_switch switch) }
{
    let Some(on) = switch else {
        return Ok(None);
    };
    let text = Word::from_str(alloc, if on { "on" } else { "off" })?;
    Ok(Some(state(alloc, &text, &Many::make(alloc), now)?))
}

/// What the entry reports of the entity, if it does.
fn report_in<'a>(entry: &'a Entry, entity: &EntityId) -> Option<(&'a Word, &'a Many<(Word, Value)>)>
    ensures { option_map {U = Text × Pairs} (λ r. (r.0.now, r.1.now)) result ≡ option_and_then (λ r. if same_entity r.entity entity.now then Some (r.text, r.attributes) else None) (report_in_lem entry.now) }
{
    match entry {
        Entry::Line {
            cmd: Cmd::Report {
                entity: reported,
                text,
                attributes,
            },
            ..
        } if same_id(reported, entity) => Some((text, attributes)),
        _ => None,
    }
}

/// What the entry changes of the helper, if it does.
fn change_in<'a>(entry: &'a Entry, entity: &EntityId) -> Option<&'a HelperChange>
    ensures { option_copied result ≡ change_of entity.now entry.now }
{
    match entry {
        Entry::Step {
            item: Item::Helped(changes),
            ..
        } => change_among(changes.as_slice(), entity),
        _ => None,
    }
}

/// The first of these changes that is of the helper.
fn change_among<'a>(changes: &'a [HelperChange], entity: &EntityId) -> Option<&'a HelperChange>
    ensures { option_copied result ≡ find (λ c. same_entity c.entity entity.now) changes.now }
{
    changes
        .iter()
        .find(|change| same_id(&change.entity, entity))
}

/// Whether the timer finishes with the entry, which gives these events of helpers.
fn finishes_in(events: &Events<'_>, entry: &Entry, entity: &EntityId) -> bool
    ensures { result ≡ finishes_in events.now entry.now entity.now }
{
    is_moment(entry) && events.has(entity)
}

/// A state with this text and no attributes.
fn bare_state(alloc: Global, text: &Word, now: Moment) -> Result<StateObject, AllocError>
    ensures { IfOk result (λ s. face (Some s) ≡ Some (text.now, [])) }
{
    let made = state(alloc, text, &Many::make(alloc), now)?;
    Ok(made)
}

/// Whether the entity is gone with the entry.
fn removes(entry: &Entry, entity: &EntityId) -> bool
    ensures { result ≡ removes entry.now entity.now }
{
    match entry {
        Entry::Line {
            cmd: Cmd::Gone { entity: gone },
            ..
        } => same_id(gone, entity),
        Entry::Line {
            cmd: Cmd::Restart,
            ..
        } => true,
        _ => false,
    }
}

/// The state after the entry of an entity that is no automation.
fn next_state(
    alloc: Global,
    entry: &Entry,
    events: &Events<'_>,
    entity: &EntityId,
    old: &Option<StateObject>,
    now: Moment,
) -> Result<Option<StateObject>, AllocError>
    ensures { IfOk result (λ s. face s ≡ next_face events.now entry.now entity.now (face old.now)) }
{
    if let Some((text, attributes)) = report_in(entry, entity) {
        return Ok(Some(state(alloc, text, attributes, now)?));
    }
    if let Some(change) = change_in(entry, entity) {
        return Ok(Some(bare_state(alloc, &change.text, now)?));
    }
    unreported_state(alloc, entry, events, entity, old, now)
}

/// The same, where the entry neither reports the entity nor changes it as a helper.
fn unreported_state(
    alloc: Global,
    entry: &Entry,
    events: &Events<'_>,
    entity: &EntityId,
    old: &Option<StateObject>,
    now: Moment,
) -> Result<Option<StateObject>, AllocError>
    ensures { IfOk result (λ s. face s ≡ (if finishes_in events.now entry.now entity.now then Some (codes "idle", []) else (if removes entry.now entity.now then None else face old.now))) }
{
    if finishes_in(events, entry, entity) {
        let idle = Word::short(alloc, "idle");
        return Ok(Some(bare_state(alloc, &idle, now)?));
    }
    if removes(entry, entity) {
        return Ok(None);
    }
    old.copy(alloc)
}

/// The state after the entry of an entity that had this one before it.
fn new_state<A: Answers>(
    alloc: Global,
    entry: &Entry,
    events: &Events<'_>,
    entity: &EntityId,
    old: &Option<StateObject>,
    answers: &A,
) -> Result<Option<StateObject>, AllocError>
    ensures { IfOk result (λ s. face s ≡ face_after events.now entry.now (A.sight answers.now) entity.now (face old.now)) }
{
    let now = answers.now();
    if is_automation(entity) {
        switch_state(alloc, switch_of(entity, answers), now)
    } else {
        next_state(alloc, entry, events, entity, old, now)
    }
}

/// What the entry changes of an entity that had this state before it.
fn shift<A: Answers>(
    alloc: Global,
    entry: &Entry,
    events: &Events<'_>,
    listed: &(EntityId, Option<StateObject>),
    answers: &A,
) -> Result<Shift, AllocError>
    ensures { IfOk result (λ c. IsMade events.now entry.now (A.sight answers.now) listed.now c) }
{
    let (entity, old) = listed;
    let new = new_state(alloc, entry, events, entity, old, answers)?;
    Ok(Shift {
        entity: entity.copy(alloc)?,
        old: old.copy(alloc)?,
        new,
    })
}

/// What the entry changes of the only entity that is listed: its new state is put beside the old one.
fn shift_alone<A: Answers>(
    alloc: Global,
    entry: &Entry,
    events: &Events<'_>,
    alone: &mut Shift,
    answers: &A,
) -> Result<(), AllocError>
    ensures { OnOk result ((j : Journal) → IsTold j entry.now ((alone.entry.now.entity, alone.entry.now.old) ∷ []) events.now (A.sight answers.now)
        → AreShifts (alone.exit.now ∷ []) j entry.now) }
{
    let new = new_state(alloc, entry, events, &alone.entity, &alone.old, answers)?;
    alone.new = new;
    Ok(())
}

/// One more change.
fn push_shift<A: Answers>(
    alloc: Global,
    entry: &Entry,
    events: &Events<'_>,
    listed: &(EntityId, Option<StateObject>),
    answers: &A,
    shifts: &mut Many<Shift>,
) -> Result<(), AllocError>
    ensures { OnOk result ((front : Listed) → AreMade events.now entry.now (A.sight answers.now) front shifts.old → AreMade events.now entry.now (A.sight answers.now) (front ++ listed.now ∷ []) shifts.new) }
{
    shifts.push(shift(alloc, entry, events, listed, answers)?)?;
    Ok(())
}

/// What the entry changes of each of the listed entities.
fn shifts_of_several<A: Answers>(
    alloc: Global,
    entry: &Entry,
    events: &Events<'_>,
    before: &Many<(EntityId, Option<StateObject>)>,
    answers: &A,
) -> Result<Many<Shift>, AllocError>
    ensures { IfOk result (λ shifts. (j : Journal) → IsTold j entry.now before.now events.now (A.sight answers.now) → AreShifts shifts j entry.now) }
{
    let mut shifts = Many::with_room(alloc, before.len())?;
    let listed = before.as_slice();
    for place in 0..listed.len() {
        push_shift(alloc, entry, events, &listed[place], answers, &mut shifts)?;
    }
    Ok(shifts)
}

/// The states of the listed entities before and after the entry. After it, an automation has what its switch says; an entity that is
/// reported has what the report says; a helper that is changed has the text of its change; a timer that finishes is idle; an entity that is
/// removed, or any at a Restart, is gone; and any other has the state before.
pub fn shifts_of<A: Answers>(
    alloc: Global,
    entry: &Entry,
    before: Before,
    events: &Events<'_>,
    answers: &A,
) -> Result<Shifts, AllocError>
    ensures { IfOk result (λ shifts. (j : Journal) → IsTold j entry.now before events.now (A.sight answers.now) → AreShifts (shifts_in shifts) j entry.now) }
{
    let Before { alone, several, .. } = before;
    match alone {
        Some(alone) => {
            let mut alone = alone;
            shift_alone(alloc, entry, events, &mut alone, answers)?;
            Ok(Shifts::One(alone))
        }
        None => {
            let shifts = shifts_of_several(alloc, entry, events, &several, answers)?;
            Ok(Shifts::Several(shifts))
        }
    }
}
