//! Whether an entry moves a trigger, and with which variables.
ghost use Rattle.std.specs.Prelude.{◌≡◌, ◌≤◌, ◌<◌, ℕ, ◌&&◌, ◌∷◌, ◌++◌, [], codes, not, IfOk, MatchOption, Some, None, Bool, true, false, length, nat_lt, suc, is_none, is_some, if◌then◌else◌};
ghost use Rattle.std.specs.Option.{option_copied, option_map_or};
ghost use Rattle.ha_config.specs.Numbers.{in_bounds as in_bounds_lem};
ghost use Rattle.ha_clock.specs.Local.{last_moment};
ghost use Rattle.ha_value.specs.declared.value.Value.TheVariants.{Pairs as Map};
ghost use Rattle.ha_journal.specs.Entries.{opens_segment, is_moment as is_moment_lem};
ghost use Rattle.ha_config.specs.Words.{Text};
ghost use Rattle.ha_journal.specs.Journal.{Journal, more};
ghost use Rattle.ha_journal.specs.Moves.{sight, report_number, latest_number, looks};
ghost use Rattle.ha_sight.specs.Rules.{starts, head_pairs, state_value, text_or_null, number_or_null, passed, is_numeric, is_event, is_state, given as given_lem};
ghost use Rattle.ha_value.specs.Ids.{entity_text};
ghost use Rattle.ha_sight.specs.Sight.{Sight};
ghost use Rattle.trig_state.specs.States.{rule_moves};
ghost use Rattle.trig_set.specs.Kept.{is_true, holds_well};
ghost use Rattle.ha_past.specs.Looks.{moves_with};
ghost use Rattle.trig_set.specs.Scenes.{Shows};
ghost use Rattle.trig_set.specs.Timed.{event_seen};

use crate::attached::is_moment;
use crate::event::{data_in, is_named, kind_in};
use crate::moved::{boots, is_within, opens, reported_number, shift_of};
use crate::scene::{Scene, Shift};
use crate::timed::given_for;
use ha_config::{Trigger, TriggerRule};
use ha_journal::Entry;
use ha_sight::TriggerData;
use ha_value::{EntityId, Many, Num, Value, Word};
use std::alloc::{AllocError, Global};
use time_match::passed;
use trig_state::state_moves;

/// At a Boot start triggers move, and no others.
pub fn started(
    alloc: Global,
    trigger: &Trigger,
    entity: Option<&EntityId>,
) -> Result<Option<TriggerData>, AllocError>
    ensures { IfOk result (λ v. v ≡ (if starts trigger.now.rule && is_none (option_copied entity.entry) then Some (Map (head_pairs (codes "homeassistant") trigger.now)) else None)) }
{
    match (&trigger.rule, entity) {
        (TriggerRule::Start, None) => Ok(Some(TriggerData::bare(alloc, "homeassistant", trigger)?)),
        _ => Ok(None),
    }
}

/// A template trigger moves where its template became true.
fn of_template(
    alloc: Global,
    trigger: &Trigger,
    is: bool,
    was: bool,
) -> Result<Option<TriggerData>, AllocError>
    ensures { IfOk result (λ v. v ≡ (if is && not was then Some (Map (head_pairs (codes "template") trigger.now)) else None)) }
{
    if is && !was {
        Ok(Some(TriggerData::bare(alloc, "template", trigger)?))
    } else {
        Ok(None)
    }
}

/// A trigger on times moves where the moment passes a second that it names.
fn of_time(
    alloc: Global,
    scene: &Scene<'_>,
    trigger: &Trigger,
    platform: &str,
) -> Result<Option<TriggerData>, AllocError>
    requires { scene.now.to ≤ last_moment }
    ensures { IfOk result (λ v. (zone : Text) → MatchOption (option_copied scene.now.zone) ⊥ (λ z. z ≡ zone)
        → v ≡ (if is_moment_lem scene.now.entry.now && passed trigger.now.rule zone scene.now.from scene.now.to then Some (Map (head_pairs platform.now trigger.now)) else None)) }
{
    let Some(zone) = scene.zone else {
        return Ok(None);
    };
    if is_moment(scene.entry) && passed(&trigger.rule, zone, scene.from, scene.to) {
        Ok(Some(TriggerData::bare(alloc, platform, trigger)?))
    } else {
        Ok(None)
    }
}

/// A state trigger moves where its rule holds on the states before and after.
fn of_state(
    alloc: Global,
    scene: &Scene<'_>,
    trigger: &Trigger,
    entity: &EntityId,
) -> Result<Option<TriggerData>, AllocError>
    requires { is_state trigger.now.rule ≡ true }
    ensures { IfOk result (λ v. (j : Journal) (since : ℕ) → Shows scene.now j since → nat_lt since (length j) ≡ true
        → v ≡ (if looks (sight j (length j)) (sight (more j scene.now.entry.now) (suc (length j))) j trigger.now.rule (is_some trigger.now.hold) (Some entity.now) scene.now.entry.now
        then Some (given_lem (sight j (length j)) (sight (more j scene.now.entry.now) (suc (length j))) (event_seen j scene.now.entry.now (Some entity.now)) trigger.now (Some entity.now)) else None)) }
{
    let TriggerRule::State { attribute, .. } = &trigger.rule else {
        unreachable!()
    };
    let Some(shift) = shift_of(scene.shifts, entity) else {
        return Ok(None);
    };
    of_shift(alloc, trigger, attribute, entity, shift)
}

/// The same, on the states of an entity that is listed.
fn of_shift(
    alloc: Global,
    trigger: &Trigger,
    attribute: &Option<Word>,
    entity: &EntityId,
    shift: &Shift,
) -> Result<Option<TriggerData>, AllocError>
    requires { is_state trigger.now.rule ≡ true }
    ensures { IfOk result (λ v. v ≡ (if rule_moves trigger.now.rule (is_some trigger.now.hold) shift.now.old shift.now.new
        then Some (Map (head_pairs (codes "state") trigger.now ++ ((codes "entity_id", Value.Text (entity_text entity.now)) ∷ (codes "from_state", state_value entity.now shift.now.old) ∷ (codes "to_state", state_value entity.now shift.now.new) ∷ (codes "attribute", text_or_null attribute.now) ∷ []))) else None)) }
{
    let held = trigger.hold.is_some();
    if !state_moves(
        alloc,
        &trigger.rule,
        held,
        shift.old.as_ref(),
        shift.new.as_ref(),
    )? {
        return Ok(None);
    }
    Ok(Some(TriggerData::of_state(
        alloc,
        trigger,
        attribute,
        entity,
        shift.old.as_ref(),
        shift.new.as_ref(),
    )?))
}

/// A numeric trigger moves where the report's number is in the bounds and the latest before it was not.
fn of_number(
    alloc: Global,
    scene: &Scene<'_>,
    trigger: &Trigger,
    entity: &EntityId,
) -> Result<Option<TriggerData>, AllocError>
    requires { is_numeric trigger.now.rule ≡ true }
    ensures { IfOk result (λ v. (j : Journal) (since : ℕ) → Shows scene.now j since → nat_lt since (length j) ≡ true
        → v ≡ (if looks (sight j (length j)) (sight (more j scene.now.entry.now) (suc (length j))) j trigger.now.rule (is_some trigger.now.hold) (Some entity.now) scene.now.entry.now
        then Some (given_lem (sight j (length j)) (sight (more j scene.now.entry.now) (suc (length j))) (event_seen j scene.now.entry.now (Some entity.now)) trigger.now (Some entity.now)) else None)) }
{
    let TriggerRule::Numeric {
        attribute,
        above,
        below,
        ..
    } = &trigger.rule
    else {
        unreachable!()
    };
    let Some(shift) = shift_of(scene.shifts, entity) else {
        return Ok(None);
    };
    let moves = crosses(scene, entity, attribute.as_ref(), *above, *below);
    of_crossing(alloc, trigger, *above, *below, entity, shift, moves)
}

/// Whether the entry reports a number in the bounds, and the latest before it was not.
fn crosses(
    scene: &Scene<'_>,
    entity: &EntityId,
    attribute: Option<&Word>,
    above: Option<Num>,
    below: Option<Num>,
) -> bool
    ensures { (j : Journal) (since : ℕ) → Shows scene.now j since
        → result ≡ (option_map_or (in_bounds_lem above below) (report_number entity.now (option_copied attribute.entry) scene.now.entry.now) false && not (option_map_or (in_bounds_lem above below) (latest_number entity.now (option_copied attribute.entry) j) false)) }
{
    let reported = reported_number(scene.entry, entity, attribute);
    let latest = scene.numbers.latest(entity, attribute);
    is_within(above, below, reported) && !is_within(above, below, latest)
}

/// What a numeric trigger gives where it moves, by the states of its entity.
fn of_crossing(
    alloc: Global,
    trigger: &Trigger,
    above: Option<Num>,
    below: Option<Num>,
    entity: &EntityId,
    shift: &Shift,
    crosses: bool,
) -> Result<Option<TriggerData>, AllocError>
    ensures { IfOk result (λ v. v ≡ (if crosses
        then Some (Map (head_pairs (codes "numeric_state") trigger.now ++ ((codes "entity_id", Value.Text (entity_text entity.now)) ∷ (codes "from_state", state_value entity.now shift.now.old) ∷ (codes "to_state", state_value entity.now shift.now.new) ∷ (codes "above", number_or_null above) ∷ (codes "below", number_or_null below) ∷ []))) else None)) }
{
    if !crosses {
        return Ok(None);
    }
    Ok(Some(TriggerData::of_number(
        alloc,
        trigger,
        above,
        below,
        entity,
        shift.old.as_ref(),
        shift.new.as_ref(),
    )?))
}

/// An event trigger moves where the entry is an event of one of its kinds that has each of its pairs.
fn of_event(
    alloc: Global,
    entry: &Entry,
    trigger: &Trigger,
) -> Result<Option<TriggerData>, AllocError>
    requires { is_event trigger.now.rule ≡ true }
    ensures { IfOk result (λ v. (b a : Sight) (j : Journal)
        → v ≡ (if looks b a j trigger.now.rule (is_some trigger.now.hold) None entry.now then Some (given_lem b a (event_seen j entry.now None) trigger.now None) else None)) }
{
    let TriggerRule::Event { kinds, pairs } = &trigger.rule else {
        unreachable!()
    };
    let Some(kind) = kind_in(entry) else {
        return Ok(None);
    };
    let Some(fields) = data_in(entry) else {
        return Ok(None);
    };
    let named = is_named(kinds.as_slice(), pairs.as_slice(), kind, fields.as_slice());
    of_named(alloc, trigger, kind, fields, named)
}

/// What an event trigger gives where it moves.
fn of_named(
    alloc: Global,
    trigger: &Trigger,
    kind: &Word,
    fields: &Many<(Word, Value)>,
    named: bool,
) -> Result<Option<TriggerData>, AllocError>
    ensures { IfOk result (λ v. v ≡ (if named
        then Some (Map (head_pairs (codes "event") trigger.now ++ ((codes "event", Map ((codes "event_type", Value.Text kind.now) ∷ (codes "data", Map fields.now) ∷ [])) ∷ []))) else None)) }
{
    if !named {
        return Ok(None);
    }
    Ok(Some(TriggerData::of_event(alloc, trigger, kind, fields)?))
}

/// Elsewhere a trigger that was attached before moves where its rule holds by what is seen before the entry and after it.
fn ruled(
    alloc: Global,
    scene: &Scene<'_>,
    trigger: &Trigger,
    is: bool,
    was: bool,
    entity: Option<&EntityId>,
) -> Result<Option<TriggerData>, AllocError>
    requires { scene.now.to ≤ last_moment }
    ensures { IfOk result (λ v. (j : Journal) (since : ℕ) → Shows scene.now j since → nat_lt since (length j) ≡ true → holds_well trigger.now
        → is ≡ is_true (sight (more j scene.now.entry.now) (length (more j scene.now.entry.now))) trigger.now.rule
        → was ≡ is_true (sight j (length j)) trigger.now.rule
        → v ≡ (if looks (sight j (length j)) (sight (more j scene.now.entry.now) (suc (length j))) j trigger.now.rule (is_some trigger.now.hold) (option_copied entity.entry) scene.now.entry.now
        then Some (given_lem (sight j (length j)) (sight (more j scene.now.entry.now) (suc (length j))) (event_seen j scene.now.entry.now (option_copied entity.entry)) trigger.now (option_copied entity.entry)) else None)) }
{
    match &trigger.rule {
        TriggerRule::State { .. } => match entity {
            Some(entity) => of_state(alloc, scene, trigger, entity),
            None => Ok(None),
        },
        TriggerRule::Numeric { .. } => match entity {
            Some(entity) => of_number(alloc, scene, trigger, entity),
            None => Ok(None),
        },
        TriggerRule::Event { .. } => match entity {
            Some(entity) => given_for(alloc, trigger, scene.events, Some(entity)),
            None => of_event(alloc, scene.entry, trigger),
        },
        TriggerRule::Time(_) => match entity {
            Some(_) => Ok(None),
            None => of_time(alloc, scene, trigger, "time"),
        },
        TriggerRule::Pattern { .. } => match entity {
            Some(_) => Ok(None),
            None => of_time(alloc, scene, trigger, "time_pattern"),
        },
        TriggerRule::Template(_) => match entity {
            Some(_) => Ok(None),
            None => of_template(alloc, trigger, is, was),
        },
        TriggerRule::Start => Ok(None),
    }
}

/// The variables with which the entry moves a trigger, after its since or as a start trigger; none where it does not, and so at a Restart.
/// `is` and `was` say whether the trigger's template is true after the entry and was before.
pub fn given(
    alloc: Global,
    scene: &Scene<'_>,
    trigger: &Trigger,
    since: u64,
    is: bool,
    was: bool,
    entity: Option<&EntityId>,
) -> Result<Option<TriggerData>, AllocError>
    requires { scene.now.to ≤ last_moment }
    ensures { IfOk result (λ v. (j : Journal) → Shows scene.now j since → holds_well trigger.now
        → is ≡ is_true (sight (more j scene.now.entry.now) (length (more j scene.now.entry.now))) trigger.now.rule
        → (nat_lt since (length j) ≡ true → was ≡ is_true (sight j (length j)) trigger.now.rule)
        → v ≡ moves_with j scene.now.entry.now trigger.now (option_copied entity.entry) since) }
{
    if boots(scene.entry) {
        return started(alloc, trigger, entity);
    }
    if opens(scene.entry) {
        return Ok(None);
    }
    if scene.place <= since {
        return Ok(None);
    }
    ruled(alloc, scene, trigger, is, was, entity)
}
