//! The spots of triggers that were just attached.
ghost use Rattle.std.specs.Prelude.{◌≡◌, ◌≤◌, ◌<◌, ◌+◌, ◌++◌, ◌∷◌, [], ℕ, List, Option, IfOk, OnOk, Some, None, length, map, take, true, if◌then◌else◌};
ghost use Rattle.std.specs.List.{list_any};
ghost use Rattle.ha_value.specs.declared.value.EntityId.{EntityId as Entity};
ghost use Rattle.event_bus.specs.Subjects.{Subject, concerns, knows};
ghost use Rattle.ha_config.specs.Words.{same_entity};
ghost use Rattle.ha_sight.specs.Rules.{each_once, entities_of};
ghost use Rattle.trig_set.specs.Blank.{are_blank, entity_places};
ghost use Rattle.trig_set.specs.Kept.{place_of, places_of};

use crate::many_spots::FEW;
use crate::spot::Spot;
use event_bus::Index;
use ha_config::{Trigger, TriggerRule, same_id};
use ha_value::{EntityId, Plain};
use std::alloc::{AllocError, Global};

/// One more spot, with nothing kept.
fn add(trigger: u32, entity: Option<EntityId>, spots: &mut Vec<Spot>) -> Result<(), AllocError>
    ensures places { OnOk result (map place_of spots.new.items ≡ map place_of spots.old.items ++ (trigger, entity) ∷ []) }
    ensures blank { OnOk result (are_blank spots.old.items ≡ true → are_blank spots.new.items ≡ true) }
{
    spots.push(Spot {
        trigger,
        entity,
        hold: None,
        fired: None,
        was: false,
    })?;
    Ok(())
}

/// Whether an entity is among the first of a list.
fn is_among(entities: &[EntityId], first: usize, entity: &EntityId) -> bool
    requires { first ≤ length entities.now }
    ensures { result ≡ list_any (λ e. same_entity e entity.now) (take first entities.now) }
{
    entities[..first].iter().any(|other| same_id(other, entity))
}

/// A spot of the entity at a place of a list, if none of those before is the same.
fn add_at(
    alloc: Global,
    trigger: u32,
    entities: &[EntityId],
    place: usize,
    spots: &mut Vec<Spot>,
) -> Result<(), AllocError>
    requires { place < length entities.now }
    ensures places { OnOk result ((front : List (ℕ × Option Entity)) → map place_of spots.old.items ≡ front ++ entity_places trigger (each_once (take place entities.now))
        → map place_of spots.new.items ≡ front ++ entity_places trigger (each_once (take (place + 1) entities.now))) }
    ensures blank { OnOk result (are_blank spots.old.items ≡ true → are_blank spots.new.items ≡ true) }
{
    let entity = &entities[place];
    if is_among(entities, place, entity) {
        return Ok(());
    }
    add(trigger, Some(entity.copy(alloc)?), spots)
}

/// Whether an entity was put into an index, under the number 0.
fn is_seen(seen: &Index, entity: &EntityId) -> bool
    ensures { result ≡ knows seen.now (Subject.Entity entity.now) 0 }
{
    match seen.of_entity(entity) {
        Some(numbers) => numbers.contains(&0),
        None => false,
    }
}

/// The same as `add_at`, where the index has those before, and then has this one too.
fn add_unseen(
    alloc: Global,
    trigger: u32,
    rule: &TriggerRule,
    entities: &[EntityId],
    place: usize,
    seen: &mut Index,
    spots: &mut Vec<Spot>,
) -> Result<(), AllocError>
    requires within { place < length entities.now }
    requires ruled { (e f : Entity) → concerns rule.now (Some e) (Subject.Entity f) ≡ same_entity e f }
    requires seen { (e : Entity) → knows seen.old (Subject.Entity e) 0 ≡ list_any (λ x. same_entity x e) (take place entities.now) }
    ensures seen { OnOk result ((e : Entity) → knows seen.new (Subject.Entity e) 0 ≡ list_any (λ x. same_entity x e) (take (place + 1) entities.now)) }
    ensures places { OnOk result ((front : List (ℕ × Option Entity)) → map place_of spots.old.items ≡ front ++ entity_places trigger (each_once (take place entities.now))
        → map place_of spots.new.items ≡ front ++ entity_places trigger (each_once (take (place + 1) entities.now))) }
    ensures blank { OnOk result (are_blank spots.old.items ≡ true → are_blank spots.new.items ≡ true) }
{
    let entity = &entities[place];
    let known = is_seen(seen, entity);
    seen.put(alloc, rule, Some(entity), 0)?;
    if known {
        return Ok(());
    }
    add(trigger, Some(entity.copy(alloc)?), spots)
}

/// The spots of many entities, each once: an index has those that came, so that each takes one look-up.
fn add_many(
    alloc: Global,
    trigger: u32,
    rule: &TriggerRule,
    entities: &[EntityId],
    spots: &mut Vec<Spot>,
) -> Result<(), AllocError>
    requires { (e f : Entity) → concerns rule.now (Some e) (Subject.Entity f) ≡ same_entity e f }
    ensures places { OnOk result (map place_of spots.new.items ≡ map place_of spots.old.items ++ entity_places trigger (each_once entities.now)) }
    ensures blank { OnOk result (are_blank spots.old.items ≡ true → are_blank spots.new.items ≡ true) }
{
    let mut seen = Index::make(alloc);
    for place in 0..entities.len() {
        add_unseen(alloc, trigger, rule, entities, place, &mut seen, spots)?;
    }
    Ok(())
}

/// The spots of a few entities, each once.
fn add_few(
    alloc: Global,
    trigger: u32,
    entities: &[EntityId],
    spots: &mut Vec<Spot>,
) -> Result<(), AllocError>
    ensures places { OnOk result (map place_of spots.new.items ≡ map place_of spots.old.items ++ entity_places trigger (each_once entities.now)) }
    ensures blank { OnOk result (are_blank spots.old.items ≡ true → are_blank spots.new.items ≡ true) }
{
    for place in 0..entities.len() {
        add_at(alloc, trigger, entities, place, spots)?;
    }
    Ok(())
}

/// The spots of the entities of a rule, each once.
fn add_entities(
    alloc: Global,
    trigger: u32,
    rule: &TriggerRule,
    entities: &[EntityId],
    spots: &mut Vec<Spot>,
) -> Result<(), AllocError>
    requires { (e f : Entity) → concerns rule.now (Some e) (Subject.Entity f) ≡ same_entity e f }
    ensures places { OnOk result (map place_of spots.new.items ≡ map place_of spots.old.items ++ entity_places trigger (each_once entities.now)) }
    ensures blank { OnOk result (are_blank spots.old.items ≡ true → are_blank spots.new.items ≡ true) }
{
    if FEW < entities.len() {
        add_many(alloc, trigger, rule, entities, spots)
    } else {
        add_few(alloc, trigger, entities, spots)
    }
}

/// The spots of a trigger.
fn add_trigger(
    alloc: Global,
    index: u32,
    trigger: &Trigger,
    spots: &mut Vec<Spot>,
) -> Result<(), AllocError>
    ensures places { OnOk result (map place_of spots.new.items ≡ map place_of spots.old.items ++ map (λ e. (index, e)) (entities_of trigger.now.rule)) }
    ensures blank { OnOk result (are_blank spots.old.items ≡ true → are_blank spots.new.items ≡ true) }
{
    match &trigger.rule {
        TriggerRule::State { entities, .. } => {
            add_entities(alloc, index, &trigger.rule, entities.as_slice(), spots)
        }
        TriggerRule::Numeric { entities, .. } => {
            add_entities(alloc, index, &trigger.rule, entities.as_slice(), spots)
        }
        TriggerRule::Event { .. }
        | TriggerRule::Time(_)
        | TriggerRule::Pattern { .. }
        | TriggerRule::Template(_)
        | TriggerRule::Start => add(index, None, spots),
    }
}

/// The spots of triggers, in order.
pub fn add_triggers(
    alloc: Global,
    triggers: &[Trigger],
    spots: &mut Vec<Spot>,
) -> Result<(), AllocError>
    requires { length triggers.now < 4_294_967_296 }
    ensures places { OnOk result (map place_of spots.new.items ≡ map place_of spots.old.items ++ places_of [] triggers.now) }
    ensures blank { OnOk result (are_blank spots.old.items ≡ true → are_blank spots.new.items ≡ true) }
{
    for place in 0..triggers.len() {
        add_trigger(alloc, place as u32, &triggers[place], spots)?;
    }
    Ok(())
}
