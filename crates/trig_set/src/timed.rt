//! What event triggers give and fire with for the events of helpers.
ghost use Rattle.std.specs.Prelude.{◌≡◌, ◌&&◌, ◌++◌, ◌∷◌, [], Some, None, IfOk, OnOk, codes, filter_map, map, nat_lt, option_map, slice_get, take, if◌then◌else◌};
ghost use Rattle.std.specs.List.{cons_option};
ghost use Rattle.std.specs.Option.{option_copied, option_map_or};
ghost use Rattle.ha_journal.specs.Helpers.{event_for};
ghost use Rattle.ha_sight.specs.Rules.{is_event};
ghost use Rattle.trig_set.specs.Timed as timed;

use crate::event::is_named;
use crate::events::Events;
use crate::scene::Scene;
use ha_config::{Trigger, TriggerRule};
use ha_journal::{BusEvent, Firing};
use ha_sight::{Env, TriggerData};
use ha_value::{EntityId, Many, Plain};
use std::alloc::{AllocError, Global};

/// Whether the event is of one of the rule's kinds, and has each of its pairs.
fn names_event(rule: &TriggerRule, event: &BusEvent) -> bool
    ensures { result ≡ timed.names_event rule.now event.now }
{
    match rule {
        TriggerRule::Event { kinds, pairs } => is_named(
            kinds.as_slice(),
            pairs.as_slice(),
            &event.kind,
            event.pairs.as_slice(),
        ),
        TriggerRule::State { .. }
        | TriggerRule::Numeric { .. }
        | TriggerRule::Time(_)
        | TriggerRule::Pattern { .. }
        | TriggerRule::Template(_)
        | TriggerRule::Start => false,
    }
}

/// What an event trigger gives with this event, if it names it.
fn given_with(
    alloc: Global,
    trigger: &Trigger,
    event: &BusEvent,
) -> Result<Option<TriggerData>, AllocError>
    ensures { IfOk result (λ v. v ≡ timed.given_with trigger.now event.now) }
{
    if names_event(&trigger.rule, event) {
        Ok(Some(TriggerData::of_event(alloc, trigger, &event.kind, &event.pairs)?))
    } else {
        Ok(None)
    }
}

/// The first of these events that is of nobody. Those of helpers are none.
fn of_nobody(events: &[BusEvent]) -> Option<&BusEvent>
    ensures { option_copied result ≡ event_for None events.now }
{
    events.iter().find(|event| event.entity.is_none())
}

/// The first of these events that is of the entity, or of nobody.
fn event_for<'a>(events: &'a Events<'_>, entity: Option<&EntityId>) -> Option<&'a BusEvent>
    ensures { option_copied result ≡ event_for (option_copied entity.entry) events.now }
{
    match entity {
        Some(entity) => events.first_of(entity),
        None => of_nobody(events.as_slice()),
    }
}

/// What an event trigger gives with the first of these events that is of the entity, if it names it.
pub fn given_for(
    alloc: Global,
    trigger: &Trigger,
    events: &Events<'_>,
    entity: Option<&EntityId>,
) -> Result<Option<TriggerData>, AllocError>
    ensures { IfOk result (λ v. v ≡ timed.given_for trigger.now events.now (option_copied entity.entry)) }
{
    match event_for(events, entity) {
        Some(event) => given_with(alloc, trigger, event),
        None => Ok(None),
    }
}

/// The firing of a trigger with these variables.
fn firing(
    alloc: Global,
    owner: u64,
    index: u32,
    entity: &Option<EntityId>,
    value: TriggerData,
) -> Result<Firing, AllocError>
    ensures { IfOk result (λ f. f ≡ timed.timed_firing owner index entity.now value) }
{
    let entity = entity.copy(alloc)?;
    Ok(Firing {
        owner,
        trigger: index,
        entity,
        env: Env::of_trigger(alloc, value),
    })
}

/// Appends the firing of a trigger with these variables, if it has some.
fn push_given(
    alloc: Global,
    owner: u64,
    index: u32,
    entity: &Option<EntityId>,
    given: Option<TriggerData>,
    fired: &mut Many<Firing>,
) -> Result<(), AllocError>
    ensures { OnOk result (fired.new ≡ fired.old ++ cons_option (option_map (timed.timed_firing owner index entity.now) given) []) }
{
    let Some(value) = given else {
        return Ok(());
    };
    fired.push(firing(alloc, owner, index, entity, value)?)?;
    Ok(())
}

/// Appends the firing of a trigger for the entity of an event.
fn push_for(
    alloc: Global,
    owner: u64,
    index: u32,
    trigger: &Trigger,
    events: &Events<'_>,
    entity: &Option<EntityId>,
    fired: &mut Many<Firing>,
) -> Result<(), AllocError>
    ensures { OnOk result (fired.new ≡ fired.old ++ cons_option (timed.timed_for owner index trigger.now events.now entity.now) []) }
{
    let given = given_for(alloc, trigger, events, entity.as_ref())?;
    push_given(alloc, owner, index, entity, given, fired)
}

/// Appends the firings of a trigger for each of these events, in their order.
fn push_each(
    alloc: Global,
    owner: u64,
    index: u32,
    trigger: &Trigger,
    events: &Events<'_>,
    fired: &mut Many<Firing>,
) -> Result<(), AllocError>
    ensures { OnOk result (fired.new ≡ fired.old ++ timed.timed_by owner index trigger.now events.now) }
{
    let list = events.as_slice();
    for at in 0..list.len() {
        push_for(
            alloc,
            owner,
            index,
            trigger,
            events,
            &list[at].entity,
            fired,
        )?;
    }
    Ok(())
}

/// Whether it is an event trigger.
fn is_event(rule: &TriggerRule) -> bool
    ensures { result ≡ is_event rule.now }
{
    match rule {
        TriggerRule::Event { .. } => true,
        TriggerRule::State { .. }
        | TriggerRule::Numeric { .. }
        | TriggerRule::Time(_)
        | TriggerRule::Pattern { .. }
        | TriggerRule::Template(_)
        | TriggerRule::Start => false,
    }
}

/// The same, of an event trigger that was attached before the entry; of any other, nothing.
fn push_of(
    alloc: Global,
    scene: &Scene<'_>,
    owner: u64,
    since: u64,
    index: u32,
    trigger: &Trigger,
    fired: &mut Many<Firing>,
) -> Result<(), AllocError>
    ensures { OnOk result (fired.new ≡ fired.old ++ (if is_event trigger.now.rule && nat_lt since scene.now.place then timed.timed_by owner index trigger.now scene.now.events.now else [])) }
{
    if is_event(&trigger.rule) && since < scene.place {
        push_each(alloc, owner, index, trigger, scene.events, fired)
    } else {
        Ok(())
    }
}

/// Appends the firings of the trigger of this index for the entry's events of helpers.
pub fn push_timed(
    alloc: Global,
    scene: &Scene<'_>,
    owner: u64,
    since: u64,
    triggers: &Many<Trigger>,
    index: u32,
    fired: &mut Many<Firing>,
) -> Result<(), AllocError>
    ensures { OnOk result (fired.new ≡ fired.old ++ option_map_or (timed.timed_of (record { owner = owner; triggers = triggers.now; since = since }) scene.now.place scene.now.events.now index) (slice_get triggers.now index) []) }
{
    match triggers.get(index as usize) {
        Some(trigger) => push_of(alloc, scene, owner, since, index, trigger, fired),
        None => Ok(()),
    }
}
