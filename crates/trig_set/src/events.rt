//! The events of helpers that an entry gives. Where they are many, a table has the first of each entity.
ghost use Rattle.std.specs.Prelude.{◌≡◌, Some, IfOk, OnOk, find, option_and_then, slice_get};
ghost use Rattle.std.specs.List.{list_any};
ghost use Rattle.std.specs.Option.{option_copied};
ghost use Rattle.ha_value.specs.declared.value.EntityId.{EntityId as Entity};
ghost use Rattle.ha_journal.specs.Helpers.{is_of};
ghost use Rattle.entity_places.specs.Placed.{ArePlaced, place_in, place_or};
ghost use Rattle.trig_set.specs.Tabled.{AreTabled, event_is_of};

use entity_places::{FEW, Places};
use ha_config::same_id;
use ha_journal::BusEvent;
use ha_value::EntityId;
use std::alloc::{AllocError, Global};
use std::marker::Model;

/// Events of helpers, in order.
#[derive(Drop)]
pub struct Events<'a> {
    list: &'a [BusEvent],
    /// None where they are few.
    places: Option<Places>,
}

impl<'a> Model for Events<'a> {
    ghost use Rattle.std.specs.Prelude.{List};
    ghost use Rattle.std.specs.Coded.{codes};
    ghost use Rattle.ha_value.specs.contracts.value.Value as value;
    ghost use Rattle.ha_journal.specs.declared.event.BusEvent.{BusEvent};
    ghost use Rattle.trig_set.specs.Tabled.{AreTabled, event_is_of};

    ghost Value = { List BusEvent };

    ghost coded = { Prim.hlevel (codes, value.the_row.coded) };

    ghost view = { λ v. v.list.now };

    ghost invariant = { λ v. AreTabled v.places event_is_of v.list.now };
}

/// Whether the event is of this entity.
fn is_of(event: &BusEvent, entity: &EntityId) -> bool
    ensures { result ≡ is_of (Some entity.now) event.now }
{
    match &event.entity {
        Some(own) => same_id(entity, own),
        None => false,
    }
}

/// Whether one of them is.
fn is_of_any(events: &[BusEvent], entity: &EntityId) -> bool
    ensures { result ≡ list_any (is_of (Some entity.now)) events.now }
{
    events.iter().any(|event| is_of(event, entity))
}

/// The first that is.
fn first_among<'a>(events: &'a [BusEvent], entity: &EntityId) -> Option<&'a BusEvent>
    ensures { option_copied result ≡ find (is_of (Some entity.now)) events.now }
{
    events.iter().find(|event| is_of(event, entity))
}

/// The event at a place, if there is one.
fn event_at(events: &[BusEvent], place: Option<usize>) -> Option<&BusEvent>
    ensures { option_copied result ≡ option_and_then (slice_get events.now) place }
{
    match place {
        Some(place) => events.get(place),
        None => None,
    }
}

/// The event's entity has this place, unless it has one.
fn put_event(
    alloc: Global,
    places: &mut Places,
    event: &BusEvent,
    place: usize,
) -> Result<(), AllocError>
    ensures { OnOk result ((e : Entity) → place_in places.new e ≡ place_or place (event_is_of e event.now) (place_in places.old e)) }
{
    match &event.entity {
        Some(entity) => places.put(alloc, entity, place),
        None => Ok(()),
    }
}

/// The places of all.
fn places_of(alloc: Global, events: &[BusEvent]) -> Result<Places, AllocError>
    ensures { IfOk result (λ places. ArePlaced places event_is_of events.now) }
{
    let mut places = Places::make(alloc);
    for at in 0..events.len() {
        put_event(alloc, &mut places, &events[at], at)?;
    }
    Ok(places)
}

/// The same, where they are many.
fn table_of(alloc: Global, events: &[BusEvent]) -> Result<Option<Places>, AllocError>
    ensures { IfOk result (λ places. AreTabled places event_is_of events.now) }
{
    if events.len() <= FEW {
        return Ok(None);
    }
    let places = places_of(alloc, events)?;
    Ok(Some(places))
}

impl<'a> Events<'a> {
    /// These events.
    pub fn make(alloc: Global, list: &'a [BusEvent]) -> Result<Events<'a>, AllocError>
        ensures { IfOk result (λ v. v ≡ list.now) }
    {
        let places = table_of(alloc, list)?;
        Ok(Events { list, places })
    }

    /// As a slice.
    pub fn as_slice(&self) -> &[BusEvent]
        ensures { result.now ≡ self.now }
    {
        self.list
    }

    /// Whether one is of this entity.
    pub fn has(&self, entity: &EntityId) -> bool
        ensures { result ≡ list_any (is_of (Some entity.now)) self.now }
    {
        match &self.places {
            Some(places) => places.place_of(entity).is_some(),
            None => is_of_any(self.list, entity),
        }
    }

    /// The first that is of this entity.
    pub fn first_of(&self, entity: &EntityId) -> Option<&BusEvent>
        ensures { option_copied result ≡ find (is_of (Some entity.now)) self.now }
    {
        match &self.places {
            Some(places) => event_at(self.list, places.place_of(entity)),
            None => first_among(self.list, entity),
        }
    }
}
