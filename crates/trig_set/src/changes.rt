//! What an entry changes. Where that is of many entities, a table has the first change of each.
ghost use Rattle.std.specs.Prelude.{◌≡◌, IfOk, OnOk, option_and_then, slice_get};
ghost use Rattle.std.specs.Option.{option_copied};
ghost use Rattle.ha_value.specs.declared.value.EntityId.{EntityId as Entity};
ghost use Rattle.entity_places.specs.Placed.{ArePlaced, place_in, place_or};
ghost use Rattle.trig_set.specs.Changes.{shift_is_of};
ghost use Rattle.trig_set.specs.Scenes.{shift_of};
ghost use Rattle.trig_set.specs.Tabled.{AreTabled};

use crate::scene::Shift;
use entity_places::{FEW, Places};
use ha_config::same_id;
use ha_value::EntityId;
use std::alloc::{AllocError, Global};
use std::marker::Model;

/// What an entry changes of each entity, in order.
#[derive(Drop)]
pub struct Changes<'a> {
    list: &'a [Shift],
    /// None where they are few.
    places: Option<Places>,
}

impl<'a> Model for Changes<'a> {
    ghost use Rattle.std.specs.Prelude.{List};
    ghost use Rattle.std.specs.Coded.{codes};
    ghost use Rattle.ha_value.specs.contracts.value.Value as value;
    ghost use Rattle.trig_set.specs.declared.scene.Shift.{Shift};
    ghost use Rattle.trig_set.specs.Changes.{shift_is_of};
    ghost use Rattle.trig_set.specs.Tabled.{AreTabled};

    ghost Value = { List Shift };

    ghost coded = { Prim.hlevel (codes, value.the_row.coded) };

    ghost view = { λ v. v.list.now };

    ghost invariant = { λ v. AreTabled v.places shift_is_of v.list.now };
}

/// The first change of the entity.
fn first_among<'a>(shifts: &'a [Shift], entity: &EntityId) -> Option<&'a Shift>
    ensures { option_copied result ≡ shift_of shifts.now entity.now }
{
    shifts.iter().find(|shift| same_id(&shift.entity, entity))
}

/// The change at a place, if there is one.
fn shift_at(shifts: &[Shift], place: Option<usize>) -> Option<&Shift>
    ensures { option_copied result ≡ option_and_then (slice_get shifts.now) place }
{
    match place {
        Some(place) => shifts.get(place),
        None => None,
    }
}

/// The places of all.
fn places_of(alloc: Global, shifts: &[Shift]) -> Result<Places, AllocError>
    ensures { IfOk result (λ places. ArePlaced places shift_is_of shifts.now) }
{
    let mut places = Places::make(alloc);
    for at in 0..shifts.len() {
        places.put(alloc, &shifts[at].entity, at)?;
    }
    Ok(places)
}

/// The same, where they are many.
fn table_of(alloc: Global, shifts: &[Shift]) -> Result<Option<Places>, AllocError>
    ensures { IfOk result (λ places. AreTabled places shift_is_of shifts.now) }
{
    if shifts.len() <= FEW {
        return Ok(None);
    }
    let places = places_of(alloc, shifts)?;
    Ok(Some(places))
}

impl<'a> Changes<'a> {
    /// These changes.
    pub fn make(alloc: Global, list: &'a [Shift]) -> Result<Changes<'a>, AllocError>
        ensures { IfOk result (λ v. v ≡ list.now) }
    {
        let places = table_of(alloc, list)?;
        Ok(Changes { list, places })
    }

    /// As a slice.
    pub fn as_slice(&self) -> &[Shift]
        ensures { result.now ≡ self.now }
    {
        self.list
    }

    /// The first of the entity.
    pub fn first_of(&self, entity: &EntityId) -> Option<&Shift>
        ensures { option_copied result ≡ shift_of self.now entity.now }
    {
        match &self.places {
            Some(places) => shift_at(self.list, places.place_of(entity)),
            None => first_among(self.list, entity),
        }
    }
}
