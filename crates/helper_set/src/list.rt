//! The helpers that are kept, each found by its id.
ghost use Rattle.std.specs.Prelude.{◌≡◌, ◌<◌, ◌++◌, ℕ, [], Some, IfOk, OnOk, length, nat_eq, option_map, slice_get, if◌then◌else◌};
ghost use Rattle.entity_places.specs.Placed.{ArePlaced};
ghost use Rattle.helper_set.specs.Changes.{kept_with};
ghost use Rattle.helper_set.specs.Listed.{HaveSameIds, kept_is_of};
ghost use Rattle.helper_set.specs.Kept.{place_in};
ghost use Rattle.helper_set.specs.Passes.{entity_at, idled};

use crate::kept::{Kept, change, finish};
use entity_places::Places;
use ha_model::{EntityId, HelperChange, Many, Moment, Plain};
use std::alloc::{AllocError, Global};
use std::marker::Model;

/// Helpers in order, with a table of their places, so that an id is found in the logarithm of their number. Their ids and places stay.
#[derive(Drop)]
pub struct KeptList {
    list: Vec<Kept>,
    places: Places,
}

impl Model for KeptList {
    ghost use Rattle.entity_places.specs.Placed.{ArePlaced};
    ghost use Rattle.helper_set.specs.Listed.{Listed, kept_is_of};

    ghost Value = { Listed };

    ghost view = { λ k. record { items = k.list.items } };

    ghost invariant = { λ k. ArePlaced k.places kept_is_of k.list.items };
}

/// The places of all helpers; of several with one id, the first counts.
fn all_places(alloc: Global, list: &[Kept]) -> Result<Places, AllocError>
    ensures { IfOk result (λ places. ArePlaced places kept_is_of list.now) }
{
    let mut places = Places::make(alloc);
    for i in 0..list.len() {
        places.put(alloc, &list[i].helper.entity, i)?;
    }
    Ok(places)
}

/// The helper at a place is as the change says.
fn change_at(
    alloc: Global,
    kept: &mut [Kept],
    place: usize,
    made: &HelperChange,
    at: Moment,
) -> Result<(), AllocError>
    requires { place < length kept.old }
    ensures kept { OnOk result ((n : ℕ) → slice_get kept.new n ≡ (if nat_eq place n then option_map (kept_with at (Some made.now)) (slice_get kept.old n) else slice_get kept.old n)) }
    ensures ids { HaveSameIds kept.old kept.new }
{
    change(alloc, &mut kept[place], made, at)
}

/// The timer at a place finishes, if there is one; its helper is appended.
fn finish_at(
    alloc: Global,
    kept: &mut [Kept],
    place: u64,
    found: &mut Many<EntityId>,
) -> Result<(), AllocError>
    ensures found { OnOk result (found.new ≡ found.old ++ entity_at kept.old place) }
    ensures kept { OnOk result ((n : ℕ) → slice_get kept.new n ≡ (if nat_eq place n then option_map idled (slice_get kept.old n) else slice_get kept.old n)) }
    ensures ids { HaveSameIds kept.old kept.new }
{
    if (place as usize) < kept.len() {
        let one = &mut kept[place as usize];
        let entity = one.helper.entity.copy(alloc)?;
        finish(one);
        found.push(entity)?;
        return Ok(());
    }
    Ok(())
}

impl KeptList {
    /// No helpers.
    pub fn none(alloc: Global) -> KeptList
        ensures { result.items ≡ [] }
    {
        KeptList {
            list: Vec::new(alloc),
            places: Places::make(alloc),
        }
    }

    /// These helpers.
    pub fn make(alloc: Global, list: Vec<Kept>) -> Result<KeptList, AllocError>
        ensures { IfOk result (λ k. k.items ≡ list.items) }
    {
        let places = all_places(alloc, &list)?;
        Ok(KeptList { list, places })
    }

    /// The helpers in order.
    pub fn as_slice(&self) -> &[Kept]
        ensures { result.now ≡ self.now.items }
    {
        &self.list
    }

    /// The place of the helper with this id.
    pub fn place_in(&self, entity: &EntityId) -> Option<usize>
        ensures { result ≡ place_in self.now.items entity.now }
    {
        self.places.place_of(entity)
    }

    /// The helper at a place is as the change says.
    pub fn change_at(
        &mut self,
        alloc: Global,
        place: usize,
        made: &HelperChange,
        at: Moment,
    ) -> Result<(), AllocError>
        requires { place < length self.old.items }
        ensures { OnOk result ((n : ℕ) → slice_get self.new.items n ≡ (if nat_eq place n then option_map (kept_with at (Some made.now)) (slice_get self.old.items n) else slice_get self.old.items n)) }
    {
        change_at(alloc, self.list.as_mut_slice(), place, made, at)
    }

    /// The timer at a place finishes, if there is one; its helper is appended.
    pub fn finish_at(
        &mut self,
        alloc: Global,
        place: u64,
        found: &mut Many<EntityId>,
    ) -> Result<(), AllocError>
        ensures found { OnOk result (found.new ≡ found.old ++ entity_at self.old.items place) }
        ensures kept { OnOk result ((n : ℕ) → slice_get self.new.items n ≡ (if nat_eq place n then option_map idled (slice_get self.old.items n) else slice_get self.old.items n)) }
    {
        finish_at(alloc, self.list.as_mut_slice(), place, found)
    }
}
