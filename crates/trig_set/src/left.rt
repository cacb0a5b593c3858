//! Whether nobody is concerned, and else where the index has those who are.
ghost use Rattle.std.specs.Prelude.{◌≡◌, ◌&&◌, ◌↔◌, ℕ, IsNone, false, true};
ghost use Rattle.event_bus.specs.Lists.{has};
ghost use Rattle.event_bus.specs.Subjects.{Subject, knows};

use crate::recent::Recent;
use event_bus::Index;
use ha_value::EntityId;
use std::collections::BTreeSet;

/// Whether nobody is listed.
pub fn is_empty(listed: &BTreeSet<u64>) -> bool
    ensures { (result ≡ true) ↔ ((n : ℕ) → has listed.now n ≡ false) }
{
    listed.is_empty()
}

/// Whether both are true.
fn both(left: bool, right: bool) -> bool
    ensures { result ≡ (left && right) }
{
    left && right
}

/// Whether no entry concerns anybody only because it is an entry, be it the next one alone.
fn leaves_entries(index: &Index, recent: &Recent) -> bool
    ensures { (result ≡ true) ↔ (((n : ℕ) → knows index.now Subject.Entries n ≡ false) × ((n : ℕ) → has recent.now.owners n ≡ false)) }
{
    both(is_empty(&index.entries), recent.is_empty())
}

/// The place, or none where nobody is concerned.
fn unless(left: bool, place: usize) -> Option<usize>
    ensures { IsNone result ↔ (left ≡ true) }
{
    if left { None } else { Some(place) }
}

/// The place in the index of an entity that concerns somebody.
fn place_of_entity(index: &Index, entity: &EntityId) -> Option<usize>
    ensures { IsNone result ↔ ((n : ℕ) → knows index.now (Subject.Entity entity.now) n ≡ false) }
{
    match index.find_entity(entity) {
        Some(found) => unless(is_empty(found.1), found.0),
        None => None,
    }
}

/// None where neither each entry, nor the next one, nor the entity concerns anybody; else the place in the index of an entity that does, and
/// one behind all places for any other.
pub fn asked(index: &Index, recent: &Recent, entity: &EntityId) -> Option<usize>
    ensures { IsNone result ↔ ((((n : ℕ) → knows index.now Subject.Entries n ≡ false) × ((n : ℕ) → has recent.now.owners n ≡ false)) × ((n : ℕ) → knows index.now (Subject.Entity entity.now) n ≡ false)) }
{
    match place_of_entity(index, entity) {
        Some(place) => Some(place),
        None => unless(leaves_entries(index, recent), usize::MAX),
    }
}
