//! Which waits an entry concerns: those for whose owners something fires, those whose due has come, and those whose templates are tested.
ghost use Rattle.std.specs.Prelude.{◌≡◌, ◌<◌, ℕ, IfOk, IfSome, OnOk, Some, false, length, nat_eq, slice_index_or};
ghost use Rattle.std.specs.List.{list_any};
ghost use Rattle.wait_set.specs.declared.asked.Asked.{Asked as Wait};
ghost use Rattle.wait_set.specs.Concern.{Ascend, OfOthers, fires_for, has};
ghost use Rattle.wait_set.specs.Timers.{IsLater};

use crate::asked::Asked;
use ha_clock::Moment;
use ha_journal::Firing;
use std::alloc::{AllocError, Global};
use std::collections::BTreeSet;
use timer_queue::TimerQueue;

/// The place behind those of lesser owners, found by halves.
pub fn place_from(asks: &[Asked], owner: u64) -> usize
    requires { Ascend asks.now }
    ensures here { (n : ℕ) (d : Wait) → n < length asks.now → (slice_index_or asks.now n d).owner ≡ owner → result ≡ n }
    ensures before { (n : ℕ) (d : Wait) → n < result → n < length asks.now → (slice_index_or asks.now n d).owner < owner }
{
    asks.partition_point(|asked| asked.owner < owner)
}

/// The place of the wait of this owner, if there is one.
pub fn place_of(asks: &[Asked], owner: u64) -> Option<usize>
    requires { Ascend asks.now }
    ensures found { (n : ℕ) (d : Wait) → n < length asks.now → (slice_index_or asks.now n d).owner ≡ owner → result ≡ Some n }
    ensures within { IfSome result (λ place. place < length asks.now) }
    ensures owned { IfSome result (λ place. (d : Wait) → (slice_index_or asks.now place d).owner ≡ owner) }
{
    let place = place_from(asks, owner);
    if place < asks.len() && asks[place].owner == owner {
        Some(place)
    } else {
        None
    }
}

/// Puts the place of an owner's wait in, if there is one.
fn put_owner(asks: &[Asked], owner: u64, places: &mut BTreeSet<usize>) -> Result<(), AllocError>
    requires { Ascend asks.now }
    ensures kept { OnOk result ((n : ℕ) → has places.new n ≡ false → has places.old n ≡ false) }
    ensures aside { OnOk result (OfOthers (λ a. nat_eq owner a.owner ≡ false) places.new asks.now) }
{
    if let Some(place) = place_of(asks, owner) {
        places.insert(place)?;
    }
    Ok(())
}

/// Puts the places of these owners' waits in.
fn put_owners(
    asks: &[Asked],
    owners: &BTreeSet<u64>,
    places: &mut BTreeSet<usize>,
) -> Result<(), AllocError>
    requires { Ascend asks.now }
    ensures kept { OnOk result ((n : ℕ) → has places.new n ≡ false → has places.old n ≡ false) }
    ensures aside { OnOk result (OfOthers (λ a. has owners.now a.owner ≡ false) places.new asks.now) }
{
    'owners: for owner in owners.iter() {
        put_owner(asks, *owner, places)?;
    }
    Ok(())
}

/// Puts the places of the waits in for whose owners something fires.
fn put_fired(
    asks: &[Asked],
    fired: &[Firing],
    places: &mut BTreeSet<usize>,
) -> Result<(), AllocError>
    requires { Ascend asks.now }
    ensures kept { OnOk result ((n : ℕ) → has places.new n ≡ false → has places.old n ≡ false) }
    ensures aside { OnOk result (OfOthers (λ a. fires_for fired.now a.owner ≡ false) places.new asks.now) }
{
    'fired: for firing in fired {
        put_owner(asks, firing.owner, places)?;
    }
    Ok(())
}

/// Puts the places of the waits in whose owners are among these.
fn put_due(asks: &[Asked], owners: &[u64], places: &mut BTreeSet<usize>) -> Result<(), AllocError>
    requires { Ascend asks.now }
    ensures kept { OnOk result ((n : ℕ) → has places.new n ≡ false → has places.old n ≡ false) }
    ensures aside { OnOk result (OfOthers (λ a. list_any (nat_eq a.owner) owners.now ≡ false) places.new asks.now) }
{
    'owners: for owner in owners {
        put_owner(asks, *owner, places)?;
    }
    Ok(())
}

/// The places of the waits for whose owners something fires, of those whose timer is due, and of
/// those whose owners are among `tested`.
pub fn concerned(
    alloc: Global,
    asks: &[Asked],
    timers: &TimerQueue,
    tested: &BTreeSet<u64>,
    fired: &[Firing],
    now: Moment,
) -> Result<BTreeSet<usize>, AllocError>
    requires { Ascend asks.now }
    ensures tests { IfOk result (λ places. OfOthers (λ a. has tested.now a.owner ≡ false) places asks.now) }
    ensures fires { IfOk result (λ places. OfOthers (λ a. fires_for fired.now a.owner ≡ false) places asks.now) }
    ensures dues { IfOk result (λ places. OfOthers (λ a. IsLater now timers.now a.owner) places asks.now) }
{
    let mut places = BTreeSet::new(alloc);
    let due = timers.due_keys(alloc, now)?;
    put_due(asks, due.as_slice(), &mut places)?;
    put_fired(asks, fired, &mut places)?;
    put_owners(asks, tested, &mut places)?;
    Ok(places)
}
