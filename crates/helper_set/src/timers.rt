//! The timers that are active, by the places of their helpers.
ghost use Rattle.std.specs.Prelude.{◌≡◌, ℕ, [], OnOk, IfOk, None, true, flat_map, length, nat_eq, option_map, slice_get, if◌then◌else◌};
ghost use Rattle.std.specs.List.{list_any};
ghost use Rattle.ha_config.specs.Words.{up_to};
ghost use Rattle.timer_queue.specs.Timers.{due_of};
ghost use Rattle.helper_set.specs.Passes.{Passes, Turns, entity_at, has, idled, is_over, over_at};

use crate::list::KeptList;
use ha_model::{EntityId, Many, Moment};
use std::alloc::{AllocError, Global};
use std::collections::BTreeSet;
use timer_queue::TimerQueue;

/// The timer of a place has this due, or there is none.
pub fn retime(timers: &mut TimerQueue, place: u64, due: Option<Moment>) -> Result<(), AllocError>
    ensures { OnOk result ((n : ℕ) → due_of n timers.new ≡ (if nat_eq place n then due else due_of n timers.old)) }
{
    timers.remove(place);
    let Some(due) = due else {
        return Ok(());
    };
    match timers.insert(due, place) {
        Ok(()) => Ok(()),
        Err(_) => Err(AllocError),
    }
}

/// One place more.
fn put(places: &mut BTreeSet<u64>, place: u64) -> Result<(), AllocError>
    ensures { OnOk result (Turns places.old places.new place true) }
{
    match places.insert(place) {
        Ok(_) => Ok(()),
        Err(_) => Err(AllocError),
    }
}

/// These places.
fn put_all(alloc: Global, keys: &[u64]) -> Result<BTreeSet<u64>, AllocError>
    ensures { IfOk result (λ set. (n : ℕ) → has set n ≡ list_any (nat_eq n) keys.now) }
{
    let mut places = BTreeSet::new(alloc);
    for i in 0..keys.len() {
        put(&mut places, keys[i])?;
    }
    Ok(places)
}

/// The places whose timers are due.
fn over_places(alloc: Global, timers: &TimerQueue, at: Moment) -> Result<BTreeSet<u64>, AllocError>
    ensures { IfOk result (λ set. (n : ℕ) → has set n ≡ is_over at timers.now n) }
{
    let keys = timers.due_keys(alloc, at)?;
    let places = put_all(alloc, &keys)?;
    Ok(places)
}

/// The timers at these places finish, the first place first.
fn finish_all(
    alloc: Global,
    timers: &mut TimerQueue,
    kept: &mut KeptList,
    places: BTreeSet<u64>,
) -> Result<Many<EntityId>, AllocError>
    ensures timers { OnOk result ((n : ℕ) → due_of n timers.new ≡ (if has places n then None else due_of n timers.old)) }
    ensures kept { OnOk result ((n : ℕ) → slice_get kept.new.items n ≡ (if has places n then option_map idled (slice_get kept.old.items n) else slice_get kept.old.items n)) }
    ensures found { IfOk result (λ es. es ≡ flat_map (λ n. if has places n then entity_at kept.old.items n else []) (up_to (length kept.old.items))) }
{
    let mut found = Many::make(alloc);
    let mut left = places;
    'places: while let Some(place) = left.pop_first() {
        timers.remove(place);
        kept.finish_at(alloc, place, &mut found)?;
    }
    Ok(found)
}

/// At a moment the timers that are due finish; the answer has their helpers in order.
pub fn pass(
    alloc: Global,
    timers: &mut TimerQueue,
    kept: &mut KeptList,
    at: Moment,
) -> Result<Many<EntityId>, AllocError>
    ensures passes { OnOk result (Passes at timers.old timers.new kept.old.items kept.new.items) }
    ensures found { IfOk result (λ es. es ≡ flat_map (over_at at timers.old kept.old.items) (up_to (length kept.old.items))) }
{
    let places = over_places(alloc, timers, at)?;
    let found = finish_all(alloc, timers, kept, places)?;
    Ok(found)
}
