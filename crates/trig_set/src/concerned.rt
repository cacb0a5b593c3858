//! Whom an entry concerns, told by an index of the owners.
ghost use Rattle.std.specs.Prelude.{◌≡◌, ◌≤◌, ℕ, OnOk, IfOk, MatchOption, false, length, map, nat_lt, option_map, slice_get, true};
ghost use Rattle.std.specs.Option.{option_copied, option_map_or};
ghost use Rattle.event_bus.specs.Lists.{has};
ghost use Rattle.event_bus.specs.Subjects.{Subject, knows};
ghost use Rattle.ha_journal.specs.Entries.{event_in, is_moment, opens_segment};
ghost use Rattle.timer_queue.specs.Timers.{due_of};
ghost use Rattle.trig_set.specs.Concerned.{IsAside, OfOthers};
ghost use Rattle.trig_set.specs.Order.{ascend, owner_of};
ghost use Rattle.trig_set.specs.Queued.{IsLater};
ghost use Rattle.trig_set.specs.Stands.{AtOwner};

use crate::attached::is_moment;
use crate::changes::Changes;
use crate::event::kind_in;
use crate::events::Events;
use crate::moved::opens;
use crate::owners::Attached;
use crate::places::Places;
use crate::recent::Recent;
use crate::scene::Shift;
use event_bus::Index;
use ha_clock::Moment;
use ha_journal::{BusEvent, Entry};
use std::alloc::{AllocError, Global};
use std::collections::BTreeSet;
use timer_queue::TimerQueue;

/// Where an owner stands, or would stand: behind those of lesser numbers.
pub fn place_of(owners: &[Attached], owner: u64) -> usize
    ensures within { result ≤ length owners.now }
    ensures behind { ascend (map owner_of owners.now) ≡ true → (n : ℕ) → AtOwner owners.now n (λ a. nat_lt a.owner owner ≡ nat_lt n result) }
    ensures there { ascend (map owner_of owners.now) ≡ true → (n : ℕ) → AtOwner owners.now n (λ a. a.owner ≡ owner → result ≡ n) }
{
    let mut low = 0;
    let mut high = owners.len();
    'halves: while low < high {
        let middle = low + (high - low) / 2;
        if owners[middle].owner < owner {
            low = middle + 1;
        } else {
            high = middle;
        }
    }
    low
}

/// Puts in the places of owners.
fn put_places(
    owners: &[Attached],
    listed: &BTreeSet<u64>,
    places: &mut Places,
) -> Result<(), AllocError>
    ensures kept { OnOk result ((n : ℕ) → has places.new n ≡ false → has places.old n ≡ false) }
    ensures aside { OnOk result (OfOthers owners.now places.new (λ m. has listed.now m ≡ false)) }
{
    'owners: for owner in listed.iter() {
        places.insert(place_of(owners, *owner))?;
    }
    Ok(())
}

/// The same, where there are some.
fn put_some(
    owners: &[Attached],
    listed: Option<&BTreeSet<u64>>,
    places: &mut Places,
) -> Result<(), AllocError>
    ensures kept { OnOk result ((n : ℕ) → has places.new n ≡ false → has places.old n ≡ false) }
    ensures aside { OnOk result (OfOthers owners.now places.new (λ m. option_map_or (λ set. has set m) (option_copied listed.entry) false ≡ false)) }
{
    match listed {
        Some(listed) => put_places(owners, listed, places),
        None => Ok(()),
    }
}

/// Puts in the places of those whom each entry concerns, and of those who are recent.
fn put_entries(
    index: &Index,
    recent: &Recent,
    owners: &[Attached],
    places: &mut Places,
) -> Result<(), AllocError>
    ensures kept { OnOk result ((n : ℕ) → has places.new n ≡ false → has places.old n ≡ false) }
    ensures entries { OnOk result (OfOthers owners.now places.new (λ m. knows index.now Subject.Entries m ≡ false)) }
    ensures recent { OnOk result (OfOthers owners.now places.new (λ m. has recent.now.owners m ≡ false)) }
{
    put_places(owners, &index.entries, places)?;
    put_places(owners, &recent.owners, places)
}

/// Puts in the places of those whom an event concerns.
fn put_event(
    index: &Index,
    entry: &Entry,
    owners: &[Attached],
    places: &mut Places,
) -> Result<(), AllocError>
    ensures kept { OnOk result ((n : ℕ) → has places.new n ≡ false → has places.old n ≡ false) }
    ensures aside { OnOk result (OfOthers owners.now places.new (λ m. MatchOption (option_map (λ v. v.0) (event_in entry.now)) (Unit {0}) (λ q. knows index.now (Subject.Event q) m ≡ false))) }
{
    match kind_in(entry) {
        Some(kind) => put_some(owners, index.of_event(kind), places),
        None => Ok(()),
    }
}

/// Puts in the places of those whom one of these events concerns.
fn put_kinds(
    index: &Index,
    events: &[BusEvent],
    owners: &[Attached],
    places: &mut Places,
) -> Result<(), AllocError>
    ensures kept { OnOk result ((n : ℕ) → has places.new n ≡ false → has places.old n ≡ false) }
    ensures aside { OnOk result (OfOthers owners.now places.new (λ m. (k : ℕ) → MatchOption (slice_get events.now k) (Unit {0}) (λ v. knows index.now (Subject.Event v.kind) m ≡ false))) }
{
    for place in 0..events.len() {
        put_some(owners, index.of_event(&events[place].kind), places)?;
    }
    Ok(())
}

/// Puts in the places of those whom an event of a helper concerns.
fn put_timers(
    index: &Index,
    events: &Events<'_>,
    owners: &[Attached],
    places: &mut Places,
) -> Result<(), AllocError>
    ensures kept { OnOk result ((n : ℕ) → has places.new n ≡ false → has places.old n ≡ false) }
    ensures aside { OnOk result (OfOthers owners.now places.new (λ m. (k : ℕ) → MatchOption (slice_get events.now k) (Unit {0}) (λ v. knows index.now (Subject.Event v.kind) m ≡ false))) }
{
    put_kinds(index, events.as_slice(), owners, places)
}

/// Puts in the places of those whom one of these changes concerns. `near` says where the index may have the only one.
fn put_shifts(
    index: &Index,
    shifts: &[Shift],
    near: usize,
    owners: &[Attached],
    places: &mut Places,
) -> Result<(), AllocError>
    ensures kept { OnOk result ((n : ℕ) → has places.new n ≡ false → has places.old n ≡ false) }
    ensures aside { OnOk result (OfOthers owners.now places.new (λ m. (k : ℕ) → MatchOption (slice_get shifts.now k) (Unit {0}) (λ c. knows index.now (Subject.Entity c.entity) m ≡ false))) }
{
    for place in 0..shifts.len() {
        put_some(
            owners,
            index.of_entity_near(&shifts[place].entity, near),
            places,
        )?;
    }
    Ok(())
}

/// Puts in the places of those whom a change of one of the entities concerns. `near` says where the index may have the only one.
fn put_entities(
    index: &Index,
    shifts: &Changes<'_>,
    near: usize,
    owners: &[Attached],
    places: &mut Places,
) -> Result<(), AllocError>
    ensures kept { OnOk result ((n : ℕ) → has places.new n ≡ false → has places.old n ≡ false) }
    ensures aside { OnOk result (OfOthers owners.now places.new (λ m. (k : ℕ) → MatchOption (slice_get shifts.now k) (Unit {0}) (λ c. knows index.now (Subject.Entity c.entity) m ≡ false))) }
{
    put_shifts(index, shifts.as_slice(), near, owners, places)
}

/// Puts in the places of those who have a hold that is over. What the queue has for the others stays.
fn put_due(
    owners: &[Attached],
    queue: &mut TimerQueue,
    to: Moment,
    places: &mut Places,
) -> Result<(), AllocError>
    ensures kept { OnOk result ((n : ℕ) → has places.new n ≡ false → has places.old n ≡ false) }
    ensures later { OnOk result (OfOthers owners.now places.new (λ m. IsLater to (due_of m queue.old))) }
    ensures queue { OnOk result (OfOthers owners.now places.new (λ m. due_of m queue.new ≡ due_of m queue.old)) }
{
    'dues: while let Some(owner) = queue.pop_due(to) {
        places.insert(place_of(owners, owner))?;
    }
    Ok(())
}

/// Puts in the places of those whom a moment concerns: those with a trigger on times, and with a hold that is over.
fn put_timely(
    index: &Index,
    to: Moment,
    owners: &[Attached],
    queue: &mut TimerQueue,
    places: &mut Places,
) -> Result<(), AllocError>
    ensures kept { OnOk result ((n : ℕ) → has places.new n ≡ false → has places.old n ≡ false) }
    ensures times { OnOk result (OfOthers owners.now places.new (λ m. knows index.now Subject.Moments m ≡ false)) }
    ensures later { OnOk result (OfOthers owners.now places.new (λ m. IsLater to (due_of m queue.old))) }
    ensures queue { OnOk result (OfOthers owners.now places.new (λ m. due_of m queue.new ≡ due_of m queue.old)) }
{
    put_places(owners, &index.moments, places)?;
    put_due(owners, queue, to, places)
}

/// The same, where the entry is a moment.
fn put_moment(
    index: &Index,
    entry: &Entry,
    to: Moment,
    owners: &[Attached],
    queue: &mut TimerQueue,
    places: &mut Places,
) -> Result<(), AllocError>
    ensures kept { OnOk result ((n : ℕ) → has places.new n ≡ false → has places.old n ≡ false) }
    ensures times { OnOk result (OfOthers owners.now places.new (λ m. is_moment entry.now ≡ true → knows index.now Subject.Moments m ≡ false)) }
    ensures later { OnOk result (OfOthers owners.now places.new (λ m. is_moment entry.now ≡ true → IsLater to (due_of m queue.old))) }
    ensures queue { OnOk result (OfOthers owners.now places.new (λ m. due_of m queue.new ≡ due_of m queue.old)) }
{
    if is_moment(entry) {
        put_timely(index, to, owners, queue, places)
    } else {
        Ok(())
    }
}

/// The places of the owners whom the entry concerns, where no segment opens with it.
fn some_places(
    alloc: Global,
    index: &Index,
    recent: &Recent,
    entry: &Entry,
    to: Moment,
    shifts: &Changes<'_>,
    events: &Events<'_>,
    near: usize,
    owners: &[Attached],
    queue: &mut TimerQueue,
) -> Result<Places, AllocError>
    requires { opens_segment entry.now ≡ false }
    ensures aside { IfOk result (λ places. OfOthers owners.now places (IsAside index.now queue.old to shifts.now events.now entry.now)) }
    ensures recent { IfOk result (λ places. OfOthers owners.now places (λ m. has recent.now.owners m ≡ false)) }
    ensures queue { IfOk result (λ places. OfOthers owners.now places (λ m. due_of m queue.new ≡ due_of m queue.old)) }
{
    let mut places = Places::make(alloc);
    put_entries(index, recent, owners, &mut places)?;
    put_event(index, entry, owners, &mut places)?;
    put_timers(index, events, owners, &mut places)?;
    put_entities(index, shifts, near, owners, &mut places)?;
    put_moment(index, entry, to, owners, queue, &mut places)?;
    Ok(places)
}

/// The places of all owners.
fn all_places(alloc: Global, owners: &[Attached]) -> Result<Places, AllocError>
    ensures { IfOk result (λ places. (n : ℕ) → has places n ≡ false → length owners.now ≤ n) }
{
    let mut places = Places::make(alloc);
    for place in 0..owners.len() {
        places.insert(place)?;
    }
    Ok(places)
}

/// The places of the owners whom the entry concerns: of all where a segment opens with it. What the queue has for the others stays.
pub fn concerned(
    alloc: Global,
    index: &Index,
    recent: &Recent,
    entry: &Entry,
    to: Moment,
    shifts: &Changes<'_>,
    events: &Events<'_>,
    near: usize,
    owners: &[Attached],
    queue: &mut TimerQueue,
) -> Result<Places, AllocError>
    ensures aside { IfOk result (λ places. OfOthers owners.now places (IsAside index.now queue.old to shifts.now events.now entry.now)) }
    ensures recent { IfOk result (λ places. OfOthers owners.now places (λ m. has recent.now.owners m ≡ false)) }
    ensures queue { IfOk result (λ places. OfOthers owners.now places (λ m. due_of m queue.new ≡ due_of m queue.old)) }
{
    if opens(entry) {
        return all_places(alloc, owners);
    }
    some_places(
        alloc, index, recent, entry, to, shifts, events, near, owners, queue,
    )
}
