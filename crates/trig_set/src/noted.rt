//! What an entry makes of the owners: of those alone whom it concerns.
ghost use Rattle.std.specs.Prelude.{◌≡◌, ◌≤◌, ◌++◌, ℕ, [], OnOk, false, flat_map, length, map, nat_eq, slice_get, true};
ghost use Rattle.ha_clock.specs.Local.{last_moment};
ghost use Rattle.event_bus.specs.Lists.{has};
ghost use Rattle.ha_journal.specs.Journal.{Journal, more};
ghost use Rattle.ha_config.specs.Words.{up_to};
ghost use Rattle.ha_journal.specs.Moves.{sight};
ghost use Rattle.timer_queue.specs.Timers.{due_of};
ghost use Rattle.ha_past.specs.Firings.{firings};
ghost use Rattle.trig_set.specs.Known.{AreKnown};
ghost use Rattle.trig_set.specs.Noted.{AreNoted};
ghost use Rattle.trig_set.specs.Order.{ascend, owner_of};
ghost use Rattle.trig_set.specs.Queued.{HasDue};
ghost use Rattle.trig_set.specs.Scenes.{Shows};
ghost use Rattle.trig_set.specs.Stands.{AllOwners, AtOwner, OwnerStands, firings_at};

use crate::attached::retime;
use crate::concerned::concerned;
use crate::owners::{Attached, note_at};
use crate::places::Places;
use crate::recent::Recent;
use crate::scene::Scene;
use event_bus::Index;
use ha_journal::Firing;
use ha_sight::Answers;
use ha_value::Many;
use std::alloc::{AllocError, Global};
use timer_queue::TimerQueue;

/// What the entry makes of the owner at a place, if there is one; what fires is appended.
fn note_there<A: Answers>(
    alloc: Global,
    scene: &Scene<'_>,
    answers: &A,
    place: usize,
    owners: &mut [Attached],
    fired: &mut Many<Firing>,
) -> Result<(), AllocError>
    requires { scene.now.to ≤ last_moment }
    ensures stands { OnOk result ((j : Journal) → AtOwner owners.old place (λ a. Shows scene.now j a.since) → A.sight answers.now ≡ sight (more j scene.now.entry.now) (length (more j scene.now.entry.now))
        → AtOwner owners.old place (OwnerStands j) → AtOwner owners.new place (OwnerStands (more j scene.now.entry.now))) }
    ensures fired { OnOk result ((j : Journal) → AtOwner owners.old place (λ a. Shows scene.now j a.since) → A.sight answers.now ≡ sight (more j scene.now.entry.now) (length (more j scene.now.entry.now))
        → AtOwner owners.old place (OwnerStands j) → fired.new ≡ fired.old ++ firings_at j scene.now.entry.now owners.old place) }
    ensures elsewhere { OnOk result ((n : ℕ) → nat_eq place n ≡ false → slice_get owners.new n ≡ slice_get owners.old n) }
    ensures owners { map owner_of owners.new ≡ map owner_of owners.old }
{
    if place < owners.len() {
        note_at(alloc, scene, answers, place, owners, fired)
    } else {
        Ok(())
    }
}

/// The queue has the earliest due of an owner.
fn enqueue_one(queue: &mut TimerQueue, attached: &Attached) -> Result<(), AllocError>
    ensures here { OnOk result (HasDue queue.new attached.now) }
    ensures others { OnOk result ((n : ℕ) → nat_eq attached.now.owner n ≡ false → due_of n queue.new ≡ due_of n queue.old) }
{
    let owner = attached.owner;
    let present = queue.due(owner);
    retime(queue, owner, present, attached.timers.earliest())
}

/// The same, of the owner at a place, if there is one.
fn enqueue(queue: &mut TimerQueue, owners: &[Attached], place: usize) -> Result<(), AllocError>
    ensures here { OnOk result (AtOwner owners.now place (HasDue queue.new)) }
    ensures elsewhere { OnOk result (ascend (map owner_of owners.now) ≡ true → (n : ℕ) → nat_eq place n ≡ false
        → AtOwner owners.now n (HasDue queue.old) → AtOwner owners.now n (HasDue queue.new)) }
{
    if place < owners.len() {
        enqueue_one(queue, &owners[place])
    } else {
        Ok(())
    }
}

/// What the entry makes of the owners at these places; the others are as before.
fn note_some<A: Answers>(
    alloc: Global,
    scene: &Scene<'_>,
    answers: &A,
    places: Places,
    owners: &mut [Attached],
    queue: &mut TimerQueue,
    fired: &mut Many<Firing>,
) -> Result<(), AllocError>
    requires { scene.now.to ≤ last_moment }
    ensures stands { OnOk result ((j : Journal) → AllOwners owners.old (λ a. Shows scene.now j a.since) → A.sight answers.now ≡ sight (more j scene.now.entry.now) (length (more j scene.now.entry.now))
        → AllOwners owners.old (OwnerStands j) → ((n : ℕ) → has places n ≡ false → AtOwner owners.old n (OwnerStands (more j scene.now.entry.now)))
        → AllOwners owners.new (OwnerStands (more j scene.now.entry.now))) }
    ensures fired { OnOk result ((j : Journal) → AllOwners owners.old (λ a. Shows scene.now j a.since) → A.sight answers.now ≡ sight (more j scene.now.entry.now) (length (more j scene.now.entry.now))
        → AllOwners owners.old (OwnerStands j) → ((n : ℕ) → has places n ≡ false → firings_at j scene.now.entry.now owners.old n ≡ [])
        → fired.new ≡ fired.old ++ flat_map (firings_at j scene.now.entry.now owners.old) (up_to (length owners.old))) }
    ensures queued { OnOk result (ascend (map owner_of owners.old) ≡ true → ((n : ℕ) → has places n ≡ false → AtOwner owners.old n (HasDue queue.old))
        → AllOwners owners.new (HasDue queue.new)) }
    ensures owners { map owner_of owners.new ≡ map owner_of owners.old }
{
    let mut left = places;
    'places: while let Some(place) = left.pop_first() {
        note_there(alloc, scene, answers, place, owners, fired)?;
        enqueue(queue, owners, place)?;
    }
    Ok(())
}

/// What the entry makes of the owners whom it concerns; what fires is appended.
fn note_list<A: Answers>(
    alloc: Global,
    scene: &Scene<'_>,
    answers: &A,
    index: &Index,
    recent: &Recent,
    owners: &mut [Attached],
    queue: &mut TimerQueue,
    fired: &mut Many<Firing>,
) -> Result<(), AllocError>
    requires { scene.now.to ≤ last_moment }
    ensures stands { OnOk result ((j : Journal) → AllOwners owners.old (λ a. Shows scene.now j a.since) → A.sight answers.now ≡ sight (more j scene.now.entry.now) (length (more j scene.now.entry.now))
        → AllOwners owners.old (OwnerStands j) → AreKnown index.now (map owner_of owners.old) → AreNoted recent.now (length j) (map owner_of owners.old) → AllOwners owners.old (HasDue queue.old) → AllOwners owners.new (OwnerStands (more j scene.now.entry.now))) }
    ensures fired { OnOk result ((j : Journal) → AllOwners owners.old (λ a. Shows scene.now j a.since) → A.sight answers.now ≡ sight (more j scene.now.entry.now) (length (more j scene.now.entry.now))
        → AllOwners owners.old (OwnerStands j) → AreKnown index.now (map owner_of owners.old) → AreNoted recent.now (length j) (map owner_of owners.old) → AllOwners owners.old (HasDue queue.old)
        → fired.new ≡ fired.old ++ flat_map (firings_at j scene.now.entry.now owners.old) (up_to (length owners.old))) }
    ensures queued { OnOk result (ascend (map owner_of owners.old) ≡ true → AllOwners owners.old (HasDue queue.old) → AllOwners owners.new (HasDue queue.new)) }
    ensures owners { map owner_of owners.new ≡ map owner_of owners.old }
{
    let places = concerned(
        alloc,
        index,
        recent,
        scene.entry,
        scene.to,
        scene.shifts,
        scene.events,
        scene.near,
        owners,
        queue,
    )?;
    note_some(alloc, scene, answers, places, owners, queue, fired)
}

/// The same, of the owners where they are kept.
pub fn note_owners<A: Answers>(
    alloc: Global,
    scene: &Scene<'_>,
    answers: &A,
    index: &Index,
    recent: &Recent,
    owners: &mut Vec<Attached>,
    queue: &mut TimerQueue,
    fired: &mut Many<Firing>,
) -> Result<(), AllocError>
    requires { scene.now.to ≤ last_moment }
    ensures stands { OnOk result ((j : Journal) → AllOwners owners.old.items (λ a. Shows scene.now j a.since) → A.sight answers.now ≡ sight (more j scene.now.entry.now) (length (more j scene.now.entry.now))
        → AllOwners owners.old.items (OwnerStands j) → AreKnown index.now (map owner_of owners.old.items) → AreNoted recent.now (length j) (map owner_of owners.old.items) → AllOwners owners.old.items (HasDue queue.old)
        → AllOwners owners.new.items (OwnerStands (more j scene.now.entry.now))) }
    ensures fired { OnOk result ((j : Journal) → AllOwners owners.old.items (λ a. Shows scene.now j a.since) → A.sight answers.now ≡ sight (more j scene.now.entry.now) (length (more j scene.now.entry.now))
        → AllOwners owners.old.items (OwnerStands j) → AreKnown index.now (map owner_of owners.old.items) → AreNoted recent.now (length j) (map owner_of owners.old.items) → AllOwners owners.old.items (HasDue queue.old)
        → fired.new ≡ fired.old ++ firings (more j scene.now.entry.now) (length j) (map owner_of owners.old.items)) }
    ensures queued { OnOk result (ascend (map owner_of owners.old.items) ≡ true → AllOwners owners.old.items (HasDue queue.old) → AllOwners owners.new.items (HasDue queue.new)) }
    ensures owners { map owner_of owners.new.items ≡ map owner_of owners.old.items }
{
    note_list(
        alloc,
        scene,
        answers,
        index,
        recent,
        owners.as_mut_slice(),
        queue,
        fired,
    )
}
