//! One owner of triggers, with what is kept for it.
ghost use Rattle.std.specs.Prelude.{◌≡◌, ◌≤◌, ◌<◌, ◌++◌, ◌&&◌, ℕ, List, IfOk, IsTrue, OnOk, length, map, false, nat_eq, not, slice_get};
ghost use Rattle.ha_clock.specs.Local.{last_moment};
ghost use Rattle.ha_journal.specs.Journal.{Journal, more};
ghost use Rattle.ha_config.specs.Sound.{are_sound_triggers};
ghost use Rattle.ha_journal.specs.Moves.{sight};
ghost use Rattle.timer_queue.specs.Timers.{Timer};
ghost use Rattle.ha_past.specs.Firings.{firings_of, without_owner};
ghost use Rattle.event_bus.specs.Subjects.{Subject, knows};
ghost use Rattle.trig_set.specs.Known.{AreKnown, heed};
ghost use Rattle.trig_set.specs.Queued.{HasDue};
ghost use Rattle.trig_set.specs.Order.{owner_of};
ghost use Rattle.trig_set.specs.Reads.{AreRead};
ghost use Rattle.trig_set.specs.Stands.{AllOwners, AtOwner, OwnerStands, firings_at};
ghost use Rattle.trig_set.specs.Scenes.{Shows};

use crate::attached::note_spots;
use crate::blank::add_triggers;
use crate::concerned::place_of;
use crate::listed::unlist;
use crate::many_spots::{Listed, list_many, note_listed};
use crate::reads::reads_of;
use crate::scene::Scene;
use crate::spot::Spot;
use event_bus::Index;
use ha_config::Trigger;
use ha_journal::Firing;
use ha_sight::Answers;
use ha_value::{EntityId, Many, Plain};
use std::alloc::{AllocError, Global};
use timer_queue::TimerQueue;

/// The triggers of an owner, with what is kept for each of them and each of its entities.
#[derive(Drop)]
pub struct Attached {
    pub owner: u64,
    /// They fire at entries after this one.
    pub since: u64,
    pub triggers: Many<Trigger>,
    pub spots: Vec<Spot>,
    /// The dues of the pending holds, each under the place of its spot.
    pub timers: TimerQueue,
    /// Where a trigger has many entities: the places of the spots, by what concerns them.
    pub listed: Option<Listed>,
    /// Of each trigger the entities that its template reads, where it has one and they are known: to be detached takes no memory.
    pub reads: Many<Option<Many<EntityId>>>,
}

/// What the entry makes of an owner; what fires is appended.
fn note_one<A: Answers>(
    alloc: Global,
    scene: &Scene<'_>,
    answers: &A,
    attached: &mut Attached,
    fired: &mut Many<Firing>,
) -> Result<(), AllocError>
    requires { scene.now.to ≤ last_moment }
    ensures stands { OnOk result ((j : Journal) → Shows scene.now j attached.old.since → A.sight answers.now ≡ sight (more j scene.now.entry.now) (length (more j scene.now.entry.now))
        → OwnerStands j attached.old → OwnerStands (more j scene.now.entry.now) attached.new) }
    ensures fired { OnOk result ((j : Journal) → Shows scene.now j attached.old.since → A.sight answers.now ≡ sight (more j scene.now.entry.now) (length (more j scene.now.entry.now))
        → OwnerStands j attached.old → fired.new ≡ fired.old ++ firings_of (more j scene.now.entry.now) (length j) (owner_of attached.old)) }
    ensures same { owner_of attached.new ≡ owner_of attached.old }
{
    match &attached.listed {
        Some(listed) => note_listed(
            alloc,
            scene,
            answers,
            attached.owner,
            attached.since,
            &attached.triggers,
            listed,
            attached.spots.as_mut_slice(),
            &mut attached.timers,
            fired,
        ),
        None => note_spots(
            alloc,
            scene,
            answers,
            attached.owner,
            attached.since,
            &attached.triggers,
            attached.spots.as_mut_slice(),
            &mut attached.timers,
            fired,
        ),
    }
}

/// The same, of the owner at a place of the list.
pub fn note_at<A: Answers>(
    alloc: Global,
    scene: &Scene<'_>,
    answers: &A,
    place: usize,
    owners: &mut [Attached],
    fired: &mut Many<Firing>,
) -> Result<(), AllocError>
    requires in_time { scene.now.to ≤ last_moment }
    requires within { place < length owners.old }
    ensures stands { OnOk result ((j : Journal) → AtOwner owners.old place (λ a. Shows scene.now j a.since) → A.sight answers.now ≡ sight (more j scene.now.entry.now) (length (more j scene.now.entry.now))
        → AtOwner owners.old place (OwnerStands j) → AtOwner owners.new place (OwnerStands (more j scene.now.entry.now))) }
    ensures fired { OnOk result ((j : Journal) → AtOwner owners.old place (λ a. Shows scene.now j a.since) → A.sight answers.now ≡ sight (more j scene.now.entry.now) (length (more j scene.now.entry.now))
        → AtOwner owners.old place (OwnerStands j) → fired.new ≡ fired.old ++ firings_at j scene.now.entry.now owners.old place) }
    ensures elsewhere { OnOk result ((n : ℕ) → nat_eq place n ≡ false → slice_get owners.new n ≡ slice_get owners.old n) }
    ensures owners { map owner_of owners.new ≡ map owner_of owners.old }
{
    note_one(alloc, scene, answers, &mut owners[place], fired)
}

/// An owner is listed no more, under this number, for the triggers that are kept.
pub fn unlist_attached(index: &mut Index, attached: &Attached, owner: u64)
    ensures own { AreRead attached.now.triggers attached.now.reads → (s : Subject) → knows index.new s owner ≡ (not (heed attached.now.triggers s) && knows index.old s owner) }
    ensures others { (s : Subject) (n : ℕ) → nat_eq owner n ≡ false → knows index.new s n ≡ knows index.old s n }
{
    unlist(index, attached.triggers.as_slice(), &attached.reads, owner);
}

/// What is kept for triggers that are attached: nothing is pending.
pub fn fresh(
    alloc: Global,
    owner: u64,
    triggers: &Many<Trigger>,
    since: u64,
) -> Result<Attached, AllocError>
    requires { IsTrue (are_sound_triggers triggers.now) }
    ensures owner { IfOk result (λ a. owner_of a ≡ record { owner = owner; triggers = triggers.now; since = since }) }
    ensures stands { IfOk result (λ a. (j : Journal) → length j ≤ since → OwnerStands j a) }
    ensures due { IfOk result (λ a. (queue : List Timer) → HasDue queue a) }
    ensures reads { IfOk result (λ a. AreRead a.triggers a.reads) }
{
    let mut spots = Vec::new(alloc);
    add_triggers(alloc, triggers.as_slice(), &mut spots)?;
    let listed = list_many(alloc, triggers, spots.as_slice())?;
    let reads = reads_of(alloc, triggers)?;
    Ok(Attached {
        owner,
        since,
        triggers: triggers.copy(alloc)?,
        spots,
        timers: TimerQueue::make(alloc),
        listed,
        reads,
    })
}

/// An owner, if it is there, is listed in an index no more; the others are as before.
pub fn unlist_owner(index: &mut Index, owners: &[Attached], owner: u64)
    ensures { AllOwners owners.now (λ a. AreRead a.triggers a.reads) → AreKnown index.old (map owner_of owners.now) → AreKnown index.new (without_owner owner (map owner_of owners.now)) }
{
    let place = place_of(owners, owner);
    if place < owners.len() && owners[place].owner == owner {
        unlist_attached(index, &owners[place], owner);
    }
}
