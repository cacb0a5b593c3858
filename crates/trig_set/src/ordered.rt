//! The owners, in the order of their numbers.
ghost use Rattle.std.specs.Prelude.{◌≡◌, ◌≤◌, ◌++◌, ℕ, [], ◌∷◌, IfErr, IsNone, List, OnErr, OnOk, length, map, true};
ghost use Rattle.ha_clock.specs.Local.{last_moment};
ghost use Rattle.ha_journal.specs.declared.entry.Entry.{Entry};
ghost use Rattle.ha_journal.specs.Entries.{IsBoot};
ghost use Rattle.ha_journal.specs.Journal.{Journal, more};
ghost use Rattle.ha_journal.specs.Moves.{sight};
ghost use Rattle.ha_past.specs.Firings.{firings, owner_named, placed, without_owner};
ghost use Rattle.timer_queue.specs.Timers.{Timer, removed};
ghost use Rattle.trig_set.specs.Known.{AreKnown};
ghost use Rattle.trig_set.specs.Order.{ascend, owner_of};
ghost use Rattle.trig_set.specs.Noted.{AreNoted};
ghost use Rattle.trig_set.specs.Queued.{HasDue};
ghost use Rattle.trig_set.specs.Reads.{AreRead};
ghost use Rattle.trig_set.specs.Scenes.{Shows};
ghost use Rattle.trig_set.specs.Stands.{AllOwners, OwnerStands};

use crate::concerned::place_of;
use crate::noted::note_owners;
use crate::opening::open_owners;
use crate::owners::{Attached, unlist_owner};
use crate::recent::Recent;
use crate::scene::Scene;
use event_bus::Index;
use ha_journal::Firing;
use ha_sight::Answers;
use ha_value::Many;
use std::alloc::{AllocError, AllocFailed, Global};
use std::marker::Model;
use timer_queue::TimerQueue;

/// Owners, each of another number, in the order of their numbers: where one stands is found by halves.
#[derive(Drop)]
pub struct Owners {
    list: Vec<Attached>,
}

impl Model for Owners {
    ghost use Rattle.std.specs.Coded.{codes};
    ghost use Rattle.std.specs.Prelude.{◌≡◌, List, map, true};
    ghost use Rattle.ha_value.specs.contracts.value.Value as value;
    ghost use Rattle.ha_config.specs.contracts.template.Expr as expr;
    ghost use Rattle.ha_config.specs.contracts.template.Piece as piece;
    ghost use Rattle.ha_config.specs.contracts.template.Template as template;
    ghost use Rattle.trig_set.specs.declared.owners.Attached.{Attached};
    ghost use Rattle.trig_set.specs.Order.{ascend, owner_of};

    ghost Value = { List Attached };

    ghost coded = { Prim.hlevel (codes, value.the_row.coded, expr.the_row.coded, piece.the_row.coded, template.the_row.coded) };

    ghost view = { λ o. o.list.items };

    ghost invariant = { λ o. ascend (map owner_of o.list.items) ≡ true };
}

impl Owners {
    /// No owners.
    pub fn make(alloc: Global) -> Owners
        ensures { result ≡ [] }
    {
        Owners {
            list: Vec::new(alloc),
        }
    }

    /// Puts an owner in at its place. After an error, which hands it back, the owners are as before.
    pub fn put_in(&mut self, attached: Attached) -> Result<(), AllocFailed<Attached>>
        requires { IsNone (owner_named attached.owner (map owner_of self.old)) }
        ensures ok { OnOk result (map owner_of self.new ≡ placed (owner_of attached) (map owner_of self.old)) }
        ensures stands { OnOk result ((j : Journal) → AllOwners self.old (OwnerStands j) → OwnerStands j attached → AllOwners self.new (OwnerStands j)) }
        ensures queued { OnOk result ((queue : List Timer) → AllOwners self.old (HasDue queue) → HasDue queue attached → AllOwners self.new (HasDue queue)) }
        ensures err { OnErr result (self.new ≡ self.old) }
        ensures back { IfErr result (λ failed. failed.value ≡ attached) }
    {
        insert(&mut self.list, attached)
    }

    /// Takes an owner out, if it is there.
    pub fn take_out(&mut self, owner: u64)
        ensures rest { map owner_of self.new ≡ without_owner owner (map owner_of self.old) }
        ensures stands { (j : Journal) → AllOwners self.old (OwnerStands j) → AllOwners self.new (OwnerStands j) }
        ensures queued { (queue : List Timer) → AllOwners self.old (HasDue queue) → AllOwners self.new (HasDue (removed owner queue)) }
    {
        remove(&mut self.list, owner);
    }

    /// An owner, if it is there, is listed in an index no more; the others are as before.
    pub fn unlist(&self, index: &mut Index, owner: u64)
        ensures { AllOwners self.now (λ a. AreRead a.triggers a.reads) → AreKnown index.old (map owner_of self.now) → AreKnown index.new (without_owner owner (map owner_of self.now)) }
    {
        unlist_owner(index, self.list.as_slice(), owner);
    }

    /// What an entry makes of the owners whom it concerns; what fires is appended.
    pub fn note<A: Answers>(
        &mut self,
        alloc: Global,
        scene: &Scene<'_>,
        answers: &A,
        index: &Index,
        recent: &Recent,
        queue: &mut TimerQueue,
        fired: &mut Many<Firing>,
    ) -> Result<(), AllocError>
        requires { scene.now.to ≤ last_moment }
        ensures stands { OnOk result ((j : Journal) → AllOwners self.old (λ a. Shows scene.now j a.since) → A.sight answers.now ≡ sight (more j scene.now.entry.now) (length (more j scene.now.entry.now))
            → AllOwners self.old (OwnerStands j) → AreKnown index.now (map owner_of self.old) → AreNoted recent.now (length j) (map owner_of self.old) → AllOwners self.old (HasDue queue.old)
            → AllOwners self.new (OwnerStands (more j scene.now.entry.now))) }
        ensures fired { OnOk result ((j : Journal) → AllOwners self.old (λ a. Shows scene.now j a.since) → A.sight answers.now ≡ sight (more j scene.now.entry.now) (length (more j scene.now.entry.now))
            → AllOwners self.old (OwnerStands j) → AreKnown index.now (map owner_of self.old) → AreNoted recent.now (length j) (map owner_of self.old) → AllOwners self.old (HasDue queue.old)
            → fired.new ≡ fired.old ++ firings (more j scene.now.entry.now) (length j) (map owner_of self.old)) }
        ensures queued { OnOk result (ascend (map owner_of self.old) ≡ true → AllOwners self.old (HasDue queue.old) → AllOwners self.new (HasDue queue.new)) }
        ensures owners { map owner_of self.new ≡ map owner_of self.old }
    {
        note_owners(
            alloc,
            scene,
            answers,
            index,
            recent,
            &mut self.list,
            queue,
            fired,
        )
    }

    /// What an opening makes of all owners; what fires is appended.
    pub fn open_all<A: Answers>(
        &mut self,
        alloc: Global,
        answers: &A,
        fired: &mut Many<Firing>,
    ) -> Result<(), AllocError>
        ensures stands { OnOk result ((x : Entry) → IsBoot x → A.sight answers.now ≡ sight (x ∷ []) 1 → AllOwners self.old (OwnerStands []) → AllOwners self.new (OwnerStands (x ∷ []))) }
        ensures fired { OnOk result ((x : Entry) → IsBoot x → A.sight answers.now ≡ sight (x ∷ []) 1 → AllOwners self.old (OwnerStands []) → fired.new ≡ fired.old ++ firings (x ∷ []) 0 (map owner_of self.old)) }
        ensures queued { OnOk result ((queue : List Timer) → AllOwners self.old (HasDue queue) → AllOwners self.new (HasDue queue)) }
        ensures owners { map owner_of self.new ≡ map owner_of self.old }
    {
        open_owners(alloc, answers, &mut self.list, fired)
    }

    /// Takes all owners out.
    pub fn clear(&mut self)
        ensures { self.new ≡ [] }
    {
        self.list.clear();
    }
}

/// Puts an owner in at its place. After an error, which hands it back, the owners are as before.
fn insert(owners: &mut Vec<Attached>, attached: Attached) -> Result<(), AllocFailed<Attached>>
    requires order { ascend (map owner_of owners.old.items) ≡ true }
    requires fresh { IsNone (owner_named attached.owner (map owner_of owners.old.items)) }
    ensures ok { OnOk result (map owner_of owners.new.items ≡ placed (owner_of attached) (map owner_of owners.old.items)) }
    ensures stands { OnOk result ((j : Journal) → AllOwners owners.old.items (OwnerStands j) → OwnerStands j attached → AllOwners owners.new.items (OwnerStands j)) }
    ensures queued { OnOk result ((queue : List Timer) → AllOwners owners.old.items (HasDue queue) → HasDue queue attached → AllOwners owners.new.items (HasDue queue)) }
    ensures err { OnErr result (owners.new.items ≡ owners.old.items) }
    ensures back { IfErr result (λ failed. failed.value ≡ attached) }
    ensures order { ascend (map owner_of owners.new.items) ≡ true }
{
    let place = place_of(owners.as_slice(), attached.owner);
    match owners.insert(place, attached) {
        Ok(()) => Ok(()),
        Err(failed) => Err(failed),
    }
}

/// Takes an owner out, if it is there.
fn remove(owners: &mut Vec<Attached>, owner: u64)
    requires { ascend (map owner_of owners.old.items) ≡ true }
    ensures rest { map owner_of owners.new.items ≡ without_owner owner (map owner_of owners.old.items) }
    ensures stands { (j : Journal) → AllOwners owners.old.items (OwnerStands j) → AllOwners owners.new.items (OwnerStands j) }
    ensures queued { (queue : List Timer) → AllOwners owners.old.items (HasDue queue) → AllOwners owners.new.items (HasDue (removed owner queue)) }
    ensures order { ascend (map owner_of owners.new.items) ≡ true }
{
    let place = place_of(owners.as_slice(), owner);
    if place < owners.len() && owners[place].owner == owner {
        owners.remove(place);
    }
}
