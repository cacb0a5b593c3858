//! Owners that no entry was noted with: they are asked at the next one, whatever it changes.
ghost use Rattle.std.specs.Prelude.{◌≡◌, ◌↔◌, ◌≤◌, ◌<◌, ℕ, false, true, List, [], OnErr, OnOk, nat_eq};
ghost use Rattle.event_bus.specs.Lists.{has};
ghost use Rattle.ha_config.specs.declared.config.Trigger.{Trigger as Rule};
ghost use Rattle.ha_past.specs.Firings.{Owner, placed};
ghost use Rattle.trig_set.specs.Noted.{AreNoted};

use crate::left::is_empty;
use std::alloc::{AllocError, Global};
use std::collections::BTreeSet;

/// The numbers of owners, and the latest place at which one was attached.
#[derive(Drop)]
pub struct Recent {
    pub owners: BTreeSet<u64>,
    pub latest: u64,
}

/// Puts an owner in. After an error the set is as before.
fn put_in(set: &mut BTreeSet<u64>, owner: u64) -> Result<(), AllocError>
    ensures own { OnOk result (has set.new owner ≡ true) }
    ensures others { (n : ℕ) → nat_eq owner n ≡ false → has set.new n ≡ has set.old n }
    ensures err { OnErr result ((n : ℕ) → has set.new n ≡ has set.old n) }
{
    match set.insert(owner) {
        Ok(_) => Ok(()),
        Err(_) => Err(AllocError),
    }
}

/// Whether nobody was attached behind a place.
fn is_over(latest: u64, place: u64) -> bool
    ensures { result ≡ true → latest ≤ place }
{
    latest <= place
}

/// The later of two places.
fn later(left: u64, right: u64) -> u64
    ensures left { left ≤ result }
    ensures right { right ≤ result }
{
    if left < right { right } else { left }
}

impl Recent {
    /// Nobody.
    pub fn make(alloc: Global) -> Recent
        ensures { (place : ℕ) → AreNoted result place [] }
    {
        Recent {
            owners: BTreeSet::new(alloc),
            latest: 0,
        }
    }

    /// Puts in an owner that is attached at a place. After an error all are as before.
    pub fn put(&mut self, owner: u64, since: u64) -> Result<(), AllocError>
        ensures same { (place : ℕ) (owners : List Owner) → AreNoted self.old place owners → AreNoted self.new place owners }
        ensures ok { OnOk result ((place : ℕ) (owners : List Owner) (triggers : List Rule) → AreNoted self.old place owners
            → AreNoted self.new place (placed (record { owner = owner; triggers = triggers; since = since }) owners)) }
    {
        let latest = later(self.latest, since);
        put_in(&mut self.owners, owner)?;
        self.latest = latest;
        Ok(())
    }

    /// The entry at a place is noted with those who were attached up to that place.
    pub fn note(&mut self, place: u64)
        ensures { (next : ℕ) (owners : List Owner) → place < next → AreNoted self.old place owners → AreNoted self.new next owners }
    {
        if is_over(self.latest, place) {
            self.owners.clear();
        }
    }

    /// Whether there is nobody.
    pub fn is_empty(&self) -> bool
        ensures { (result ≡ true) ↔ ((n : ℕ) → has self.now.owners n ≡ false) }
    {
        is_empty(&self.owners)
    }

    /// Nobody is left.
    pub fn clear(&mut self)
        ensures { (place : ℕ) → AreNoted self.new place [] }
    {
        self.owners.clear();
        self.latest = 0;
    }
}
