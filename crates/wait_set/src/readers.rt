//! What the templates of pending waits read.
ghost use Rattle.std.specs.Prelude.{◌≡◌, ◌&&◌, [], ℕ, None, OnErr, OnOk, Some, false, nat_eq, not};
ghost use Rattle.event_bus.specs.Subjects.{Subject, by_read, knows};
ghost use Rattle.tpl_reads.specs.Reads.{entities_read as entities_read_lem};
ghost use Rattle.wait_set.specs.Concern.{has};
ghost use Rattle.wait_set.specs.Readers.{AreIndexed, hears, read_by};

use event_bus::Index;
use ha_config::Template;
use ha_value::{EntityId, Many};
use std::alloc::{AllocError, Global};
use std::collections::{BTreeMap, BTreeSet};
use std::marker::Model;
use tpl_reads::entities_read;

/// What the template of each pending wait that asks one reads, under the wait's owner; and who reads an entity.
#[derive(Drop)]
pub struct Readers {
    /// None where not all entities are written in the template.
    reads: BTreeMap<u64, Option<Many<EntityId>>>,
    index: Index,
}

impl Model for Readers {
    ghost use Rattle.std.specs.Coded.{codes};
    ghost use Rattle.event_bus.specs.Subjects.{knows};
    ghost use Rattle.wait_set.specs.Readers.{AreIndexed, Reads};

    ghost Value = { Reads };

    ghost coded = { Prim.hlevel (codes) };

    ghost view = { λ r. r.reads.entries };

    ghost invariant = { λ r. AreIndexed r.reads.entries (knows r.index) };
}

impl Readers {
    /// Nobody reads.
    pub fn make(alloc: Global) -> Readers
        ensures { result ≡ [] }
    {
        Readers {
            reads: BTreeMap::new(alloc),
            index: Index::make(alloc),
        }
    }

    /// The owner's wait asks this template. After an error the others are as before.
    pub fn put(&mut self, alloc: Global, owner: u64, template: &Template) -> Result<(), AllocError>
        ensures own { OnOk result (read_by owner self.new ≡ Some (entities_read_lem template.now)) }
        ensures others { (n : ℕ) → nat_eq owner n ≡ false → read_by n self.new ≡ read_by n self.old }
    {
        let read = entities_read(alloc, template)?;
        take_out(&mut self.reads, &mut self.index, owner);
        put_in(alloc, &mut self.reads, &mut self.index, owner, read)
    }

    /// The owner's wait asks no template any more. Takes no memory.
    pub fn take(&mut self, owner: u64)
        ensures gone { read_by owner self.new ≡ None }
        ensures others { (n : ℕ) → nat_eq owner n ≡ false → read_by n self.new ≡ read_by n self.old }
    {
        take_out(&mut self.reads, &mut self.index, owner);
    }

    /// Adds those whose templates' entities are not known.
    pub fn add_unknown(&self, owners: &mut BTreeSet<u64>) -> Result<(), AllocError>
        ensures kept { OnOk result ((n : ℕ) → has owners.new n ≡ false → has owners.old n ≡ false) }
        ensures added { OnOk result ((n : ℕ) → has owners.new n ≡ false → hears Subject.Entries (read_by n self.now) ≡ false) }
    {
        put_all(&self.index.entries, owners)?;
        Ok(())
    }

    /// Adds those whose templates read an entity.
    pub fn add_readers(
        &self,
        entity: &EntityId,
        owners: &mut BTreeSet<u64>,
    ) -> Result<(), AllocError>
        ensures kept { OnOk result ((n : ℕ) → has owners.new n ≡ false → has owners.old n ≡ false) }
        ensures added { OnOk result ((n : ℕ) → has owners.new n ≡ false → hears (Subject.Entity entity.now) (read_by n self.now) ≡ false) }
    {
        let Some(readers) = self.index.of_entity(entity) else {
            return Ok(());
        };
        put_all(readers, owners)?;
        Ok(())
    }
}

/// Puts an owner in.
pub fn put(owners: &mut BTreeSet<u64>, owner: u64) -> Result<(), AllocError>
    ensures kept { OnOk result ((n : ℕ) → has owners.new n ≡ false → has owners.old n ≡ false) }
    ensures apart { OnOk result ((n : ℕ) → has owners.new n ≡ false → nat_eq owner n ≡ false) }
{
    owners.insert(owner)?;
    Ok(())
}

/// Puts all of these in.
fn put_all(more: &BTreeSet<u64>, owners: &mut BTreeSet<u64>) -> Result<(), AllocError>
    ensures kept { OnOk result ((n : ℕ) → has owners.new n ≡ false → has owners.old n ≡ false) }
    ensures added { OnOk result ((n : ℕ) → has owners.new n ≡ false → has more.now n ≡ false) }
{
    'more: for owner in more.iter() {
        put(owners, *owner)?;
    }
    Ok(())
}

/// An owner is known for what its template reads. After an error it is not known.
fn list(
    alloc: Global,
    index: &mut Index,
    read: &Option<Many<EntityId>>,
    owner: u64,
) -> Result<(), AllocError>
    requires { (s : Subject) → knows index.old s owner ≡ false }
    ensures own { OnOk result ((s : Subject) → knows index.new s owner ≡ by_read read.now s) }
    ensures err { OnErr result ((s : Subject) → knows index.new s owner ≡ false) }
    ensures others { (s : Subject) (n : ℕ) → nat_eq owner n ≡ false → knows index.new s n ≡ knows index.old s n }
{
    match index.put_read(alloc, read.as_ref(), owner) {
        Ok(()) => Ok(()),
        Err(fault) => {
            unlist(index, read, owner);
            Err(fault)
        }
    }
}

/// It is known for that no more.
fn unlist(index: &mut Index, read: &Option<Many<EntityId>>, owner: u64)
    ensures own { (s : Subject) → knows index.new s owner ≡ (not (by_read read.now s) && knows index.old s owner) }
    ensures others { (s : Subject) (n : ℕ) → nat_eq owner n ≡ false → knows index.new s n ≡ knows index.old s n }
{
    index.take_read(read.as_ref(), owner);
}

/// Puts in what the template of an owner reads that had none. After an error it has none.
fn put_in(
    alloc: Global,
    reads: &mut BTreeMap<u64, Option<Many<EntityId>>>,
    index: &mut Index,
    owner: u64,
    read: Option<Many<EntityId>>,
) -> Result<(), AllocError>
    requires indexed { AreIndexed reads.old.entries (knows index.old) }
    requires none { read_by owner reads.old.entries ≡ None }
    ensures indexed { AreIndexed reads.new.entries (knows index.new) }
    ensures own { OnOk result (read_by owner reads.new.entries ≡ Some read) }
    ensures others { (n : ℕ) → nat_eq owner n ≡ false → read_by n reads.new.entries ≡ read_by n reads.old.entries }
{
    list(alloc, index, &read, owner)?;
    match reads.insert(owner, read) {
        Ok(_) => Ok(()),
        Err(failed) => {
            unlist(index, &failed.value.1, owner);
            Err(AllocError)
        }
    }
}

/// Takes an owner out, if it is there.
fn take_out(reads: &mut BTreeMap<u64, Option<Many<EntityId>>>, index: &mut Index, owner: u64)
    requires { AreIndexed reads.old.entries (knows index.old) }
    ensures indexed { AreIndexed reads.new.entries (knows index.new) }
    ensures gone { read_by owner reads.new.entries ≡ None }
    ensures others { (n : ℕ) → nat_eq owner n ≡ false → read_by n reads.new.entries ≡ read_by n reads.old.entries }
{
    match reads.remove(&owner) {
        Some(read) => unlist(index, &read, owner),
        None => {}
    }
}
