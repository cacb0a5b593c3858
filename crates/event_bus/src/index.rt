//! The numbers of owners, by what concerns their triggers.
ghost use Rattle.std.specs.Prelude.{◌≡◌, ◌&&◌, ◌||◌, ℕ, OnErr, OnOk, false, nat_eq, not, true};
ghost use Rattle.std.specs.Option.{option_copied, option_map, option_map_or};
ghost use Rattle.ha_config.specs.Words.{Text, one_of};
ghost use Rattle.event_bus.specs.Lists.{has, has_at};
ghost use Rattle.ha_sight.specs.Rules.{is_template};
ghost use Rattle.tpl_reads.specs.Reads.{entities_read as entities_read_lem};
ghost use Rattle.event_bus.specs.Subjects.{Subject, by_entity, by_entries, by_kinds, by_moments, by_read, concerns, knows};

use crate::lists::{
    Lists, at_place, put, put_at, put_each, put_for, take, take_at, take_each, take_for,
};
use ha_config::{Template, TriggerRule};
use ha_value::{EntityId, Many, Word};
use indexmap::IndexMap;
use std::alloc::{AllocError, Global};
use std::collections::BTreeSet;
use tpl_reads::entities_read;

/// Owners of triggers, by number: those of state and numeric triggers by entity, and those of templates by the entities that these read;
/// of event triggers by type, of triggers on times, and of templates whose entities are not known, which each entry concerns.
#[derive(Drop)]
pub struct Index {
    pub entities: Lists,
    pub events: Lists,
    pub moments: BTreeSet<u64>,
    pub entries: BTreeSet<u64>,
}

/// Puts a number under names.
fn put_names(
    alloc: Global,
    lists: &mut Lists,
    names: &[Word],
    number: u64,
) -> Result<(), AllocError>
    ensures own { OnOk result ((q : Text) → has_at lists.new q number ≡ (one_of q names.now || has_at lists.old q number)) }
    ensures part { (q : Text) → has_at lists.new q number ≡ true → (one_of q names.now || has_at lists.old q number) ≡ true }
    ensures kept { (q : Text) → has_at lists.old q number ≡ true → has_at lists.new q number ≡ true }
    ensures others { (q : Text) (n : ℕ) → nat_eq number n ≡ false → has_at lists.new q n ≡ has_at lists.old q n }
{
    for at in 0..names.len() {
        put_at(alloc, lists, names[at].as_str(), number)?;
    }
    Ok(())
}

/// Takes a number from under names.
fn take_names(lists: &mut Lists, names: &[Word], number: u64)
    ensures own { (q : Text) → has_at lists.new q number ≡ (not (one_of q names.now) && has_at lists.old q number) }
    ensures others { (q : Text) (n : ℕ) → nat_eq number n ≡ false → has_at lists.new q n ≡ has_at lists.old q n }
{
    for at in 0..names.len() {
        take_at(lists, names[at].as_str(), number);
    }
}

impl Index {
    /// Nobody.
    pub fn make(alloc: Global) -> Index
        ensures { (s : Subject) (n : ℕ) → knows result s n ≡ false }
    {
        Index {
            entities: IndexMap::new(alloc),
            events: IndexMap::new(alloc),
            moments: BTreeSet::new(alloc),
            entries: BTreeSet::new(alloc),
        }
    }

    /// An owner is concerned by an entity; by each entry where the trigger has none.
    fn put_entity(
        &mut self,
        alloc: Global,
        entity: Option<&EntityId>,
        owner: u64,
    ) -> Result<(), AllocError>
        ensures own { OnOk result ((s : Subject) → knows self.new s owner ≡ (by_entity (option_copied entity.entry) s || knows self.old s owner)) }
        ensures others { (s : Subject) (n : ℕ) → nat_eq owner n ≡ false → knows self.new s n ≡ knows self.old s n }
        ensures err { OnErr result ((s : Subject) (n : ℕ) → knows self.new s n ≡ knows self.old s n) }
    {
        match entity {
            Some(entity) => put_for(alloc, &mut self.entities, entity, owner),
            None => put(&mut self.entries, owner),
        }
    }

    /// An owner is concerned by these types of events.
    fn put_kinds(&mut self, alloc: Global, kinds: &[Word], owner: u64) -> Result<(), AllocError>
        ensures own { OnOk result ((s : Subject) → knows self.new s owner ≡ (by_kinds kinds.now s || knows self.old s owner)) }
        ensures part { (s : Subject) → knows self.new s owner ≡ true → (by_kinds kinds.now s || knows self.old s owner) ≡ true }
        ensures kept { (s : Subject) → knows self.old s owner ≡ true → knows self.new s owner ≡ true }
        ensures others { (s : Subject) (n : ℕ) → nat_eq owner n ≡ false → knows self.new s n ≡ knows self.old s n }
    {
        put_names(alloc, &mut self.events, kinds, owner)
    }

    /// An owner is concerned by moments.
    fn put_moments(&mut self, owner: u64) -> Result<(), AllocError>
        ensures own { OnOk result ((s : Subject) → knows self.new s owner ≡ (by_moments s || knows self.old s owner)) }
        ensures others { (s : Subject) (n : ℕ) → nat_eq owner n ≡ false → knows self.new s n ≡ knows self.old s n }
        ensures err { OnErr result ((s : Subject) (n : ℕ) → knows self.new s n ≡ knows self.old s n) }
    {
        put(&mut self.moments, owner)
    }

    /// An owner is concerned by each entry.
    fn put_entries(&mut self, owner: u64) -> Result<(), AllocError>
        ensures own { OnOk result ((s : Subject) → knows self.new s owner ≡ (by_entries s || knows self.old s owner)) }
        ensures others { (s : Subject) (n : ℕ) → nat_eq owner n ≡ false → knows self.new s n ≡ knows self.old s n }
        ensures err { OnErr result ((s : Subject) (n : ℕ) → knows self.new s n ≡ knows self.old s n) }
    {
        put(&mut self.entries, owner)
    }

    /// An owner is concerned by the entities that a template reads; by each entry where they are not known. After an error it may be
    /// concerned by a part of them.
    pub fn put_read(
        &mut self,
        alloc: Global,
        read: Option<&Many<EntityId>>,
        owner: u64,
    ) -> Result<(), AllocError>
        ensures own { OnOk result ((s : Subject) → knows self.new s owner ≡ (by_read (option_copied read.entry) s || knows self.old s owner)) }
        ensures part { (s : Subject) → knows self.new s owner ≡ true → (by_read (option_copied read.entry) s || knows self.old s owner) ≡ true }
        ensures kept { (s : Subject) → knows self.old s owner ≡ true → knows self.new s owner ≡ true }
        ensures others { (s : Subject) (n : ℕ) → nat_eq owner n ≡ false → knows self.new s n ≡ knows self.old s n }
    {
        match read {
            Some(entities) => put_each(alloc, &mut self.entities, entities.as_slice(), owner),
            None => self.put_entries(owner),
        }
    }

    /// The same, of this template.
    fn put_template(
        &mut self,
        alloc: Global,
        template: &Template,
        owner: u64,
    ) -> Result<(), AllocError>
        ensures own { OnOk result ((s : Subject) → knows self.new s owner ≡ (by_read (entities_read_lem template.now) s || knows self.old s owner)) }
        ensures part { (s : Subject) → knows self.new s owner ≡ true → (by_read (entities_read_lem template.now) s || knows self.old s owner) ≡ true }
        ensures kept { (s : Subject) → knows self.old s owner ≡ true → knows self.new s owner ≡ true }
        ensures others { (s : Subject) (n : ℕ) → nat_eq owner n ≡ false → knows self.new s n ≡ knows self.old s n }
    {
        let read = entities_read(alloc, template)?;
        self.put_read(alloc, read.as_ref(), owner)
    }

    /// An owner has a trigger with this rule, for the entity if it has some. After an error the owner is known for what it was known for,
    /// and may be for a part of that trigger; the others are as before.
    pub fn put(
        &mut self,
        alloc: Global,
        rule: &TriggerRule,
        entity: Option<&EntityId>,
        owner: u64,
    ) -> Result<(), AllocError>
        ensures own { OnOk result ((s : Subject) → knows self.new s owner ≡ (concerns rule.now (option_copied entity.entry) s || knows self.old s owner)) }
        ensures part { (s : Subject) → knows self.new s owner ≡ true → (concerns rule.now (option_copied entity.entry) s || knows self.old s owner) ≡ true }
        ensures kept { (s : Subject) → knows self.old s owner ≡ true → knows self.new s owner ≡ true }
        ensures others { (s : Subject) (n : ℕ) → nat_eq owner n ≡ false → knows self.new s n ≡ knows self.old s n }
    {
        match rule {
            TriggerRule::State { .. } => self.put_entity(alloc, entity, owner),
            TriggerRule::Numeric { .. } => self.put_entity(alloc, entity, owner),
            TriggerRule::Event { kinds, .. } => self.put_kinds(alloc, kinds.as_slice(), owner),
            TriggerRule::Time(_) => self.put_moments(owner),
            TriggerRule::Pattern { .. } => self.put_moments(owner),
            TriggerRule::Template(template) => match entity {
                Some(_) => self.put_entries(owner),
                None => self.put_template(alloc, template, owner),
            },
            TriggerRule::Start => Ok(()),
        }
    }

    /// An owner is no more concerned by an entity; by each entry where the trigger has none.
    fn take_entity(&mut self, entity: Option<&EntityId>, owner: u64)
        ensures own { (s : Subject) → knows self.new s owner ≡ (not (by_entity (option_copied entity.entry) s) && knows self.old s owner) }
        ensures others { (s : Subject) (n : ℕ) → nat_eq owner n ≡ false → knows self.new s n ≡ knows self.old s n }
    {
        match entity {
            Some(entity) => take_for(&mut self.entities, entity, owner),
            None => take(&mut self.entries, owner),
        }
    }

    /// An owner is no more concerned by these types of events.
    fn take_kinds(&mut self, kinds: &[Word], owner: u64)
        ensures own { (s : Subject) → knows self.new s owner ≡ (not (by_kinds kinds.now s) && knows self.old s owner) }
        ensures others { (s : Subject) (n : ℕ) → nat_eq owner n ≡ false → knows self.new s n ≡ knows self.old s n }
    {
        take_names(&mut self.events, kinds, owner);
    }

    /// An owner is no more concerned by moments.
    fn take_moments(&mut self, owner: u64)
        ensures own { (s : Subject) → knows self.new s owner ≡ (not (by_moments s) && knows self.old s owner) }
        ensures others { (s : Subject) (n : ℕ) → nat_eq owner n ≡ false → knows self.new s n ≡ knows self.old s n }
    {
        take(&mut self.moments, owner);
    }

    /// An owner is no more concerned by each entry.
    fn take_entries(&mut self, owner: u64)
        ensures own { (s : Subject) → knows self.new s owner ≡ (not (by_entries s) && knows self.old s owner) }
        ensures others { (s : Subject) (n : ℕ) → nat_eq owner n ≡ false → knows self.new s n ≡ knows self.old s n }
    {
        take(&mut self.entries, owner);
    }

    /// An owner is no more concerned by the entities that a template reads; by each entry where they are not known. It takes no memory, so
    /// the entities are lent.
    pub fn take_read(&mut self, read: Option<&Many<EntityId>>, owner: u64)
        ensures own { (s : Subject) → knows self.new s owner ≡ (not (by_read (option_copied read.entry) s) && knows self.old s owner) }
        ensures others { (s : Subject) (n : ℕ) → nat_eq owner n ≡ false → knows self.new s n ≡ knows self.old s n }
    {
        match read {
            Some(entities) => take_each(&mut self.entities, entities.as_slice(), owner),
            None => self.take_entries(owner),
        }
    }

    /// An owner has no trigger with this rule, which is no template, for the entity if it has some, any more. The others are as before.
    pub fn take(&mut self, rule: &TriggerRule, entity: Option<&EntityId>, owner: u64)
        requires { is_template rule.now ≡ false }
        ensures own { (s : Subject) → knows self.new s owner ≡ (not (concerns rule.now (option_copied entity.entry) s) && knows self.old s owner) }
        ensures others { (s : Subject) (n : ℕ) → nat_eq owner n ≡ false → knows self.new s n ≡ knows self.old s n }
    {
        match rule {
            TriggerRule::State { .. } => self.take_entity(entity, owner),
            TriggerRule::Numeric { .. } => self.take_entity(entity, owner),
            TriggerRule::Event { kinds, .. } => self.take_kinds(kinds.as_slice(), owner),
            TriggerRule::Time(_) => self.take_moments(owner),
            TriggerRule::Pattern { .. } => self.take_moments(owner),
            TriggerRule::Template(_) => unreachable!(),
            TriggerRule::Start => {}
        }
    }

    /// The owners that an entity concerns, in order, if it is known.
    pub fn of_entity(&self, entity: &EntityId) -> Option<&BTreeSet<u64>>
        ensures { (n : ℕ) → option_map_or (λ set. has set n) (option_copied result) false ≡ knows self.now (Subject.Entity entity.now) n }
    {
        self.entities.get(entity.text())
    }

    /// The same, with their place among the lists of all entities.
    pub fn find_entity(&self, entity: &EntityId) -> Option<(usize, &BTreeSet<u64>)>
        ensures { (n : ℕ) → option_map_or (λ set. has set n) (option_map (λ found. found.1.now) result) false ≡ knows self.now (Subject.Entity entity.now) n }
    {
        match self.entities.get_full(entity.text()) {
            Some(found) => Some((found.0, found.2)),
            None => None,
        }
    }

    /// The owners that an entity concerns, as above. They are looked for at that place first, and found at once where they stand there.
    pub fn of_entity_near(&self, entity: &EntityId, place: usize) -> Option<&BTreeSet<u64>>
        ensures { (n : ℕ) → option_map_or (λ set. has set n) (option_copied result) false ≡ knows self.now (Subject.Entity entity.now) n }
    {
        match at_place(&self.entities, place, entity.text()) {
            Some(listed) => Some(listed),
            None => self.of_entity(entity),
        }
    }

    /// The owners that an event of a type concerns, in order, if the type is known.
    pub fn of_event(&self, kind: &Word) -> Option<&BTreeSet<u64>>
        ensures { (n : ℕ) → option_map_or (λ set. has set n) (option_copied result) false ≡ knows self.now (Subject.Event kind.now) n }
    {
        self.events.get(kind.as_str())
    }

    /// Nobody is left.
    pub fn clear(&mut self)
        ensures { (s : Subject) (n : ℕ) → knows self.new s n ≡ false }
    {
        self.entities.clear();
        self.events.clear();
        self.moments.clear();
        self.entries.clear();
    }
}
