//! Whom an index has: an owner is listed for what concerns its triggers.
ghost use Rattle.std.specs.Prelude.{◌≡◌, ◌&&◌, ◌||◌, ℕ, OnErr, OnOk, Some, false, nat_eq, not, true};
ghost use Rattle.std.specs.List.{list_any};
ghost use Rattle.std.specs.Option.{option_copied};
ghost use Rattle.event_bus.specs.Subjects.{Subject, concerns, knows, read_of};
ghost use Rattle.ha_sight.specs.Rules.{is_template};
ghost use Rattle.trig_set.specs.Known.{heed, heeds};
ghost use Rattle.trig_set.specs.Reads.{AreRead};

use crate::reads::read_at;
use event_bus::Index;
use ha_config::{Trigger, TriggerRule};
use ha_value::{EntityId, Many};
use std::alloc::{AllocError, Global};

/// Lists an owner for entities of one of its triggers.
fn list_entities(
    alloc: Global,
    index: &mut Index,
    rule: &TriggerRule,
    entities: &[EntityId],
    owner: u64,
) -> Result<(), AllocError>
    ensures own { OnOk result ((s : Subject) → knows index.new s owner ≡ (list_any (λ e. concerns rule.now (Some e) s) entities.now || knows index.old s owner)) }
    ensures part { (s : Subject) → knows index.new s owner ≡ true → (list_any (λ e. concerns rule.now (Some e) s) entities.now || knows index.old s owner) ≡ true }
    ensures others { (s : Subject) (n : ℕ) → nat_eq owner n ≡ false → knows index.new s n ≡ knows index.old s n }
{
    for place in 0..entities.len() {
        index.put(alloc, rule, Some(&entities[place]), owner)?;
    }
    Ok(())
}

/// Lists an owner for one of its triggers; `read` has the entities that its template reads.
fn list_trigger(
    alloc: Global,
    index: &mut Index,
    rule: &TriggerRule,
    read: Option<&Many<EntityId>>,
    owner: u64,
) -> Result<(), AllocError>
    requires { option_copied read ≡ read_of rule.now }
    ensures own { OnOk result ((s : Subject) → knows index.new s owner ≡ (heeds rule.now s || knows index.old s owner)) }
    ensures part { (s : Subject) → knows index.new s owner ≡ true → (heeds rule.now s || knows index.old s owner) ≡ true }
    ensures others { (s : Subject) (n : ℕ) → nat_eq owner n ≡ false → knows index.new s n ≡ knows index.old s n }
{
    match rule {
        TriggerRule::State { entities, .. } => {
            list_entities(alloc, index, rule, entities.as_slice(), owner)
        }
        TriggerRule::Numeric { entities, .. } => {
            list_entities(alloc, index, rule, entities.as_slice(), owner)
        }
        TriggerRule::Template(_) => index.put_read(alloc, read, owner),
        TriggerRule::Event { .. }
        | TriggerRule::Time(_)
        | TriggerRule::Pattern { .. }
        | TriggerRule::Start => index.put(alloc, rule, None, owner),
    }
}

/// Lists an owner for its triggers, each with what its template reads. After an error it may be listed for a part of them.
fn list_some(
    alloc: Global,
    index: &mut Index,
    triggers: &[Trigger],
    reads: &Many<Option<Many<EntityId>>>,
    owner: u64,
) -> Result<(), AllocError>
    requires { AreRead triggers.now reads.now }
    ensures own { OnOk result ((s : Subject) → knows index.new s owner ≡ (heed triggers.now s || knows index.old s owner)) }
    ensures part { (s : Subject) → knows index.new s owner ≡ true → (heed triggers.now s || knows index.old s owner) ≡ true }
    ensures others { (s : Subject) (n : ℕ) → nat_eq owner n ≡ false → knows index.new s n ≡ knows index.old s n }
{
    for place in 0..triggers.len() {
        list_trigger(
            alloc,
            index,
            &triggers[place].rule,
            read_at(reads, place),
            owner,
        )?;
    }
    Ok(())
}

/// Lists an owner for its triggers. After an error one that was not listed is not.
pub fn list(
    alloc: Global,
    index: &mut Index,
    triggers: &[Trigger],
    reads: &Many<Option<Many<EntityId>>>,
    owner: u64,
) -> Result<(), AllocError>
    requires { AreRead triggers.now reads.now }
    ensures own { OnOk result ((s : Subject) → knows index.new s owner ≡ (heed triggers.now s || knows index.old s owner)) }
    ensures err { OnErr result ((s : Subject) → knows index.old s owner ≡ false → knows index.new s owner ≡ false) }
    ensures others { (s : Subject) (n : ℕ) → nat_eq owner n ≡ false → knows index.new s n ≡ knows index.old s n }
{
    match list_some(alloc, index, triggers, reads, owner) {
        Ok(()) => Ok(()),
        Err(fault) => {
            unlist(index, triggers, reads, owner);
            Err(fault)
        }
    }
}

/// An owner is listed no more for entities of one of its triggers.
fn unlist_entities(index: &mut Index, rule: &TriggerRule, entities: &[EntityId], owner: u64)
    requires { is_template rule.now ≡ false }
    ensures own { (s : Subject) → knows index.new s owner ≡ (not (list_any (λ e. concerns rule.now (Some e) s) entities.now) && knows index.old s owner) }
    ensures others { (s : Subject) (n : ℕ) → nat_eq owner n ≡ false → knows index.new s n ≡ knows index.old s n }
{
    for place in 0..entities.len() {
        index.take(rule, Some(&entities[place]), owner);
    }
}

/// An owner is listed no more for one of its triggers.
fn unlist_trigger(index: &mut Index, rule: &TriggerRule, read: Option<&Many<EntityId>>, owner: u64)
    ensures own { option_copied read.entry ≡ read_of rule.now → (s : Subject) → knows index.new s owner ≡ (not (heeds rule.now s) && knows index.old s owner) }
    ensures others { (s : Subject) (n : ℕ) → nat_eq owner n ≡ false → knows index.new s n ≡ knows index.old s n }
{
    match rule {
        TriggerRule::State { entities, .. } => {
            unlist_entities(index, rule, entities.as_slice(), owner)
        }
        TriggerRule::Numeric { entities, .. } => {
            unlist_entities(index, rule, entities.as_slice(), owner)
        }
        TriggerRule::Template(_) => index.take_read(read, owner),
        TriggerRule::Event { .. }
        | TriggerRule::Time(_)
        | TriggerRule::Pattern { .. }
        | TriggerRule::Start => index.take(rule, None, owner),
    }
}

/// An owner is listed no more for its triggers.
pub fn unlist(
    index: &mut Index,
    triggers: &[Trigger],
    reads: &Many<Option<Many<EntityId>>>,
    owner: u64,
)
    ensures own { AreRead triggers.now reads.now → (s : Subject) → knows index.new s owner ≡ (not (heed triggers.now s) && knows index.old s owner) }
    ensures others { (s : Subject) (n : ℕ) → nat_eq owner n ≡ false → knows index.new s n ≡ knows index.old s n }
{
    for place in 0..triggers.len() {
        unlist_trigger(index, &triggers[place].rule, read_at(reads, place), owner);
    }
}
