//! Numbers by name, each name with those that stand under it, in order.
ghost use Rattle.std.specs.Prelude.{◌≡◌, ◌&&◌, ◌||◌, ℕ, IfOk, IfSome, OnErr, OnOk, Some, false, nat_eq, not, string_bytes, true};
ghost use Rattle.std.specs.HashMap.{get_by_text};
ghost use Rattle.std.specs.List.{list_any};
ghost use Rattle.ha_value.specs.declared.value.EntityId.{EntityId as Entity};
ghost use Rattle.ha_config.specs.Words.{Text, same, same_entity};
ghost use Rattle.event_bus.specs.Lists.{has, has_at, has_for};

use ha_value::EntityId;
use indexmap::IndexMap;
use std::alloc::{AllocError, Global};
use std::collections::BTreeSet;

/// Numbers by name.
pub type Lists = IndexMap<String, BTreeSet<u64>>;

/// The text as a key.
fn key_of(alloc: Global, name: &str) -> Result<String, AllocError>
    ensures { IfOk result (λ key. string_bytes key ≡ name.now) }
{
    String::from_str(alloc, name)
}

/// Puts a number into a set. After an error it is as before.
pub fn put(set: &mut BTreeSet<u64>, number: u64) -> Result<(), AllocError>
    ensures own { OnOk result (has set.new number ≡ true) }
    ensures others { (n : ℕ) → nat_eq number n ≡ false → has set.new n ≡ has set.old n }
    ensures err { OnErr result ((n : ℕ) → has set.new n ≡ has set.old n) }
{
    match set.insert(number) {
        Ok(_) => Ok(()),
        Err(_) => Err(AllocError),
    }
}

/// Takes a number out of a set.
pub fn take(set: &mut BTreeSet<u64>, number: u64)
    ensures own { has set.new number ≡ false }
    ensures others { (n : ℕ) → nat_eq number n ≡ false → has set.new n ≡ has set.old n }
{
    set.remove(&number);
}

/// Puts a number under a name. After an error all is as before.
pub fn put_at(alloc: Global, lists: &mut Lists, name: &str, number: u64) -> Result<(), AllocError>
    ensures own { OnOk result ((q : Text) → has_at lists.new q number ≡ (same name.now q || has_at lists.old q number)) }
    ensures others { (q : Text) (n : ℕ) → nat_eq number n ≡ false → has_at lists.new q n ≡ has_at lists.old q n }
    ensures err { OnErr result ((q : Text) (n : ℕ) → has_at lists.new q n ≡ has_at lists.old q n) }
{
    match lists.get_mut(name) {
        Some(set) => put(set, number),
        None => {
            let key = key_of(alloc, name)?;
            let mut set = BTreeSet::new(alloc);
            put(&mut set, number)?;
            lists.insert(key, set)?;
            Ok(())
        }
    }
}

/// Takes a number from under a name.
pub fn take_at(lists: &mut Lists, name: &str, number: u64)
    ensures own { (q : Text) → has_at lists.new q number ≡ (not (same name.now q) && has_at lists.old q number) }
    ensures others { (q : Text) (n : ℕ) → nat_eq number n ≡ false → has_at lists.new q n ≡ has_at lists.old q n }
{
    if let Some(set) = lists.get_mut(name) {
        take(set, number);
    }
}

/// The numbers at a place of the lists, where they stand under this name.
pub fn at_place<'a>(lists: &'a Lists, place: usize, name: &str) -> Option<&'a BTreeSet<u64>>
    ensures { IfSome result (λ set. get_by_text lists.now name.now ≡ Some set.now) }
{
    match lists.get_index(place) {
        Some((key, set)) => {
            if key.as_str() == name {
                Some(set)
            } else {
                None
            }
        }
        None => None,
    }
}

/// Puts a number under an entity. After an error all is as before.
pub fn put_for(
    alloc: Global,
    lists: &mut Lists,
    entity: &EntityId,
    number: u64,
) -> Result<(), AllocError>
    ensures own { OnOk result ((e : Entity) → has_for lists.new e number ≡ (same_entity entity.now e || has_for lists.old e number)) }
    ensures others { (e : Entity) (n : ℕ) → nat_eq number n ≡ false → has_for lists.new e n ≡ has_for lists.old e n }
    ensures err { OnErr result ((e : Entity) (n : ℕ) → has_for lists.new e n ≡ has_for lists.old e n) }
{
    put_at(alloc, lists, entity.text(), number)
}

/// Takes a number from under an entity.
pub fn take_for(lists: &mut Lists, entity: &EntityId, number: u64)
    ensures own { (e : Entity) → has_for lists.new e number ≡ (not (same_entity entity.now e) && has_for lists.old e number) }
    ensures others { (e : Entity) (n : ℕ) → nat_eq number n ≡ false → has_for lists.new e n ≡ has_for lists.old e n }
{
    take_at(lists, entity.text(), number);
}

/// Puts a number under entities. After an error it may stand under a part of them.
pub fn put_each(
    alloc: Global,
    lists: &mut Lists,
    entities: &[EntityId],
    number: u64,
) -> Result<(), AllocError>
    ensures own { OnOk result ((e : Entity) → has_for lists.new e number ≡ (list_any (λ f. same_entity f e) entities.now || has_for lists.old e number)) }
    ensures part { (e : Entity) → has_for lists.new e number ≡ true → (list_any (λ f. same_entity f e) entities.now || has_for lists.old e number) ≡ true }
    ensures kept { (e : Entity) → has_for lists.old e number ≡ true → has_for lists.new e number ≡ true }
    ensures others { (e : Entity) (n : ℕ) → nat_eq number n ≡ false → has_for lists.new e n ≡ has_for lists.old e n }
{
    for at in 0..entities.len() {
        put_for(alloc, lists, &entities[at], number)?;
    }
    Ok(())
}

/// Takes a number from under entities.
pub fn take_each(lists: &mut Lists, entities: &[EntityId], number: u64)
    ensures own { (e : Entity) → has_for lists.new e number ≡ (not (list_any (λ f. same_entity f e) entities.now) && has_for lists.old e number) }
    ensures others { (e : Entity) (n : ℕ) → nat_eq number n ≡ false → has_for lists.new e n ≡ has_for lists.old e n }
{
    for at in 0..entities.len() {
        take_for(lists, &entities[at], number);
    }
}
