//! Whose templates an entry tests.
ghost use Rattle.std.specs.Prelude.{◌≡◌, ◌<◌, ◌||◌, ℕ, All, Bool, IfOk, OnOk, false, length, slice_index_or, true};
ghost use Rattle.ha_value.specs.declared.value.EntityId.{EntityId as Entity};
ghost use Rattle.ha_config.specs.Words.{same_entity};
ghost use Rattle.wait_set.specs.declared.asked.Asked.{Asked as Wait};
ghost use Rattle.wait_set.specs.Concern.{Ascend, has};
ghost use Rattle.wait_set.specs.Tested.{TestedOrSpared};
ghost use Rattle.wait_set.specs.Timers.{IsListed};

use crate::asked::Asked;
use crate::concern::place_from;
use crate::readers::{Readers, put};
use crate::runs::owner_in;
use ha_value::EntityId;
use std::alloc::{AllocError, Global};
use std::collections::BTreeSet;

/// The place from which on owners may not be below one: the first where they are not known to ascend.
fn first_from(asks: &[Asked], ordered: bool, owner: u64) -> usize
    requires { ordered ≡ true → Ascend asks.now }
    ensures { (n : ℕ) (d : Wait) → n < result → n < length asks.now → (slice_index_or asks.now n d).owner < owner }
{
    if ordered { place_from(asks, owner) } else { 0 }
}

/// Puts the owners of the waits from a place on in.
fn put_from(asks: &[Asked], place: usize, tested: &mut BTreeSet<u64>) -> Result<(), AllocError>
    ensures { OnOk result ((n : ℕ) (d : Wait) → n < length asks.now → has tested.new (slice_index_or asks.now n d).owner ≡ false → n < place) }
{
    for at in place..asks.len() {
        put(tested, owner_in(asks, at))?;
    }
    Ok(())
}

/// The owners of the waits whose templates are tested at an entry that changes no state: of those whose templates' entities are not known,
/// and of those that have an owner from `from` on.
pub fn tested_from(
    alloc: Global,
    asks: &[Asked],
    readers: &Readers,
    ordered: bool,
    from: u64,
) -> Result<BTreeSet<u64>, AllocError>
    requires listed { All (IsListed readers.now) asks.now }
    requires order { ordered ≡ true → Ascend asks.now }
    ensures { IfOk result (λ tested. All (TestedOrSpared from (λ e. false) (has tested)) asks.now) }
{
    let mut tested = BTreeSet::new(alloc);
    if asks.is_empty() {
        return Ok(tested);
    }
    put_from(asks, first_from(asks, ordered, from), &mut tested)?;
    readers.add_unknown(&mut tested)?;
    Ok(tested)
}

/// Adds those whose templates read an entity that changes.
pub fn add_readers(
    asks: &[Asked],
    readers: &Readers,
    entity: &EntityId,
    tested: &mut BTreeSet<u64>,
) -> Result<(), AllocError>
    requires { All (IsListed readers.now) asks.now }
    ensures { OnOk result ((from : ℕ) (changes : Entity → Bool) → All (TestedOrSpared from changes (has tested.old)) asks.now
        → All (TestedOrSpared from (λ e. same_entity entity.now e || changes e) (has tested.new)) asks.now) }
{
    if asks.is_empty() {
        return Ok(());
    }
    readers.add_readers(entity, tested)?;
    Ok(())
}
