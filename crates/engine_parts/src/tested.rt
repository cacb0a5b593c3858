//! Whose waits' templates the last entry tests.
ghost use Rattle.std.specs.Prelude.{◌∷◌, ◌+◌, [], ℕ, All, IfOk, None, OnOk, false};
ghost use Rattle.ha_journal.specs.Journal.{last_place};
ghost use Rattle.trig_set.specs.Next.{lists};
ghost use Rattle.wait_set.specs.Concern.{has};
ghost use Rattle.wait_set.specs.Tested.{TestedOrSpared};
ghost use Rattle.engine_parts.specs.Runs.{first_wait};

use crate::parts::FIRST_WAIT;
use ha_value::EntityId;
use segment_view::Segment;
use std::alloc::{AllocError, Global};
use std::collections::BTreeSet;
use trig_set::Before;
use wait_set::Waits;

/// The owners of the waits whose templates it tests, where it changes no state. A wait that its own step begins is among them.
fn first_tested(
    waits: &Waits,
    alloc: Global,
    journal: &Segment<'_>,
) -> Result<BTreeSet<u64>, AllocError>
    ensures { IfOk result (λ tested. All (TestedOrSpared (first_wait + last_place journal.now) (λ e. false) (has tested)) waits.now.asks) }
{
    let tested = waits.tested(alloc, FIRST_WAIT + journal.place())?;
    Ok(tested)
}

/// Adds those whose templates read the entities that are listed.
fn add_listed(waits: &Waits, before: &Before, tested: &mut BTreeSet<u64>) -> Result<(), AllocError>
    ensures { OnOk result ((from : ℕ) → All (TestedOrSpared from (λ e. false) (has tested.old)) waits.now.asks → All (TestedOrSpared from (lists before.now) (has tested.new)) waits.now.asks) }
{
    for at in 0..before.len() {
        waits.add_readers(before.entity_at(at), tested)?;
    }
    Ok(())
}

/// The owners of the waits whose templates it tests, where it changes the states of the entities that are listed.
pub fn tested_by(
    waits: &Waits,
    alloc: Global,
    journal: &Segment<'_>,
    before: &Before,
) -> Result<BTreeSet<u64>, AllocError>
    ensures { IfOk result (λ tested. All (TestedOrSpared (first_wait + last_place journal.now) (lists before.now) (has tested)) waits.now.asks) }
{
    let mut tested = first_tested(waits, alloc, journal)?;
    add_listed(waits, before, &mut tested)?;
    Ok(tested)
}

/// The same, where it is a report of this entity.
pub fn tested_for(
    waits: &Waits,
    alloc: Global,
    journal: &Segment<'_>,
    entity: &EntityId,
) -> Result<BTreeSet<u64>, AllocError>
    ensures { IfOk result (λ tested. All (TestedOrSpared (first_wait + last_place journal.now) (lists ((entity.now, None) ∷ [])) (has tested)) waits.now.asks) }
{
    let mut tested = first_tested(waits, alloc, journal)?;
    waits.add_readers(entity, &mut tested)?;
    Ok(tested)
}
