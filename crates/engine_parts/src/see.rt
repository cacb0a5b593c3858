//! The states that an entry changes, and what is noted of them before.
ghost use Rattle.std.specs.Prelude.{◌≡◌, ◌∷◌, [], ℕ, None, Some, false, IfOk, OnOk};
ghost use Rattle.std.specs.Option.{option_copied};
ghost use Rattle.ha_config.specs.declared.command.Cmd as cmd;
ghost use Rattle.ha_config.specs.Helpers.{is_helper};
ghost use Rattle.ha_journal.specs.declared.entry.Entry.TheVariants.{Line};
ghost use Rattle.ha_journal.specs.Journal.{Journal, helpers, now as now_of, more};
ghost use Rattle.state_table.specs.Anew.{is_automation};
ghost use Rattle.state_table.specs.Table.{at};
ghost use Rattle.state_laws.specs.Stands.{StandsFor};
ghost use Rattle.trig_set.specs.Next.{AreListed, Listed};

use ha_clock::Moment;
use ha_sight::StateObject;
use ha_value::{EntityId, Many, Plain, Value, Word};
use state_table::StateTable;
use std::alloc::{AllocError, Global};
use trig_set::Before;

/// A copy of a state, if there is one.
pub fn copied(alloc: Global, state: Option<&StateObject>) -> Result<Option<StateObject>, AllocError>
    ensures { IfOk result (λ made. made ≡ option_copied state.entry) }
{
    match state {
        Some(object) => match object.copy(alloc) {
            Ok(made) => Ok(Some(made)),
            Err(error) => Err(error),
        },
        None => Ok(None),
    }
}

/// The entity with its state in the table.
fn listed(alloc: Global, states: &StateTable, entity: &EntityId) -> Result<Before, AllocError>
    ensures { IfOk result (λ before. before ≡ (entity.now, at states.now entity.now) ∷ []) }
{
    match copied(alloc, states.get(entity)) {
        Ok(state) => Before::one(alloc, entity, state),
        Err(error) => Err(error),
    }
}

/// A report: the table changes, and what it had of the entity is handed out.
pub fn see_report(
    states: &mut StateTable,
    alloc: Global,
    entity: &EntityId,
    text: &Word,
    attributes: &Many<(Word, Value)>,
    now: Moment,
) -> Result<Before, AllocError>
    ensures stands { OnOk result ((j : Journal) (k n : ℕ) → StandsFor states.old j → is_automation entity.now ≡ false → is_helper (helpers j) entity.now ≡ false
        → now ≡ now_of (more j (Line k n (cmd.Cmd.Report entity.now text.now attributes.now)))
        → StandsFor states.new (more j (Line k n (cmd.Cmd.Report entity.now text.now attributes.now)))) }
    ensures listed { IfOk result (λ before. (j : Journal) (k n : ℕ) → StandsFor states.old j → is_automation entity.now ≡ false → is_helper (helpers j) entity.now ≡ false
        → AreListed j (Line k n (cmd.Cmd.Report entity.now text.now attributes.now)) before) }
    ensures one { IfOk result (λ before. before ≡ (entity.now, at states.old entity.now) ∷ []) }
{
    let before = states.report_over(alloc, entity, text, attributes, now)?;
    let list = Before::one(alloc, entity, before)?;
    Ok(list)
}

/// An entity goes: it leaves the table, and what it had is handed out.
pub fn see_gone(
    states: &mut StateTable,
    alloc: Global,
    entity: &EntityId,
) -> Result<Before, AllocError>
    ensures stands { OnOk result ((j : Journal) (k n : ℕ) → StandsFor states.old j → is_automation entity.now ≡ false → is_helper (helpers j) entity.now ≡ false → StandsFor states.new (more j (Line k n (cmd.Cmd.Gone entity.now)))) }
    ensures listed { IfOk result (λ before. (j : Journal) (k n : ℕ) → StandsFor states.old j → is_automation entity.now ≡ false → is_helper (helpers j) entity.now ≡ false → AreListed j (Line k n (cmd.Cmd.Gone entity.now)) before) }
    ensures one { IfOk result (λ before. before ≡ (entity.now, at states.old entity.now) ∷ []) }
{
    let before = listed(alloc, states, entity)?;
    states.gone(entity);
    Ok(before)
}
