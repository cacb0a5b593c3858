//! Entities that were found, each once.
ghost use Rattle.std.specs.Prelude.{◌≡◌, ◌∷◌, ◌++◌, [], List, OnOk, Some, option_to_list};
ghost use Rattle.std.specs.List.{list_any};
ghost use Rattle.ha_value.specs.declared.value.EntityId.{EntityId as Entity};
ghost use Rattle.ha_value.specs.Ids.{read_entity};
ghost use Rattle.ha_config.specs.Words.{same_entity};
ghost use Rattle.ha_sight.specs.Rules.{each_once};
ghost use Rattle.tpl_reads.specs.Finds.{Finds};
ghost use Rattle.tpl_reads.specs.Reads.{ids_in};

use ha_config::same_id;
use ha_value::{EntityFault, EntityId, Many, Value, Word};
use std::alloc::{AllocError, Global};

/// Whether the entity is in the list.
fn is_among(found: &[EntityId], entity: &EntityId) -> bool
    ensures { result ≡ list_any (λ e. same_entity e entity.now) found.now }
{
    found.iter().any(|other| same_id(other, entity))
}

/// Puts an entity behind the others, if it is not among them.
fn add(entity: EntityId, found: &mut Many<EntityId>) -> Result<(), AllocError>
    ensures { OnOk result ((before : List Entity) → found.old ≡ each_once before → found.new ≡ each_once (before ++ entity ∷ [])) }
{
    if is_among(found.as_slice(), &entity) {
        return Ok(());
    }
    found.push(entity)?;
    Ok(())
}

/// Adds the entity that the text is the id of, if it is one.
fn add_text(alloc: Global, text: &Word, found: &mut Many<EntityId>) -> Result<bool, AllocError>
    ensures { Finds found.old found.new (Some (option_to_list (read_entity text.now))) result }
{
    match EntityId::read(alloc, text.bytes()) {
        Ok(entity) => match add(entity, found) {
            Ok(()) => Ok(true),
            Err(fault) => Err(fault),
        },
        Err(EntityFault::Shape) => Ok(true),
        Err(EntityFault::Memory) => Err(AllocError),
    }
}

/// Adds the entity that a value is the id of, if it is one.
pub fn add_value(
    alloc: Global,
    value: &Value,
    found: &mut Many<EntityId>,
) -> Result<bool, AllocError>
    ensures { Finds found.old found.new (Some (ids_in value.now)) result }
{
    match value {
        Value::Text(text) => add_text(alloc, text, found),
        Value::Null => Ok(true),
        Value::Flag(_) => Ok(true),
        Value::Number(_) => Ok(true),
        Value::Items(_) => Ok(true),
        Value::Pairs(_) => Ok(true),
    }
}
