//! The table.
ghost use Rattle.std.specs.Prelude.{◌≡◌, None, Some, IfOk, OnOk, is_some, string_bytes, if◌then◌else◌};
ghost use Rattle.std.specs.BTreeMap.{get_by_text};
ghost use Rattle.ha_value.specs.declared.value.EntityId.{EntityId as Entity};
ghost use Rattle.ha_value.specs.Ids.{for_id};
ghost use Rattle.ha_config.specs.Words.{Text, same, same_entity};
ghost use Rattle.entity_places.specs.Placed.{place_in, place_or};

use ha_value::EntityId;
use std::alloc::{AllocError, Global};
use std::collections::BTreeMap;

/// A list of so many items, or fewer, is walked sooner than a table of it is made.
pub const FEW: usize = 8;

/// Places by the texts of ids.
type Table = BTreeMap<String, usize>;

/// A table from entity ids to places. An id is found in the logarithm of their number.
#[derive(Drop)]
pub struct Places {
    table: Table,
}

/// The text as a key.
fn key_of(alloc: Global, name: &str) -> Result<String, AllocError>
    ensures { IfOk result (λ key. string_bytes key ≡ name.now) }
{
    String::from_str(alloc, name)
}

/// A text has this place.
fn put_new(alloc: Global, table: &mut Table, name: &str, place: usize) -> Result<(), AllocError>
    ensures { OnOk result ((q : Text) → get_by_text table.new q ≡ (if same name.now q then Some place else get_by_text table.old q)) }
{
    let key = key_of(alloc, name)?;
    table.insert(key, place)?;
    Ok(())
}

/// Whether a text has a place.
fn has_place(table: &Table, name: &str) -> bool
    ensures { result ≡ is_some (get_by_text table.now name.now) }
{
    table.get(name).is_some()
}

/// A text has this place, unless it has one.
fn put_name(alloc: Global, table: &mut Table, name: &str, place: usize) -> Result<(), AllocError>
    ensures { OnOk result ((q : Text) → get_by_text table.new q ≡ place_or place (same name.now q) (get_by_text table.old q)) }
{
    if has_place(table, name) {
        return Ok(());
    }
    put_new(alloc, table, name, place)
}

/// An id has this place, unless it has one.
fn put_place(
    alloc: Global,
    table: &mut Table,
    entity: &EntityId,
    place: usize,
) -> Result<(), AllocError>
    ensures { OnOk result ((e : Entity) → for_id None (get_by_text table.new) e ≡ place_or place (same_entity entity.now e) (for_id None (get_by_text table.old) e)) }
{
    put_name(alloc, table, entity.text(), place)
}

impl Places {
    /// No id has a place. It takes no memory.
    pub fn make(alloc: Global) -> Places
        ensures { (e : Entity) → place_in result e ≡ None }
    {
        Places {
            table: BTreeMap::new(alloc),
        }
    }

    /// The id has this place, unless it has one: of several ids that are the same, the first counts. After an error the
    /// table may only be dropped.
    pub fn put(&mut self, alloc: Global, entity: &EntityId, place: usize) -> Result<(), AllocError>
        ensures { OnOk result ((e : Entity) → place_in self.new e ≡ place_or place (same_entity entity.now e) (place_in self.old e)) }
    {
        put_place(alloc, &mut self.table, entity, place)
    }

    /// The place of the id, if it has one.
    pub fn place_of(&self, entity: &EntityId) -> Option<usize>
        ensures { result ≡ place_in self.now entity.now }
    {
        self.table.get(entity.text()).copied()
    }
}
