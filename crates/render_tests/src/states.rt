//! States and switches, changed one after the other.
use crate::shown::entity;
use ha_clock::Moment;
use ha_sight::Change;
use ha_value::{Many, Num, Value, Word, push_value};
use state_table::StateTable;
use std::alloc::{AllocError, Global};

// 2024-05-01T20:00:00Z
const EIGHT: u64 = 1_714_593_600_000;

/// What is done to a table, or asked of it. Seconds are those after eight.
#[derive(Clone, Copy)]
enum Step<'a> {
    /// An entity is reported with a text, at this second, and this changes.
    Says(&'a str, &'a str, u64, Change),
    /// The same, with an attribute.
    Has(&'a str, &'a str, u64, Change),
    /// An entity goes; whether it had a state.
    Goes(&'a str, bool),
    /// A switch is set at this second.
    Sets(&'a str, bool, u64),
    /// No state is left.
    Clears,
    /// An entity has a text, since that second, and was updated at that one.
    Is(&'a str, &'a str, u64, u64),
    /// Whether the id is that of an entity with a state.
    Named(&'a str, bool),
}

/// The attribute `u`, or none.
fn attributes(alloc: Global, has: bool) -> Result<Many<(Word, Value)>, AllocError> {
    let mut pairs = Many::make(alloc);
    if has {
        push_value(alloc, &mut pairs, "u", Value::Number(Num::Whole(1)))?;
    }
    Ok(pairs)
}

/// The moment so many seconds after eight, within the hour.
fn at(seconds: u64) -> Moment {
    Moment::at(EIGHT + seconds % 3600 * 1000)
}

/// Whether a report changes this.
fn changes(
    alloc: Global,
    table: &mut StateTable,
    id: &str,
    text: &str,
    has: bool,
    second: u64,
    wanted: Change,
) -> Result<bool, AllocError> {
    let entity = entity(alloc, id)?;
    let text = Word::from_str(alloc, text)?;
    let pairs = attributes(alloc, has)?;
    let change = table.report(alloc, &entity, &text, &pairs, at(second))?;
    Ok(change == wanted)
}

/// Whether the entity has this text and these moments.
fn is_state(
    alloc: Global,
    table: &StateTable,
    id: &str,
    text: &str,
    changed: u64,
    updated: u64,
) -> Result<bool, AllocError> {
    let entity = entity(alloc, id)?;
    match table.get(&entity) {
        Some(state) => Ok(
            state.text.as_str() == text
                && state.changed == at(changed)
                && state.updated == at(updated),
        ),
        None => Ok(false),
    }
}

fn goes(alloc: Global, table: &mut StateTable, id: &str) -> Result<bool, AllocError> {
    let entity = entity(alloc, id)?;
    Ok(table.gone(&entity))
}

fn sets(
    alloc: Global,
    table: &mut StateTable,
    id: &str,
    on: bool,
    second: u64,
) -> Result<bool, AllocError> {
    let entity = entity(alloc, id)?;
    table.set_switch(alloc, &entity, on, at(second))?;
    Ok(true)
}

/// Takes a step; whether it goes as it is said.
fn goes_on(alloc: Global, table: &mut StateTable, step: Step<'_>) -> Result<bool, AllocError> {
    match step {
        Step::Says(id, text, second, change) => {
            changes(alloc, table, id, text, false, second, change)
        }
        Step::Has(id, text, second, change) => {
            changes(alloc, table, id, text, true, second, change)
        }
        Step::Goes(id, had) => Ok(goes(alloc, table, id)? == had),
        Step::Sets(id, on, second) => sets(alloc, table, id, on, second),
        Step::Clears => {
            table.clear();
            Ok(true)
        }
        Step::Is(id, text, changed, updated) => {
            is_state(alloc, table, id, text, changed, updated)
        }
        Step::Named(id, has) => Ok(table.named(id).is_some() == has),
    }
}

/// Whether each step goes as it is said.
fn all_go(alloc: Global, steps: &[Step<'_>]) -> bool {
    match all_gone(alloc, steps) {
        Ok(is) => is,
        Err(_) => false,
    }
}

/// The same, or that there is no memory for it.
fn all_gone(alloc: Global, steps: &[Step<'_>]) -> Result<bool, AllocError> {
    let mut table = StateTable::make(alloc);
    for next in steps {
        if !goes_on(alloc, &mut table, *next)? {
            return Ok(false);
        }
    }
    Ok(true)
}

#[test]
fn an_attribute_moves_updated_alone(rt: HostRuntime) {
    let id = "sensor.t";
    assert!(rt;
        all_go(
            rt.alloc(),
            &[
                Step::Named(id, false),
                Step::Says(id, "5", 0, Change::Appeared),
                Step::Says(id, "5", 10, Change::Same),
                Step::Is(id, "5", 0, 0),
                Step::Has(id, "5", 20, Change::Attributes),
                Step::Is(id, "5", 0, 20),
                Step::Has(id, "6", 30, Change::Text),
                Step::Is(id, "6", 30, 30),
            ]
        )
    );
}

#[test]
fn what_goes_appears_anew(rt: HostRuntime) {
    assert!(rt;
        all_go(
            rt.alloc(),
            &[
                Step::Says("light.x", "on", 0, Change::Appeared),
                Step::Says("light.y", "on", 0, Change::Appeared),
                Step::Goes("light.x", true),
                Step::Goes("light.x", false),
                Step::Named("light.x", false),
                Step::Says("light.x", "on", 5, Change::Appeared),
                Step::Is("light.x", "on", 5, 5),
                Step::Is("light.y", "on", 0, 0),
                Step::Named("light.y", true),
                Step::Named("light.z", false),
                Step::Named("light", false),
            ]
        )
    );
}

#[test]
fn a_restart_sets_switches_anew(rt: HostRuntime) {
    let id = "automation.hall";
    assert!(rt;
        all_go(
            rt.alloc(),
            &[
                Step::Sets(id, true, 0),
                Step::Says("light.x", "on", 0, Change::Appeared),
                Step::Clears,
                Step::Named("light.x", false),
                Step::Sets(id, true, 9),
                Step::Is(id, "on", 9, 9),
                Step::Sets(id, false, 12),
                Step::Is(id, "off", 12, 12),
            ]
        )
    );
}
