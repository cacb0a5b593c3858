//! Functions that ask states, and operators on lists and maps.
use crate::shown::{all_give, entity};
use ha_clock::Moment;
use ha_sight::Env;
use ha_value::{Many, Num, Plain, Value, Word, push_text, push_value};
use state_table::StateTable;
use std::alloc::{AllocError, Global};
use tpl_eval::function;

/// Adds a text to a list.
fn push(alloc: Global, items: &mut Many<Value>, text: &str) -> Result<(), AllocError> {
    let word = Word::from_str(alloc, text)?;
    items.push(Value::Text(word))?;
    Ok(())
}

/// The list `[3, "on"]`.
fn list(alloc: Global) -> Result<Many<Value>, AllocError> {
    let mut items = Many::make(alloc);
    items.push(Value::Number(Num::Whole(3)))?;
    push(alloc, &mut items, "on")?;
    Ok(items)
}

/// The level 7.
fn level(alloc: Global) -> Result<Many<(Word, Value)>, AllocError> {
    let mut pairs = Many::make(alloc);
    push_value(alloc, &mut pairs, "level", Value::Number(Num::Whole(7)))?;
    Ok(pairs)
}

/// A table in which `light.x` is on, at the level 7.
fn lit(alloc: Global) -> Result<StateTable, AllocError> {
    let lamp = entity(alloc, "light.x")?;
    let on = Word::from_str(alloc, "on")?;
    let attributes = level(alloc)?;
    let mut table = StateTable::make(alloc);
    table.report(
        alloc,
        &lamp,
        &on,
        &attributes,
        Moment::at(1_714_593_600_000),
    )?;
    Ok(table)
}

/// An id and the list `[3, "on"]`.
fn args(alloc: Global, id: &str) -> Result<Many<Value>, AllocError> {
    let mut all = Many::make(alloc);
    push(alloc, &mut all, id)?;
    let list = list(alloc)?;
    all.push(Value::Items(list))?;
    Ok(all)
}

/// Whether `is_state` of the entity and that list is true.
fn is_on(alloc: Global, table: &StateTable, id: &str) -> bool {
    match args(alloc, id) {
        Ok(args) => match function(alloc, 3, args.as_slice(), table) {
            Ok(value) => value.same(&Value::Flag(true)),
            Err(_) => false,
        },
        Err(_) => false,
    }
}

/// Whether each of these ids is that of an entity that is on, or is not, as is said, where `light.x` is on.
fn are_on(alloc: Global, rows: &[(&str, bool)]) -> bool {
    let Ok(table) = lit(alloc) else {
        return false;
    };
    for row in rows {
        if is_on(alloc, &table, row.0) != row.1 {
            return false;
        }
    }
    true
}

#[test]
fn states_are_asked(rt: HostRuntime) {
    assert!(rt;
        are_on(
            rt.alloc(),
            &[("light.x", true), ("light.y", false), ("light", false)]
        )
    );
}

/// The map from `room` to `hall`.
fn rooms(alloc: Global) -> Result<Many<(Word, Value)>, AllocError> {
    let mut pairs = Many::make(alloc);
    push_text(alloc, &mut pairs, "room", "hall")?;
    Ok(pairs)
}

/// The name `home`, which stands for that map.
fn home(alloc: Global) -> Result<Env, AllocError> {
    let rooms = rooms(alloc)?;
    let mut pairs = Many::make(alloc);
    push_value(alloc, &mut pairs, "home", Value::Pairs(rooms))?;
    Ok(Env::of_pairs(pairs))
}

/// Whether each text is a template that renders as the other text, where `home` is that map and `light.x` is on.
fn give(alloc: Global, rows: &[(&str, &str)]) -> bool {
    match (home(alloc), lit(alloc)) {
        (Ok(env), Ok(states)) => all_give(alloc, &states, &env, rows),
        _ => false,
    }
}

#[test]
fn texts_lists_and_maps_are_asked(rt: HostRuntime) {
    assert!(rt;
        give(
            rt.alloc(),
            &[
                ("{{ 'on' in [3, 'on'] }}", "True"),
                ("{{ 'room' in home }}", "True"),
                (
                    "{% set home = home.room %}{% set home = home ~ '!' %}{{ home }}",
                    "hall!"
                ),
                ("{{ 'hall' in home }}", "False"),
                ("{{ [3, 'on'][-2] }}", "3"),
                ("{{ [3, 'on'][-1] }}", "on"),
                ("{{ home.room }}", "hall"),
            ]
        )
    );
}

#[test]
fn each_function_of_states_once(rt: HostRuntime) {
    assert!(rt;
        give(
            rt.alloc(),
            &[
                ("{{ states('light.x') }}", "on"),
                ("{{ states('light.y') }}", "unknown"),
                ("{{ state_attr('light.x', 'level') }}", "7"),
                ("{{ state_attr('light.x', 'color') is none }}", "True"),
                ("{{ is_state('light.x', 'on') }}", "True"),
                ("{{ is_state('light.x', 'off') }}", "False"),
                ("{{ is_state_attr('light.x', 'level', 7) }}", "True"),
                ("{{ is_state_attr('light.x', 'level', '7') }}", "False"),
                ("{{ has_value('light.x') }}", "True"),
                ("{{ has_value('light.y') }}", "False"),
            ]
        )
    );
}
