//! What templates render as, and entities by their ids.
use ha_sight::{Env, TplFault};
use ha_value::{EntityId, Value};
use state_table::StateTable;
use std::alloc::{AllocError, Global};
use tpl_eval::render;
use tpl_parse::parse;

/// The entity of an id.
pub fn entity(alloc: Global, id: &str) -> Result<EntityId, AllocError> {
    match EntityId::read(alloc, id.as_bytes()) {
        Ok(entity) => Ok(entity),
        Err(_) => Err(AllocError),
    }
}

/// What a text of at most 16,384 bytes is rendered as over these states, with these names, where it is a template.
fn rendered(
    alloc: Global,
    states: &StateTable,
    env: &Env,
    text: &[u8],
) -> Option<Result<Value, TplFault>> {
    if 16_384 < text.len() {
        return None;
    }
    match parse(alloc, text) {
        Ok(template) => Some(render(alloc, &template, states, env)),
        Err(_) => None,
    }
}

/// Whether the text is a template that renders as the other text.
pub fn gives(alloc: Global, states: &StateTable, env: &Env, text: &[u8], wanted: &str) -> bool {
    match rendered(alloc, states, env, text) {
        Some(Ok(Value::Text(found))) => found.as_str() == wanted,
        _ => false,
    }
}

/// Whether each of these texts does.
pub fn all_give(alloc: Global, states: &StateTable, env: &Env, rows: &[(&str, &str)]) -> bool {
    for row in rows {
        if !gives(alloc, states, env, row.0.as_bytes(), row.1) {
            return false;
        }
    }
    true
}

/// Whether the text is a template whose meaning is a fault.
pub fn faults(alloc: Global, states: &StateTable, env: &Env, text: &[u8]) -> bool {
    matches!(
        rendered(alloc, states, env, text),
        Some(Err(TplFault::Fault))
    )
}
