//! Whom a change of an entity, an event, a moment or any entry concerns.
#![tactic(auto)]

mod index;
mod lists;

pub use index::Index;
