//! The states of all entities, changed entry by entry.
#![tactic(auto)]

mod domain;
mod names;
mod table;

pub use table::StateTable;
