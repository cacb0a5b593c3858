//! Laws of a table of states and of a view: which journals they stand for.
#![tactic(auto)]

pub mod laws;
