//! Laws of the actions that are read.
#![tactic(auto)]

pub mod laws;
