//! Laws on scripts that are called by name.
#![tactic(auto)]

pub mod laws;
