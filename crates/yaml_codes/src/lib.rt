//! Laws on what the codes of a refusal of a YAML text tell of its line.
#![tactic(auto)]

pub mod laws;
