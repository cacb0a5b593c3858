//! Laws on what a refusal of a YAML text tells.
#![tactic(auto)]

pub mod laws;
