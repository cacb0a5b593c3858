//! A law on what C3 tells of its line in a YAML text.
#![tactic(auto)]

pub mod laws;
