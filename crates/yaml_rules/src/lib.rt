//! Laws on what C4 and C12 tell of their line in a YAML text, and the notation without their rules.
#![tactic(auto)]

pub mod laws;
