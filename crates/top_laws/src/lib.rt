//! Laws on what the program answers for.
#![tactic(auto)]

pub mod laws;
