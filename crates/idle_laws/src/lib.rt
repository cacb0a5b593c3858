//! Laws on lines that are only noted, and the holds of triggers.
#![tactic(auto)]

pub mod laws;
