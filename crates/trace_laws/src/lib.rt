//! Laws on what the bytes of a trace tell.
#![tactic(auto)]

pub mod laws;
