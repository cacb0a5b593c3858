//! What a reload keeps, what it ends, and which numbers it gives.
#![tactic(auto)]

pub mod laws;
