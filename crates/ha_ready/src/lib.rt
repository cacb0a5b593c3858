//! What one more entry leaves and what it changes of runs, waits and sources: who is ready, who is rested, and how a wait ends.
#![tactic(auto)]

pub mod laws;
