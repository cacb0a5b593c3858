//! What is read of a configuration's text is sound.
#![tactic(auto)]

pub mod laws;
