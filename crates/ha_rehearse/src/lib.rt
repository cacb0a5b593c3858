//! The command `rehearse`: the generated home, put through a core.
#![tactic(auto)]

pub mod laws;
mod puts;
mod rehearse;
mod text;

pub use rehearse::rehearse_call;
