//! Helpers: what is kept of each, what a call of a service changes, and which timers finish.
#![tactic(auto)]

mod change;
mod kept;
pub mod laws;
mod list;
mod meant;
mod service;
mod set;
mod timers;
mod wanted;

pub use kept::first_text;
pub use set::Helpers;
