//! The next time of triggers: up to when, behind a moment, the clock passes none.
#![tactic(auto)]

mod among;
mod day;
mod even;
pub mod laws;
mod next;
mod steady;
mod times;

pub use among::{has_times, next_of};
pub use next::next_time;
