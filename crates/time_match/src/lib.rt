//! Whether the clock passes a time of a trigger as it goes from one moment to a later one.
#![tactic(auto)]

mod day;
mod search;
mod steady;
mod times;

pub use search::passed;
