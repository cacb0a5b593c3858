//! What a reload does to the numbers of units: which are kept, which go, and which the new ones get.
#![tactic(auto)]

mod kinds;
pub mod laws;
mod numbers;
mod outcome;

pub use numbers::plan;
pub use outcome::Plan;
