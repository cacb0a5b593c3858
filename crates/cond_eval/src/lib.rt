//! Conditions over the states of a place, and the answers that a place gives.
#![tactic(auto)]

mod answers;
mod conditions;
mod numbers;
mod states;
mod times;
mod view;

pub use conditions::test;
pub use view::View;
