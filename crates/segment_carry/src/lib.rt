//! What a segment hands to the next one, which a restart opens.
#![tactic(auto)]

mod closing;
pub mod laws;
mod lists;
mod numbers;
mod order;
mod sources;

pub use closing::{Closing, again};
pub use lists::{lasts, names, rule_moments, rule_names, rule_order, switches};
