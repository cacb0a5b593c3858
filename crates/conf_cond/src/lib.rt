//! The reader of conditions.
#![tactic(auto)]

mod conditions;
mod kind;
mod rules;

pub use conditions::{read_condition_action, read_conditions};
pub use kind::{ConditionKind, KindKey};
