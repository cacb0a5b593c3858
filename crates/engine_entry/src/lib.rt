//! What an entry itself changes in the parts of an engine: states, switches and triggers; the step of a run, its wait and its delay.
#![tactic(auto)]

pub mod enter;
pub mod names;
pub mod open;
pub mod reload;
pub mod step_enter;
pub mod step_run;
pub mod step_take;
pub mod step_wake;
pub mod turn;
