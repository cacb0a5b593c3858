//! The configuration of a file, and the command `check`, which tells what it read of one.
#![tactic(auto)]

mod check;
mod configured;
mod lines;

pub use check::check_call;
pub use configured::{Configured, read_config_at};
