//! The home that a rehearsal makes up: one configuration, and as many lines as are asked for. Nothing outside decides them, so a rehearsal
//! is the same wherever it runs.
#![tactic(auto)]

mod config;
mod line;

pub use config::rehearse_config;
pub use line::{START, next_x, rehearse_line};
