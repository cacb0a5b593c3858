//! The reader of a whole configuration.
#![tactic(auto)]

mod automations;
mod config;
mod helpers;
mod names;
mod scripts;
mod size;

pub use config::read_config;
