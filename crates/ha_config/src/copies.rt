//! Copies of this crate's types, and whether two values are the same.
mod actions;
mod command;
mod conditions;
mod config;
mod forms;
mod helper;
mod template;
pub mod times;
mod triggers;
