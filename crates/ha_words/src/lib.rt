//! The words of the command line, by `clap`.
#![tactic(auto)]

mod commands;
mod counts;
mod plan;
mod read;
mod texts;
mod values;

pub use plan::{Plan, RunWords, WordsFault};
pub use read::read_words;
