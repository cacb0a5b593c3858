//! The reading of configurations that reloads go by.
#![tactic(auto)]

mod reader;

pub use reader::Reader;
