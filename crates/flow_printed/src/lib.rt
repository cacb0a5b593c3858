//! Commands and lines of a trace, read where the text has exactly the bytes that are printed of them.
//!
//! A report without attributes is read of the bytes at once, where they have the form of most of these. Any other text is read as a value
//! (`flow_line`), printed again and compared; then the command is taken out of the map's pairs, which stand in the order in which a command
//! is printed.
#![tactic(auto)]

mod command;
mod cut;
mod digits;
mod fields;
mod kind;
pub mod laws;
mod line;
mod parts;
mod plain;
mod printed;

pub use line::{PrintedLine, read_line};
pub use printed::read_printed;
