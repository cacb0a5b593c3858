//! Values of lines: `read_value` reads the notation, `print_value` writes it.
//!
//! The notation is that of JSON, but for numbers, which are number text (`ha_value`), and for keys, which are distinct. The
//! grammar is `specs/Grammar.antt`; how it is read from left to right, with the first fault, is `specs/Reading.antt`.
#![tactic(auto)]

mod bytes;
mod command;
mod fault;
mod fields;
mod found_pairs;
mod keys;
pub mod laws;
mod number;
mod print;
mod read;
mod refusal;
mod text;
mod value;

pub use command::read_cmd;
pub use fault::{Code, FlowFault};
pub use print::{print_value, push_chars, push_comma, push_pairs, push_quoted};
pub use read::read_value;
