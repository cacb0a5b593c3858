//! The switches of the automations, and the text that stores them.
#![tactic(auto)]

mod book;
pub mod laws;

pub use book::Switches;
pub use store_text::{StoreFault, Stored, read_store};
