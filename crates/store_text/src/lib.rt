//! The text of the store: which automations are on and when they last triggered, as JSON over `serde_json`.
#![tactic(auto)]

mod read;
mod stored;
mod write;

pub use read::{StoreFault, read_store};
pub use stored::Stored;
pub use write::write_store;
