//! The bus: a core with its sinks and its keeper. What is put to the core is written put by put.
#![tactic(auto)]

mod bus;
mod end;
mod fault;
mod show;
mod write;

pub use bus::Bus;
pub use end::Ended;
pub use fault::BusFault;
pub use write::{write_call, write_error};
