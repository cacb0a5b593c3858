//! The journal: its entries, and the switches, states, triggers, waits and attempts that they give.
#![tactic(auto)]

mod carry;
mod copies;
mod entry;
mod event;
mod firing;

pub use carry::Carry;
pub use copies::copy_moments;
pub use entry::Entry;
pub use event::BusEvent;
pub use firing::Firing;
