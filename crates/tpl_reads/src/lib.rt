//! Which entities a template reads, where they are all written in it.
#![tactic(auto)]

mod exprs;
mod found;
pub mod laws;
mod named;
mod pieces;

pub use pieces::entities_read;
