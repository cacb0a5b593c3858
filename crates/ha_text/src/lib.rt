//! Texts of names and streams: slugs, and the lines of a stream.
#![tactic(auto)]

pub mod laws;
mod lines;
mod slugs;

pub use lines::LineCut;
pub use slugs::slug;
