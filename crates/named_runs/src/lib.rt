//! The runs of a segment, numbered by the names of their units: a unit that came into force behind another of its name goes on with its
//! numbers.
#![tactic(auto)]

mod counts;
mod runs;

pub use runs::{NamedRuns, Opening};
