//! The table of the last segment's runs, over the one table of all segments.
#![tactic(auto)]

pub mod laws;
mod segment;

pub use segment::SegmentRuns;
