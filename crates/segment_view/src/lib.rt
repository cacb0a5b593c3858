//! The last segment of a journal as code sees it: by the flat list of all entries, with nothing copied.
#![tactic(auto)]

mod behind;
mod entries;
mod force;
mod segment;

pub use behind::Behind;
pub use force::{place_of, rule_of};
pub use segment::Segment;
