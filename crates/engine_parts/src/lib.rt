//! What an engine keeps beside the records, and how an entry is told to it: who is ready, who waits, and who wakes.
#![tactic(auto)]

pub mod attempts;
pub mod attend;
pub mod called;
pub mod forget;
pub mod last;
pub mod laws;
pub mod left;
pub mod note;
pub mod order;
pub mod parts;
pub mod ready;
pub mod rested;
pub mod see;
pub mod slots;
pub mod tested;
pub mod texts;
pub mod wake;
