//! Laws on runs: the calls of one entry, in order, give the records of the journal.
#![tactic(auto)]

pub mod laws;
