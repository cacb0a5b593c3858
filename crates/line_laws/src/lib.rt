//! Laws on the reader of lines: what it reads is the grammar's.
#![tactic(auto)]

pub mod laws;
