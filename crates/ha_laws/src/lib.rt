//! Laws of the journal's meaning, with the words that they need, and worked journals.
#![tactic(auto)]

pub mod laws;
