//! Laws on the reader of templates: the place of each refusal is the first fault.
#![tactic(auto)]

pub mod laws;
