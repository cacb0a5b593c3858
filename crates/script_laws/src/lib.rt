//! What a script means, said directly, and that it is what the frames of runs are proved against.
#![tactic(auto)]

pub mod laws;
