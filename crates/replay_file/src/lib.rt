//! The command `replay`: a trace's file is read, each line of it is judged, and the lines of its calls and errors are written.
#![tactic(auto)]

mod boot;
mod cut;
mod front;
mod judge;
mod replay;

pub use replay::replay_call;
