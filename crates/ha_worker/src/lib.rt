//! A source's worker: it reads its source piece by piece, and puts the lines of a piece on the bus, with the steps that they begin, in one
//! turn.
#![tactic(auto)]

mod end;
mod ending;
mod halt;
mod lines;
mod pieces;
mod puts;
mod steps;
mod turns;
mod worker;

pub use end::WorkerEnd;
pub use steps::close;
pub use worker::Worker;
