//! A run over a booted core: the bus is started, a worker for each source works, and the status follows.
#![tactic(auto)]

mod core_run;
mod finish;
mod status;
mod team;

pub use core_run::{CoreRun, run_core};
