//! A run's script, step by step: its open blocks, loops, waits and parallel branches.
#![tactic(auto)]

mod act;
mod asking;
mod blocks;
mod choices;
mod fault;
mod fields;
mod forms;
mod frames;
mod gates;
mod held;
pub mod laws;
mod listing;
mod loops;
mod next;
mod own;
mod parts;
mod scopes;
mod sides;
mod sizes;
mod spans;
mod step;
mod strand;
mod taken;
mod targets;
mod thread;
mod turns;

pub use frames::Frames;
pub use held::Held;
pub use taken::Taken;
