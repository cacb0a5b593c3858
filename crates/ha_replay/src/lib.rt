//! The lines of a trace, read: its first line, and each further one as the next lawful entry of a core or as the end line.
#![tactic(auto)]

mod boot;
mod fault;
mod last;
mod line;
mod room;
mod same;
mod stored;
mod worker;

pub use boot::{BootLine, read_boot};
pub use fault::TraceFault;
pub use line::replay_line;
pub use room::is_full;
