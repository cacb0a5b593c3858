//! The program as a function over its words and the outside.
#![tactic(auto)]

mod files;
mod outcome;
mod prepare;
mod program;
mod top;

pub use ha_boot::Boots;
pub use outcome::Outcome;
pub use program::hearth;
pub use top::run_live;
