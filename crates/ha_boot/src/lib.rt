//! What is asked of the core that is run.
#![tactic(auto)]

mod boots;

pub use boots::Boots;
