//! Scripts that are called: which calls the core does itself, what a place sees with the scripts, and which run waits for which run that it
//! called.
#![tactic(auto)]

mod answers;
mod calls;
mod pairs;
mod seeing;
mod services;

pub use calls::Calls;
pub use seeing::Seeing;
pub use services::resolve;
