//! The reader of actions.
#![tactic(auto)]

mod actions;
mod calls;
mod forms;
mod kinds;
mod made;
mod name;
mod repeats;

pub use actions::read_actions;
pub use name::{ActionName, RepeatName};
