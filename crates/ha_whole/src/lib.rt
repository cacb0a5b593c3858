//! What a whole journal means, by its segments, each read alone; and what is asked of a core, which puts to one.
#![tactic(auto)]

mod faults;
mod traits;

pub use faults::CoreFault;
pub use traits::Core;
