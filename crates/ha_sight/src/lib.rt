//! What one place sees, and what templates, conditions, triggers' rules and scripts mean by it.
#![tactic(auto)]

mod answers;
mod copies;
mod data;
mod env;
mod faults;
mod helped;
mod item;
mod once;
mod part;
mod parts;
mod shared;
mod state;
mod steps;
mod trigger_data;
mod trigger_pairs;
mod waiting;

pub use answers::{Answers, Ended};
pub use data::as_data;
pub use env::{Env, Seen};
pub use faults::TplFault;
pub use helped::{HelperChange, HelperService, Wanted};
pub use item::{Branch, Item};
pub use once::add_once;
pub use part::Part;
pub use parts::{attribute_text, true_in};
pub use state::{Change, StateObject, next_object};
pub use steps::{Inner, Progress, StepOut};
pub use trigger_data::TriggerData;
pub use waiting::{WaitAsk, WaitEnd};
