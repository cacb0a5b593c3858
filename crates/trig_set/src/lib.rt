//! Triggers that are attached, and what fires at each entry.
#![tactic(auto)]

mod attached;
mod attributes;
mod before;
mod blank;
mod changes;
mod concerned;
mod equal;
mod event;
mod events;
pub mod laws;
mod left;
mod listed;
mod many_spots;
mod moved;
mod moving;
mod noted;
mod numbers;
mod opening;
mod ordered;
mod owners;
mod places;
mod reads;
mod recent;
mod scene;
mod set;
mod shifts;
mod spot;
mod timed;

pub use before::Before;
pub use set::TrigSet;
