//! Where the units of a segment stand in the list of all entries: each came into force with the boot or with a reload.
#![tactic(auto)]

mod book;
mod grown;
mod places;

pub use book::UnitBook;
pub use places::config_at;
