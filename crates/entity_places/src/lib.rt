//! Where entity ids stand first in a list: a table from ids to places.
#![tactic(auto)]

mod places;

pub use places::{FEW, Places};
