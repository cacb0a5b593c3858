//! The filters of templates, the functions that ask no state, and the texts that templates make.
#![tactic(auto)]

mod filters;
mod functions;
mod lists;
mod numbers;
mod outcome;
mod texts;

pub use filters::filter;
pub use functions::{chosen, function_of_values};
pub use outcome::{copied, given};
pub use texts::{TEXT_LIMIT, add, joined, printed, without_breaks, word};
