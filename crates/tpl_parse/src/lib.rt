//! Templates: `parse` reads a text into its tree.
//!
//! The text stands between tags: `{{ .. }}` shows an expression, `{% .. %}` sets a name or chooses, `{# .. #}` is a comment. How
//! the text is read from left to right, with the first byte at which no reading goes on, is `specs/Reading.antt`.
#![tactic(auto)]

mod expression;
mod fault;
mod found;
pub mod laws;
mod literal;
mod names;
mod operand;
mod parser;
mod pieces;
mod range_end;
mod read;
mod table;
mod token;
mod tree;

pub use fault::ParseFault;
pub use read::parse;
pub use tree::discard_template;
