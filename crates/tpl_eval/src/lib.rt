//! Templates rendered: the values of expressions, and the text of the joined pieces.
#![tactic(auto)]

mod equal;
mod held;
mod operators;
mod page;
mod pairs;
mod parts;
mod paths;
mod pieces;
mod rendering;
mod scope;
mod sizes;
mod states;
mod steps;
mod value;
mod within;

pub use rendering::render;
pub use states::function;
