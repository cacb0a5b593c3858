//! The tree of a YAML text.
#![tactic(auto)]

mod entities;
mod flow;
mod key;
mod layout;
mod leaf;
mod node;
mod outer;
mod pairs;
mod piece;
mod pieces;
mod readers;
mod starts;
mod tree;

pub use flow::{Flow, Frame, Turn};
pub use key::Key;
pub use layout::{Begins, Head, Layout};
pub use leaf::{Trouble, Wrong};
pub use node::{Node, NodeKind};
pub use outer::{Outer, Shelved};
pub use pairs::Pairs;
pub use piece::{Piece, What};
pub use pieces::Pieces;
pub use starts::Start;
pub use tree::read_tree;
