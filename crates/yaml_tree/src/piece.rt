//! Pieces of lines.

use crate::key::Key;
use crate::node::Node;

/// What stands at a column of a line. Columns count bytes from 0.
#[derive(Drop)]
pub struct Piece {
    pub line: u32,
    pub column: u64,
    pub what: What,
}

/// A dash, a key with its colon, or a scalar or flow.
#[derive(Drop)]
pub enum What {
    Dash,
    Key(Key),
    Leaf {
        node: Node,
        /// How many nodes stand in one another; a number past the limit may be less than it is.
        height: u32,
        /// It begins as what the profile leaves out.
        left_out: bool,
    },
}
