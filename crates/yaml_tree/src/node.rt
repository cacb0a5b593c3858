//! Nodes.

ghost use Rattle.std.specs.Prelude.{◌≡◌, IfOk};
ghost use Rattle.yaml_tree.specs.Nodes.{null, word, scalar_node};

use ha_value::{Many, Word};
use std::alloc::{AllocError, Global};

/// A node, with the line that it begins on.
#[cycle(node)]
#[derive(Drop)]
pub struct Node {
    pub line: u32,
    pub kind: NodeKind,
}

/// A scalar, a list, or a map of keys, the keys' lines and values. A scalar is plain where it stands neither in quotes nor
/// as a block. Null is a plain scalar that is empty, `~` or `null`.
#[cycle(node)]
#[derive(Drop)]
pub enum NodeKind {
    Scalar { text: Word, plain: bool },
    List(Many<Node>),
    Map(Many<(Word, u32, Node)>),
}

/// A value that is left out.
pub(crate) fn null(alloc: Global, line: u32) -> Node
    ensures { result ≡ null line }
{
    Node {
        line,
        kind: NodeKind::Scalar {
            text: Word::new(alloc),
            plain: true,
        },
    }
}

/// The text of these bytes. Where they are not UTF-8 the text as a whole is refused.
pub(crate) fn word(alloc: Global, bytes: &[u8]) -> Result<Word, AllocError>
    ensures { IfOk result (λ w. w ≡ word bytes.now) }
{
    let word = Word::from_string(alloc, String::from_utf8_lossy(alloc, bytes)?)?;
    Ok(word)
}

pub(crate) fn scalar_node(
    alloc: Global,
    line: u32,
    bytes: &[u8],
    plain: bool,
) -> Result<Node, AllocError>
    ensures { IfOk result (λ n. n ≡ scalar_node line bytes.now plain) }
{
    Ok(Node {
        line,
        kind: NodeKind::Scalar {
            text: word(alloc, bytes)?,
            plain,
        },
    })
}
