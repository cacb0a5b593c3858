//! The size of a tree. That of a text of 1,048,576 bytes is far below the bound, which no clause of the tree's reader says.

ghost use Rattle.std.specs.Prelude.{◌≡◌, ◌+◌, ◌<◌, IfSome, IsTrue};
ghost use Rattle.conf_field.specs.Sizes.{size, total};
ghost use Rattle.conf_auto.specs.Sizes.{pair_size};

use conf_field::Pair;
use yaml_tree::{Node, NodeKind};

/// What is left of so much behind one node or key and so many bytes; none where there is less.
fn one_and(left: usize, bytes: usize) -> Option<usize>
    ensures { IfSome result (λ rest. rest + (1 + bytes) ≡ left) }
{
    if bytes < left {
        return Some(left - bytes - 1);
    }
    None
}

/// What is left of so much behind a node.
#[cycle(size)]
fn behind_node(node: &Node, left: usize) -> Option<usize>
    ensures { IfSome result (λ rest. rest + size node.now ≡ left) }
{
    match &node.kind {
        NodeKind::Scalar { text, plain: _ } => one_and(left, text.bytes().len()),
        NodeKind::List(items) => match one_and(left, 0) {
            Some(rest) => behind_items(items.as_slice(), rest),
            None => None,
        },
        NodeKind::Map(pairs) => match one_and(left, 0) {
            Some(rest) => behind_pairs(pairs.as_slice(), rest),
            None => None,
        },
    }
}

#[cycle(size)]
fn behind_items(items: &[Node], left: usize) -> Option<usize>
    ensures { IfSome result (λ rest. rest + total size items.now ≡ left) }
{
    let mut rest = left;
    'items: for i in 0..items.len() {
        match behind_node(&items[i], rest) {
            Some(less) => rest = less,
            None => return None,
        }
    }
    Some(rest)
}

#[cycle(size)]
fn behind_pairs(pairs: &[Pair], left: usize) -> Option<usize>
    ensures { IfSome result (λ rest. rest + total pair_size pairs.now ≡ left) }
{
    let mut rest = left;
    'pairs: for i in 0..pairs.len() {
        let pair = &pairs[i];
        match one_and(rest, pair.0.bytes().len()) {
            Some(less) => match behind_node(&pair.2, less) {
                Some(least) => rest = least,
                None => return None,
            },
            None => return None,
        }
    }
    Some(rest)
}

/// Whether the tree is so small that every list in it is short.
pub(crate) fn is_small(root: &Node) -> bool
    ensures { IsTrue result → size root.now < 2_147_483_648 }
{
    behind_node(root, 2_147_483_647).is_some()
}
