//! The pairs of a map while it is read.

ghost use Rattle.std.specs.Prelude.{◌≡◌, ◌↔◌, ◌++◌, ◌∷◌, [], map, IfOk, IsTrue};
ghost use Rattle.yaml_tree.specs.Nodes.{has_key, worded};

use crate::key::Key;
use crate::node::{Node, word};
use ha_value::{Many, Word};
use std::alloc::{AllocError, Global};
use std::collections::{BTreeSet, VecDeque};
use std::marker::Model;

/// Clauses see the pairs. The set has their keys, so that a repeated one is found quickly.
#[derive(Drop)]
pub struct Pairs {
    list: VecDeque<(Key, u32, Node)>,
    seen: BTreeSet<Key>,
}

impl Model for Pairs {
    ghost use Rattle.std.specs.Prelude.{◌≡◌, List, ℕ};
    ghost use Rattle.std.specs.Ordering.{nat_cmp};
    ghost use Rattle.std.specs.Cmp.Lexicographic.{slice_cmp};
    ghost use Rattle.std.specs.BTreeSet.{contains};
    ghost use Rattle.yaml_tree.specs.declared.node.Node.{Node};
    ghost use Rattle.yaml_tree.specs.Nodes.{has_key};
    ghost use Rattle.std.specs.Coded.{codes};
    ghost use Rattle.yaml_tree.specs.contracts.node.NodeKind as e;

    ghost Value = { List (List ℕ × ℕ × Node) };

    ghost coded = { Prim.hlevel (codes, e.the_row.coded) };

    ghost view = { λ p. p.list.items };

    ghost invariant = { λ p. (q : List ℕ) → contains (slice_cmp nat_cmp) p.seen q ≡ has_key p.list.items q };
}

/// A pair with its key as a text.
fn worded(alloc: Global, pair: (Key, u32, Node)) -> Result<(Word, u32, Node), AllocError>
    ensures { IfOk result (λ made. made ≡ worded pair) }
{
    let (key, line, node) = pair;
    let key = word(alloc, key.bytes())?;
    Ok((key, line, node))
}

impl Pairs {
    pub fn new(alloc: Global) -> Pairs
        ensures { result ≡ [] }
    {
        Pairs {
            list: VecDeque::new(alloc),
            seen: BTreeSet::new(alloc),
        }
    }

    pub fn is_empty(&self) -> bool
        ensures { IsTrue result ↔ (self.now ≡ []) }
    {
        self.list.is_empty()
    }

    pub fn has(&self, key: &Key) -> bool
        ensures { result ≡ has_key self.now key.now }
    {
        self.seen.contains(key)
    }

    /// One more pair at the end.
    pub fn push(self, alloc: Global, pair: (Key, u32, Node)) -> Result<Pairs, AllocError>
        ensures { IfOk result (λ pairs. pairs ≡ self ++ pair ∷ []) }
    {
        let Pairs { mut list, mut seen } = self;
        seen.insert(Key::of(alloc, pair.0.bytes())?)?;
        list.push_back(pair)?;
        Ok(Pairs { list, seen })
    }

    /// The pairs with their keys as texts.
    pub fn into_list(self, alloc: Global) -> Result<Many<(Word, u32, Node)>, AllocError>
        ensures { IfOk result (λ pairs. pairs ≡ map worded self) }
    {
        let mut rest = self.list;
        let mut list = Many::make(alloc);
        'pairs: while let Some(pair) = rest.pop_front() {
            list.push(worded(alloc, pair)?)?;
        }
        Ok(list)
    }
}
