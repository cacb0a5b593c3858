//! The tree of pieces, by their columns.

ghost use Rattle.std.specs.Prelude.{◌≡◌, ◌<◌, ◌≤◌, ◌+◌, ◌∷◌, ℕ, [], length, MatchOption};
ghost use Rattle.std.specs.Option.{option_copied};
ghost use Rattle.yaml_scan.specs.declared.fault.YamlFault.{YamlFault};
ghost use Rattle.yaml_scan.specs.declared.fault.Code.TheVariants.{Structure};
ghost use Rattle.yaml_tree.specs.Layout.{Gives, IsTurn, front, is_dash, begins_with, list_on, map_on, value_floor, item, pair, list, map, leaf, head, node, document};

use crate::key::Key;
use crate::node::{Node, NodeKind, null};
use crate::pairs::Pairs;
use crate::piece::{Piece, What};
use ha_value::Many;
use std::alloc::Global;
use std::collections::VecDeque;
use std::marker::Model;
use yaml_scan::{Code, YamlFault};

/// How a node begins: a list or map at this column.
#[derive(Clone, Copy)]
pub enum Begins {
    Null,
    List(u64),
    Map(u64),
    Leaf,
}

/// A node's line and how it begins.
#[derive(Clone, Copy)]
pub struct Head {
    pub line: u32,
    pub begins: Begins,
}

/// Clauses see the pieces that are still to be read.
#[derive(Drop)]
pub struct Layout {
    rest: VecDeque<Piece>,
}

impl Model for Layout {
    ghost use Rattle.std.specs.Prelude.{List};
    ghost use Rattle.yaml_tree.specs.declared.piece.Piece.{Piece};
    ghost use Rattle.std.specs.Coded.{codes};
    ghost use Rattle.yaml_tree.specs.contracts.node.NodeKind as e;

    ghost Value = { List Piece };

    ghost coded = { Prim.hlevel (codes, e.the_row.coded) };

    ghost view = { λ l. l.rest.items };
}

impl Layout {
    pub fn new(pieces: VecDeque<Piece>) -> Layout
        ensures { result ≡ pieces.items }
    {
        Layout { rest: pieces }
    }

    fn peek(&self) -> Option<&Piece>
        ensures { option_copied result ≡ front self.now }
    {
        self.rest.front()
    }

    fn bump(&mut self) -> Option<Piece>
        ensures { MatchOption result ((self.old ≡ []) × (self.new ≡ [])) (λ p. self.old ≡ p ∷ self.new) }
    {
        self.rest.pop_front()
    }

    /// Whether the list at this column goes on.
    fn list_goes_on(&self, column: u64) -> Result<bool, YamlFault>
        ensures { IsTurn (list_on column (front self.now)) result }
    {
        let Some(piece) = self.peek() else {
            return Ok(false);
        };
        if piece.column < column {
            return Ok(false);
        }
        if column < piece.column {
            return Err(stop(piece.line, Code::Structure));
        }
        Ok(is_dash(&piece.what))
    }

    /// Whether the map at this column goes on.
    fn map_goes_on(&self, column: u64) -> Result<bool, YamlFault>
        ensures { IsTurn (map_on column (front self.now)) result }
    {
        let Some(piece) = self.peek() else {
            return Ok(false);
        };
        if piece.column < column {
            return Ok(false);
        }
        if column < piece.column {
            return Err(stop(piece.line, Code::Structure));
        }
        match &piece.what {
            What::Key(_) => Ok(true),
            What::Leaf { left_out: true, .. } => Err(stop(piece.line, Code::LeftOut)),
            _ => Err(stop(piece.line, Code::Structure)),
        }
    }

    /// The least column of a value of a key at this column.
    fn value_floor(&self, column: u64) -> u128
        ensures { result ≡ value_floor column (front self.now) }
    {
        match self.peek() {
            Some(piece) if is_dash(&piece.what) && piece.column == column => u128::from(column),
            _ => u128::from(column) + 1,
        }
    }

    #[cycle(read)]
    #[tactic(auto, unfolding(crate::specs::Layout::list, crate::specs::Layout::rows))]
    fn list(&mut self, alloc: Global, depth: u32, column: u64) -> Result<Many<Node>, YamlFault>
        ensures exact { Gives (list (node depth) column self.old) result self.new }
        ensures shorter { length self.new ≤ length self.old }
    {
        let mut items = Many::make(alloc);
        'items: loop {
            if !self.list_goes_on(column)? {
                return Ok(items);
            }
            let item = self.item(alloc, depth)?;
            items.push(item)?;
        }
    }

    #[cycle(read)]
    #[tactic(auto, unfolding(crate::specs::Layout::item))]
    fn item(&mut self, alloc: Global, depth: u32) -> Result<Node, YamlFault>
        requires { 0 < length self.old }
        ensures exact { Gives (item (node depth) self.old) result self.new }
        ensures shorter { length self.new < length self.old }
    {
        let Some(
            Piece {
                line,
                column,
                what: _,
            },
        ) = self.bump()
        else {
            unreachable!();
        };
        self.node(alloc, depth, line, u128::from(column) + 1)
    }

    #[cycle(read)]
    #[tactic(auto, unfolding(crate::specs::Layout::map, crate::specs::Layout::rows))]
    fn map(&mut self, alloc: Global, depth: u32, column: u64) -> Result<Pairs, YamlFault>
        ensures exact { Gives (map (node depth) column self.old) result self.new }
        ensures shorter { length self.new ≤ length self.old }
    {
        let mut pairs = Pairs::new(alloc);
        'pairs: loop {
            if !self.map_goes_on(column)? {
                return Ok(pairs);
            }
            let pair = self.pair(alloc, depth, &pairs)?;
            pairs = pairs.push(alloc, pair)?;
        }
    }

    #[cycle(read)]
    #[tactic(auto, unfolding(crate::specs::Layout::pair))]
    fn pair(
        &mut self,
        alloc: Global,
        depth: u32,
        found: &Pairs,
    ) -> Result<(Key, u32, Node), YamlFault>
        requires { 0 < length self.old }
        ensures exact { Gives (pair (node depth) found.now self.old) result self.new }
        ensures shorter { length self.new < length self.old }
    {
        let Some(Piece { line, column, what }) = self.bump() else {
            unreachable!();
        };
        let What::Key(key) = what else {
            return Err(stop(line, Code::Structure));
        };
        if found.has(&key) {
            return Err(stop(line, Code::RepeatedKey));
        }
        let floor = self.value_floor(column);
        let value = self.node(alloc, depth, line, floor)?;
        Ok((key, line, value))
    }

    /// A node whose holder stands on this line, at this column or right of it; else null.
    #[cycle(read)]
    #[tactic(auto, unfolding(crate::specs::Layout::node))]
    fn node(&mut self, alloc: Global, depth: u32, line: u32, floor: u128) -> Result<Node, YamlFault>
        ensures exact { Gives (node depth line floor self.old) result self.new }
        ensures shorter { length self.new ≤ length self.old }
    {
        let head = self.head(line, floor);
        if depth == 0 {
            return Err(stop(head.line, Code::Limit));
        }
        match head.begins {
            Begins::Null => Ok(null(alloc, head.line)),
            Begins::List(column) => {
                let items = self.list(alloc, depth - 1, column)?;
                Ok(Node {
                    line: head.line,
                    kind: NodeKind::List(items),
                })
            }
            Begins::Map(column) => {
                let pairs = self.map(alloc, depth - 1, column)?;
                Ok(Node {
                    line: head.line,
                    kind: NodeKind::Map(pairs.into_list(alloc)?),
                })
            }
            Begins::Leaf => self.leaf(depth),
        }
    }

    /// How the node begins whose holder stands on this line.
    fn head(&self, line: u32, floor: u128) -> Head
        ensures { result ≡ head line floor (front self.now) }
    {
        match self.peek() {
            Some(piece) if u128::from(piece.column) >= floor => Head {
                line: piece.line,
                begins: begins_at(piece),
            },
            _ => Head {
                line,
                begins: Begins::Null,
            },
        }
    }

    /// A leaf that may be so many nodes deep.
    fn leaf(&mut self, depth: u32) -> Result<Node, YamlFault>
        ensures exact { Gives (leaf depth self.old) result self.new }
        ensures shorter { length self.new ≤ length self.old }
    {
        let Some(
            Piece {
                line,
                column: _,
                what,
            },
        ) = self.bump()
        else {
            return Err(stop(0, Code::Structure));
        };
        let What::Leaf { node, height, .. } = what else {
            return Err(stop(line, Code::Structure));
        };
        if depth < height {
            return Err(stop(line, Code::Limit));
        }
        Ok(node)
    }

    /// The tree of all pieces.
    #[tactic(auto, unfolding(crate::specs::Layout::document))]
    pub fn document(&mut self, alloc: Global) -> Result<Node, YamlFault>
        ensures { Gives (document self.old) result self.new }
    {
        let root = self.node(alloc, 64, 1, 0)?;
        if let Some(piece) = self.peek() {
            return Err(stop(piece.line, Code::Structure));
        }
        Ok(root)
    }
}

fn stop(line: u32, code: Code) -> YamlFault
    ensures { result ≡ YamlFault.Bad line code }
{
    YamlFault::Bad { line, code }
}

fn is_dash(what: &What) -> bool
    ensures { result ≡ is_dash what.now }
{
    matches!(what, What::Dash)
}

fn begins_at(piece: &Piece) -> Begins
    ensures { result ≡ begins_with piece.now.column piece.now.what }
{
    match &piece.what {
        What::Dash => Begins::List(piece.column),
        What::Key(_) => Begins::Map(piece.column),
        What::Leaf { .. } => Begins::Leaf,
    }
}
