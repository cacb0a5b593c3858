//! Values of any shape: scalars, lists of values, and maps from texts to values.

ghost use Rattle.std.specs.Prelude.{◌≡◌, ℕ, Bool, List, Result, Ok};
ghost use Rattle.yaml_scan.specs.Answers.{Gives};
ghost use Rattle.yaml_scan.specs.declared.fault.Fault.{Fault};
ghost use Rattle.conf_field.specs.Readings as readings;
ghost use Rattle.conf_field.specs.Trees as trees;

use crate::parts::{bad, behind};
use crate::table::Pair;
use ha_value::{Many, Plain, Word};
use std::alloc::Global;
use yaml_scan::{Code, YamlFault};
use yaml_tree::{Node, NodeKind};

/// What scalars are, and what is made of lists and maps.
pub trait Build {
    type Made: Drop;

    /// What a scalar on a line is, by its text and whether it is plain.
    ghost leaf: { ℕ → List ℕ → Bool → Result Self.Made Fault };

    ghost listed: { List Self.Made → Self.Made };

    ghost mapped: { List (List ℕ × Self.Made) → Self.Made };

    fn scalar(alloc: Global, line: u32, text: &Word, plain: bool) -> Result<Self::Made, YamlFault>
        ensures { Gives (leaf line text.now plain) result };

    fn list(items: Many<Self::Made>) -> Self::Made
        ensures { result ≡ listed items };

    fn map(pairs: Many<(Word, Self::Made)>) -> Self::Made
        ensures { result ≡ mapped pairs };
}

/// What a list is, of what its items are.
fn made_list<B: Build>(items: Result<Many<B::Made>, YamlFault>) -> Result<B::Made, YamlFault>
    ensures { (m : readings.Read (List B.Made)) → Gives m items → Gives (readings.made B.listed m) result }
{
    match items {
        Ok(items) => Ok(B::list(items)),
        Err(fault) => Err(fault),
    }
}

/// What a map is, of what its values are.
fn made_map<B: Build>(pairs: Result<Many<(Word, B::Made)>, YamlFault>) -> Result<B::Made, YamlFault>
    ensures { (m : readings.Read (List (List ℕ × B.Made))) → Gives m pairs → Gives (readings.made B.mapped m) result }
{
    match pairs {
        Ok(pairs) => Ok(B::map(pairs)),
        Err(fault) => Err(fault),
    }
}

/// A value with its key.
fn with_key<A: Drop>(
    alloc: Global,
    key: &Word,
    value: Result<A, YamlFault>,
) -> Result<(Word, A), YamlFault>
    ensures { (m : readings.Read A) → Gives m value → Gives (readings.made (λ v. (key.now, v)) m) result }
{
    match value {
        Ok(value) => match key.copy(alloc) {
            Ok(key) => Ok((key, value)),
            Err(_) => Err(YamlFault::Memory),
        },
        Err(fault) => Err(fault),
    }
}

/// A value of any shape.
#[cycle(tree)]
pub fn tree<B: Build>(node: &Node, alloc: Global) -> Result<B::Made, YamlFault>
    ensures { Gives (trees.tree B.leaf B.listed B.mapped node.now) result }
{
    match &node.kind {
        NodeKind::Scalar { text, plain } => B::scalar(alloc, node.line, text, *plain),
        NodeKind::List(items) => made_list::<B>(items_of::<B>(items.as_slice(), alloc)),
        NodeKind::Map(pairs) => made_map::<B>(fields_of::<B>(pairs.as_slice(), alloc)),
    }
}

#[cycle(tree)]
#[tactic(auto, unfolding(crate::specs::Readings::each_behind))]
pub fn items_of<B: Build>(items: &[Node], alloc: Global) -> Result<Many<B::Made>, YamlFault>
    ensures { Gives (readings.each (trees.tree B.leaf B.listed B.mapped) items.now) result }
{
    let mut found = Ok(Many::make(alloc));
    'items: for i in 0..items.len() {
        found = behind(found, tree::<B>(&items[i], alloc));
    }
    found
}

#[cycle(tree)]
#[tactic(auto, unfolding(crate::specs::Readings::each_behind))]
pub fn fields_of<B: Build>(
    pairs: &[Pair],
    alloc: Global,
) -> Result<Many<(Word, B::Made)>, YamlFault>
    ensures { Gives (trees.fields_of (trees.tree B.leaf B.listed B.mapped) pairs.now) result }
{
    let mut found = Ok(Many::make(alloc));
    'pairs: for i in 0..pairs.len() {
        let pair = &pairs[i];
        found = behind(found, with_key(alloc, &pair.0, tree::<B>(&pair.2, alloc)));
    }
    found
}

/// A map of values of any shape, or null for none.
pub fn data_of<B: Build>(
    alloc: Global,
    line: u32,
    node: &Node,
) -> Result<Many<(Word, B::Made)>, YamlFault>
    ensures { Gives (trees.data_of (trees.tree B.leaf B.listed B.mapped) line node.now) result }
{
    match &node.kind {
        NodeKind::Scalar { .. } => {
            if node.is_null() {
                return Ok(Many::make(alloc));
            }
            bad(line, Code::Kind)
        }
        NodeKind::List(_) => bad(line, Code::Kind),
        NodeKind::Map(pairs) => fields_of::<B>(pairs.as_slice(), alloc),
    }
}
