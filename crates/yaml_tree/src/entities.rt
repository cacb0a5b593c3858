//! Nodes as lists of entity ids.

ghost use Rattle.std.specs.Prelude.{◌≡◌, []};
ghost use Rattle.yaml_scan.specs.Answers.{Gives};
ghost use Rattle.yaml_scan.specs.declared.fault.Code.TheVariants as codes;
ghost use Rattle.yaml_scan.specs.declared.fault.YamlFault.{YamlFault};
ghost use Rattle.yaml_tree.specs.Entities.{Ids, part_id, split_from, text_ids, items_ids, some_ids, entities};

use crate::node::{Node, NodeKind};
use ha_value::{EntityFault, EntityId, Many};
use std::alloc::Global;
use yaml_scan::{Code, YamlFault, blanks, trimmed};

impl Node {
    /// The entity ids of a text or a list of texts, each split at commas, at least one. Anything else is C8: at the line of
    /// the text or item that is none, or of a list without any.
    pub fn entities(&self, alloc: Global) -> Result<Many<EntityId>, YamlFault>
        ensures { Gives (entities self.now) result }
    {
        match &self.kind {
            NodeKind::Scalar { .. } => self.text_ids(alloc, Many::make(alloc)),
            NodeKind::List(items) => list_ids(alloc, self.line, items.as_slice()),
            NodeKind::Map(_) => Err(no_id(self.line)),
        }
    }

    /// The ids of a text, behind those that were found.
    fn text_ids(&self, alloc: Global, found: Many<EntityId>) -> Result<Many<EntityId>, YamlFault>
        ensures { Gives (text_ids found self.now) result }
    {
        match self.text(alloc) {
            Ok(text) => split_ids(alloc, self.line, found, text.bytes()),
            Err(YamlFault::Memory) => Err(YamlFault::Memory),
            Err(YamlFault::Bad { .. }) => Err(no_id(self.line)),
        }
    }
}

#[tactic(auto, unfolding(crate::specs::Entities::items_ids))]
fn items_ids(alloc: Global, items: &[Node]) -> Result<Many<EntityId>, YamlFault>
    ensures { Gives (items_ids [] items.now) result }
{
    let mut found = Many::make(alloc);
    'items: for i in 0..items.len() {
        match items[i].text_ids(alloc, found) {
            Ok(more) => found = more,
            Err(fault) => return Err(fault),
        }
    }
    Ok(found)
}

/// The ids of a list on this line, at least one.
fn list_ids(alloc: Global, line: u32, items: &[Node]) -> Result<Many<EntityId>, YamlFault>
    ensures { Gives (some_ids line (items_ids [] items.now)) result }
{
    some_ids(line, items_ids(alloc, items))
}

/// At least one.
fn some_ids(line: u32, ids: Result<Many<EntityId>, YamlFault>) -> Result<Many<EntityId>, YamlFault>
    ensures { (meant : Ids) → Gives meant ids → Gives (some_ids line meant) result }
{
    match ids {
        Ok(ids) => {
            if ids.len() == 0 {
                return Err(no_id(line));
            }
            Ok(ids)
        }
        Err(fault) => Err(fault),
    }
}

/// The ids of a text that is split at commas, behind those that were found.
#[tactic(auto, unfolding(crate::specs::Entities::split_from))]
fn split_ids(
    alloc: Global,
    line: u32,
    found: Many<EntityId>,
    text: &[u8],
) -> Result<Many<EntityId>, YamlFault>
    ensures { Gives (split_from line found [] text.now) result }
{
    let mut found = found;
    let mut part = Vec::new(alloc);
    'text: for b in text {
        if *b == b',' {
            match part_id(alloc, line, found, part.as_slice()) {
                Ok(more) => found = more,
                Err(fault) => return Err(fault),
            }
            part.clear();
        } else {
            part.push(*b)?;
        }
    }
    part_id(alloc, line, found, part.as_slice())
}

/// One id more; the blanks at its two ends are dropped.
fn part_id(
    alloc: Global,
    line: u32,
    found: Many<EntityId>,
    part: &[u8],
) -> Result<Many<EntityId>, YamlFault>
    ensures { Gives (part_id line found part.now) result }
{
    let mut found = found;
    match EntityId::read(alloc, trimmed(&part[blanks(part)..])) {
        Ok(id) => {
            found.push(id)?;
            Ok(found)
        }
        Err(EntityFault::Shape) => Err(no_id(line)),
        Err(EntityFault::Memory) => Err(YamlFault::Memory),
    }
}

fn no_id(line: u32) -> YamlFault
    ensures { result ≡ YamlFault.Bad line codes.EntityId }
{
    YamlFault::Bad {
        line,
        code: Code::EntityId,
    }
}
