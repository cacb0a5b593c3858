//! Services and targets of calls.

ghost use Rattle.std.specs.Prelude.{◌≡◌, ◌∷◌, ◌++◌, [], ℕ, List, Option, Result, None, Some, Ok};
ghost use Rattle.ha_value.specs.Ids.{entity_text};
ghost use Rattle.ha_config.specs.declared.template.Template.{Template as Tree};
ghost use Rattle.yaml_scan.specs.Answers.{Gives};
ghost use Rattle.yaml_scan.specs.declared.fault.Fault.{Fault};
ghost use Rattle.yaml_tree.specs.declared.node.Node.{Node};
ghost use Rattle.conf_field.specs.Kinds as kinds;
ghost use Rattle.conf_field.specs.Readings.{Read, made};
ghost use Rattle.conf_script.specs.Calls as calls;
ghost use Rattle.conf_script.specs.Forms as forms;

use crate::forms::literal;
use conf_field::rows::ENTITY_ID;
use conf_field::{
    Kind, Pair, bad, behind, both, holds_template, keys, optional, scalar, template_text,
};
use ha_config::Template;
use ha_value::{EntityFault, EntityId, Many};
use std::alloc::Global;
use yaml_scan::{Code, YamlFault, blanks, trimmed};
use yaml_tree::{Node, NodeKind};

/// An id as a template.
fn literal_id(alloc: Global, id: &EntityId) -> Result<Template, YamlFault>
    ensures { Gives (Ok (forms.literal (entity_text id.now))) result }
{
    match id.print(alloc) {
        Ok(word) => literal(alloc, &word),
        Err(_) => Err(YamlFault::Memory),
    }
}

/// A literal id.
fn id_text(alloc: Global, line: u32, text: &[u8]) -> Result<Template, YamlFault>
    ensures { Gives (calls.id_text line text.now) result }
{
    match EntityId::read(alloc, text) {
        Ok(id) => literal_id(alloc, &id),
        Err(EntityFault::Shape) => bad(line, Code::EntityId),
        Err(EntityFault::Memory) => Err(YamlFault::Memory),
    }
}

fn service_text(alloc: Global, line: u32, text: &[u8]) -> Result<Template, YamlFault>
    ensures { Gives (calls.service_by line (Some text.now)) result }
{
    if holds_template(text) {
        return template_text(alloc, line, text);
    }
    id_text(alloc, line, text)
}

/// A template, or a name in the form of an entity id.
pub(crate) struct Service;

impl Kind for Service {
    type Made = Template;

    ghost meaning = { calls.service };

    fn read(alloc: Global, line: u32, node: &Node) -> Result<Template, YamlFault> {
        match scalar(node) {
            Some(text) => service_text(alloc, line, text),
            None => bad(line, Code::Kind),
        }
    }
}

// ---- targets

fn part_id(alloc: Global, line: u32, part: &[u8]) -> Result<Template, YamlFault>
    ensures { Gives (calls.part_id line part.now) result }
{
    id_text(alloc, line, trimmed(&part[blanks(part)..]))
}

fn is_comma(byte: u8) -> bool
    ensures { result ≡ calls.is_comma byte }
{
    byte == b','
}

/// The ids of a text that is split at commas, behind others.
#[tactic(auto, unfolding(crate::specs::Calls::ids_from))]
fn ids_of(
    alloc: Global,
    line: u32,
    before: Result<Many<Template>, YamlFault>,
    text: &[u8],
) -> Result<Many<Template>, YamlFault>
    ensures { (m : Read (List Tree)) → Gives m before → Gives (calls.ids_from line m [] text.now) result }
{
    let mut found = before;
    let mut part = Vec::new(alloc);
    'text: for b in text {
        if is_comma(*b) {
            found = behind(found, part_id(alloc, line, part.as_slice()));
            part.clear();
        } else {
            part.push(*b)?;
        }
    }
    behind(found, part_id(alloc, line, part.as_slice()))
}

/// The targets of one text, behind others.
fn targets_text(
    alloc: Global,
    before: Result<Many<Template>, YamlFault>,
    line: u32,
    node: &Node,
) -> Result<Many<Template>, YamlFault>
    ensures { (m : Read (List Tree)) → Gives m before → Gives (calls.targets_text m line (kinds.scalar node.now)) result }
{
    match scalar(node) {
        Some(text) => text_targets(alloc, before, line, text),
        None => behind(before, bad(line, Code::Kind)),
    }
}

fn text_targets(
    alloc: Global,
    before: Result<Many<Template>, YamlFault>,
    line: u32,
    text: &[u8],
) -> Result<Many<Template>, YamlFault>
    ensures { (m : Read (List Tree)) → Gives m before → Gives (calls.targets_text m line (Some text.now)) result }
{
    if holds_template(text) {
        return behind(before, template_text(alloc, line, text));
    }
    ids_of(alloc, line, before, text)
}

#[tactic(auto, unfolding(crate::specs::Calls::targets_behind))]
fn each_target(alloc: Global, items: &[Node]) -> Result<Many<Template>, YamlFault>
    ensures { Gives (calls.targets_behind (Ok []) items.now) result }
{
    let mut found = Ok(Many::make(alloc));
    'items: for i in 0..items.len() {
        let item = &items[i];
        found = targets_text(alloc, found, item.line, item);
    }
    found
}

fn one_target(alloc: Global, line: u32, node: &Node) -> Result<Many<Template>, YamlFault>
    ensures { Gives (calls.targets_text (Ok []) line (kinds.scalar node.now)) result }
{
    targets_text(alloc, Ok(Many::make(alloc)), line, node)
}

/// Texts or templates, split at commas where no template is held.
pub(crate) struct Targets;

impl Kind for Targets {
    type Made = Many<Template>;

    ghost meaning = { calls.targets };

    fn read(alloc: Global, line: u32, node: &Node) -> Result<Many<Template>, YamlFault> {
        match &node.kind {
            NodeKind::Scalar { .. } => one_target(alloc, line, node),
            NodeKind::List(items) => each_target(alloc, items.as_slice()),
            NodeKind::Map(_) => bad(line, Code::Kind),
        }
    }
}

/// A list that may not be there.
pub(crate) fn or_none<A: Drop>(alloc: Global, given: Option<Many<A>>) -> Many<A>
    ensures { result ≡ calls.or_none given }
{
    match given {
        Some(items) => items,
        None => Many::make(alloc),
    }
}

fn made_target(
    alloc: Global,
    parts: Result<((), Option<Many<Template>>), YamlFault>,
) -> Result<Many<Template>, YamlFault>
    ensures { (m : Read (Prim.Unit {0} × Option (List Tree))) → Gives m parts → Gives (made calls.made_target m) result }
{
    match parts {
        Ok((_, given)) => Ok(or_none(alloc, given)),
        Err(fault) => Err(fault),
    }
}

fn map_target(alloc: Global, pairs: &[Pair]) -> Result<Many<Template>, YamlFault>
    ensures { Gives (calls.map_target pairs.now) result }
{
    let known = keys(&[], &[ENTITY_ID], pairs);
    made_target(
        alloc,
        both(known, optional::<Targets>(alloc, pairs, ENTITY_ID)),
    )
}

/// A map with the targets.
pub(crate) struct Target;

impl Kind for Target {
    type Made = Many<Template>;

    ghost meaning = { calls.target };

    fn read(alloc: Global, line: u32, node: &Node) -> Result<Many<Template>, YamlFault> {
        match &node.kind {
            NodeKind::Scalar { .. } => bad(line, Code::Kind),
            NodeKind::List(_) => bad(line, Code::Kind),
            NodeKind::Map(pairs) => map_target(alloc, pairs.as_slice()),
        }
    }
}
