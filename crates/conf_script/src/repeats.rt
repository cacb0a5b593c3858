//! How often a repeat takes a turn, and what choices ask.

ghost use Rattle.std.specs.Prelude.{◌≡◌, [], ℕ, List, Result, None, Some, Ok};
ghost use Rattle.ha_config.specs.declared.config.Condition.{Condition as OneTest};
ghost use Rattle.ha_config.specs.declared.config.Form.{Form as OneForm};
ghost use Rattle.ha_config.specs.declared.config.RepeatKind.TheVariants as repeats_of;
ghost use Rattle.ha_config.specs.declared.template.Template.{Template as Tree};
ghost use Rattle.yaml_scan.specs.Answers.{Gives};
ghost use Rattle.yaml_scan.specs.declared.fault.Fault.{Fault};
ghost use Rattle.yaml_tree.specs.declared.node.Node.{Node};
ghost use Rattle.conf_field.specs.Readings.{Read, made};
ghost use Rattle.conf_script.specs.Actions as actions;

use crate::forms::{Digits, Formed};
use crate::name::RepeatName;
use conf_cond::read_conditions;
use conf_field::{Kind, Pair, bad, items_of, needed, rows as keys};
use ha_config::{Condition, Form, RepeatKind, Template};
use ha_value::Many;
use std::alloc::Global;
use yaml_scan::{Code, YamlFault};
use yaml_tree::{Node, NodeKind};

/// Conditions: one alone, a list, or null for none.
pub(crate) struct Conditions;

impl Kind for Conditions {
    type Made = Many<Condition>;

    ghost meaning = { actions.conditions };

    fn read(alloc: Global, _line: u32, node: &Node) -> Result<Many<Condition>, YamlFault> {
        read_conditions(alloc, node)
    }
}

/// A list of forms.
struct Items;

impl Kind for Items {
    type Made = Many<Form>;

    ghost meaning = { actions.forms };

    fn read(alloc: Global, line: u32, node: &Node) -> Result<Many<Form>, YamlFault> {
        match &node.kind {
            NodeKind::Scalar { .. } => bad(line, Code::Kind),
            NodeKind::List(items) => items_of::<Formed>(items.as_slice(), alloc),
            NodeKind::Map(_) => bad(line, Code::Kind),
        }
    }
}

fn made_count(count: Result<Template, YamlFault>) -> Result<RepeatKind, YamlFault>
    ensures { (m : Read Tree) → Gives m count → Gives (made repeats_of.Count m) result }
{
    match count {
        Ok(count) => Ok(RepeatKind::Count(count)),
        Err(fault) => Err(fault),
    }
}

fn made_while(tests: Result<Many<Condition>, YamlFault>) -> Result<RepeatKind, YamlFault>
    ensures { (m : Read (List OneTest)) → Gives m tests → Gives (made repeats_of.While m) result }
{
    match tests {
        Ok(tests) => Ok(RepeatKind::While(tests)),
        Err(fault) => Err(fault),
    }
}

fn made_until(tests: Result<Many<Condition>, YamlFault>) -> Result<RepeatKind, YamlFault>
    ensures { (m : Read (List OneTest)) → Gives m tests → Gives (made repeats_of.Until m) result }
{
    match tests {
        Ok(tests) => Ok(RepeatKind::Until(tests)),
        Err(fault) => Err(fault),
    }
}

fn made_each(items: Result<Many<Form>, YamlFault>) -> Result<RepeatKind, YamlFault>
    ensures { (m : Read (List OneForm)) → Gives m items → Gives (made repeats_of.Each m) result }
{
    match items {
        Ok(items) => Ok(RepeatKind::Each(items)),
        Err(fault) => Err(fault),
    }
}

fn repeat_kind(
    alloc: Global,
    line: u32,
    pairs: &[Pair],
    name: RepeatName,
) -> Result<RepeatKind, YamlFault>
    ensures { Gives (actions.repeat_kind line pairs.now name) result }
{
    match name {
        RepeatName::ByCount => made_count(needed::<Digits>(alloc, line, pairs, keys::COUNT)),
        RepeatName::ByWhile => made_while(needed::<Conditions>(alloc, line, pairs, keys::WHILE)),
        RepeatName::ByUntil => made_until(needed::<Conditions>(alloc, line, pairs, keys::UNTIL)),
        RepeatName::ByEach => made_each(needed::<Items>(alloc, line, pairs, keys::FOR_EACH)),
    }
}

/// How often a repeat takes a turn.
pub(crate) fn repeat_by(
    alloc: Global,
    line: u32,
    pairs: &[Pair],
    name: Option<RepeatName>,
) -> Result<RepeatKind, YamlFault>
    ensures { Gives (actions.repeat_by line pairs.now name) result }
{
    match name {
        Some(name) => repeat_kind(alloc, line, pairs, name),
        None => bad(line, Code::MissingKey),
    }
}
