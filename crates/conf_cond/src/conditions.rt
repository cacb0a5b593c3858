//! Conditions: one, and lists of them.

ghost use Rattle.std.specs.Prelude.{◌≡◌, ◌∷◌, ◌++◌, [], ℕ, List, Bool, Option, Result, None, Some, Ok, true, false};
ghost use Rattle.ha_config.specs.declared.config.Condition.{Condition as One};
ghost use Rattle.ha_config.specs.declared.config.Condition.TheVariants as made_of;
ghost use Rattle.yaml_scan.specs.Answers.{Gives};
ghost use Rattle.conf_field.specs.Readings.{Read, made, kept};
ghost use Rattle.conf_cond.specs.Conditions as conditions;

use crate::kind::{ConditionKind, KindKey, Named, common_rows, kind_key, kind_rows};
use crate::rules::{numeric_rule, scalar_rule, state_rule, template_rule, time_rule, trigger_rule};
use conf_field::rows::{AND, CONDITION, CONDITIONS, CONTINUE_ON_ERROR, ENABLED, NOT, OR};
use conf_field::{
    Flag, Pair, Row, alone, bad, both, field_at, is_null_scalar, keep, keys, optional, wanted,
};
use ha_config::Condition;
use ha_value::Many;
use std::alloc::Global;
use yaml_scan::{Code, YamlFault};
use yaml_tree::{Node, NodeKind};

// ---- what holds conditions

fn made_and(inside: Result<Many<Condition>, YamlFault>) -> Result<Condition, YamlFault>
    ensures { (m : Read (List One)) → Gives m inside → Gives (made made_of.And m) result }
{
    match inside {
        Ok(inside) => Ok(Condition::And(inside)),
        Err(fault) => Err(fault),
    }
}

fn made_or(inside: Result<Many<Condition>, YamlFault>) -> Result<Condition, YamlFault>
    ensures { (m : Read (List One)) → Gives m inside → Gives (made made_of.Or m) result }
{
    match inside {
        Ok(inside) => Ok(Condition::Or(inside)),
        Err(fault) => Err(fault),
    }
}

fn made_not(inside: Result<Many<Condition>, YamlFault>) -> Result<Condition, YamlFault>
    ensures { (m : Read (List One)) → Gives m inside → Gives (made made_of.Not m) result }
{
    match inside {
        Ok(inside) => Ok(Condition::Not(inside)),
        Err(fault) => Err(fault),
    }
}

// ---- what every condition has

fn goes_on(alloc: Global, action: bool, pairs: &[Pair]) -> Result<Option<bool>, YamlFault>
    ensures { Gives (conditions.goes_on action pairs.now) result }
{
    if action {
        return optional::<Flag>(alloc, pairs, CONTINUE_ON_ERROR);
    }
    Ok(None)
}

type Parts = ((), (Option<bool>, (Option<bool>, Condition)));

fn made_condition(parts: Result<Parts, YamlFault>) -> Result<Option<Condition>, YamlFault>
    ensures { (m : Read (Prim.Unit {0} × (Option Bool × (Option Bool × One)))) → Gives m parts → Gives (made conditions.made_condition m) result }
{
    match parts {
        Ok((_, (_, (enabled, condition)))) => Ok(if_enabled(enabled, condition)),
        Err(fault) => Err(fault),
    }
}

fn if_enabled(enabled: Option<bool>, condition: Condition) -> Option<Condition>
    ensures { result ≡ conditions.if_enabled enabled condition }
{
    if enabled == Some(false) {
        return None;
    }
    Some(condition)
}

/// A condition of these keys; none where it is disabled.
fn with_keys(
    alloc: Global,
    action: bool,
    own: &[Row],
    pairs: &[Pair],
    condition: Result<Condition, YamlFault>,
) -> Result<Option<Condition>, YamlFault>
    ensures { (m : Read One) → Gives m condition → Gives (conditions.with_keys action own.now pairs.now m) result }
{
    let known = keys(common_rows(action), own, pairs);
    let goes_on = goes_on(alloc, action, pairs);
    let enabled = optional::<Flag>(alloc, pairs, ENABLED);
    made_condition(both(known, both(goes_on, both(enabled, condition))))
}

// ---- one condition, and lists, down the tree

/// One condition, none where it is disabled, by whether it stands as an action.
#[cycle(conditions)]
fn one(node: &Node, alloc: Global, action: bool) -> Result<Option<Condition>, YamlFault>
    ensures { Gives (conditions.condition action node.now) result }
{
    match &node.kind {
        NodeKind::Scalar { text, plain } => scalar_rule(alloc, node.line, text.bytes(), *plain),
        NodeKind::List(_items) => bad(node.line, Code::Kind),
        NodeKind::Map(pairs) => of_map(pairs.as_slice(), alloc, node.line, action),
    }
}

/// The condition of a map. The first of the kind keys is its kind.
#[cycle(conditions)]
fn of_map(
    pairs: &[Pair],
    alloc: Global,
    line: u32,
    action: bool,
) -> Result<Option<Condition>, YamlFault>
    ensures { Gives (conditions.condition_map action line pairs.now) result }
{
    match kind_key(pairs) {
        Some(key) => by_key(pairs, alloc, line, action, key),
        None => bad(line, Code::UnknownKind),
    }
}

#[cycle(conditions)]
fn by_key(
    pairs: &[Pair],
    alloc: Global,
    line: u32,
    action: bool,
    key: KindKey,
) -> Result<Option<Condition>, YamlFault>
    ensures { Gives (conditions.by_key action line pairs.now (conditions.inside line pairs.now) (Some key)) result }
{
    match key {
        KindKey::ByName => by_name(pairs, alloc, line, action),
        KindKey::ByAnd => {
            let held = made_and(inside(pairs, alloc, line, AND));
            with_keys(alloc, action, &[AND], pairs, held)
        }
        KindKey::ByOr => {
            let held = made_or(inside(pairs, alloc, line, OR));
            with_keys(alloc, action, &[OR], pairs, held)
        }
        KindKey::ByNot => {
            let held = made_not(inside(pairs, alloc, line, NOT));
            with_keys(alloc, action, &[NOT], pairs, held)
        }
    }
}

/// The condition whose kind `condition` names. Where it is not known, nothing in the map is looked at.
#[cycle(conditions)]
fn by_name(
    pairs: &[Pair],
    alloc: Global,
    line: u32,
    action: bool,
) -> Result<Option<Condition>, YamlFault>
    ensures { Gives (conditions.by_key action line pairs.now (conditions.inside line pairs.now) (Some KindKey.ByName)) result }
{
    match wanted::<Named>(alloc, Code::UnknownKind, line, pairs, CONDITION) {
        Ok(kind) => named(pairs, alloc, line, action, kind),
        Err(fault) => Err(fault),
    }
}

#[cycle(conditions)]
fn named(
    pairs: &[Pair],
    alloc: Global,
    line: u32,
    action: bool,
    kind: ConditionKind,
) -> Result<Option<Condition>, YamlFault>
    ensures { Gives (conditions.by_name action line pairs.now (conditions.inside line pairs.now) (Ok kind)) result }
{
    let rule = rule(pairs, alloc, line, kind);
    with_keys(alloc, action, kind_rows(kind), pairs, rule)
}

#[cycle(conditions)]
fn rule(
    pairs: &[Pair],
    alloc: Global,
    line: u32,
    kind: ConditionKind,
) -> Result<Condition, YamlFault>
    ensures { Gives (conditions.rule kind line pairs.now (conditions.inside line pairs.now)) result }
{
    match kind {
        ConditionKind::And => made_and(inside(pairs, alloc, line, CONDITIONS)),
        ConditionKind::Or => made_or(inside(pairs, alloc, line, CONDITIONS)),
        ConditionKind::Not => made_not(inside(pairs, alloc, line, CONDITIONS)),
        ConditionKind::State => state_rule(alloc, line, pairs),
        ConditionKind::Numeric => numeric_rule(alloc, line, pairs),
        ConditionKind::Template => template_rule(alloc, line, pairs),
        ConditionKind::Time => time_rule(alloc, line, pairs),
        ConditionKind::Trigger => trigger_rule(alloc, line, pairs),
    }
}

/// The conditions that a field of a map is.
#[cycle(conditions)]
fn inside(pairs: &[Pair], alloc: Global, line: u32, row: Row) -> Result<Many<Condition>, YamlFault>
    ensures { Gives (conditions.inside line pairs.now row) result }
{
    match field_at(pairs, row) {
        Some(i) => {
            let pair = &pairs[i];
            all(&pair.2, alloc)
        }
        None => bad(line, Code::MissingKey),
    }
}

/// The conditions that a node is: one alone, a list, or null for none.
#[cycle(conditions)]
fn all(node: &Node, alloc: Global) -> Result<Many<Condition>, YamlFault>
    ensures { Gives (conditions.read_conditions node.now) result }
{
    match &node.kind {
        NodeKind::Scalar { text, plain } => {
            if is_null_scalar(text.bytes(), *plain) {
                return Ok(Many::make(alloc));
            }
            alone(alloc, one(node, alloc, false))
        }
        NodeKind::List(items) => each_of(items.as_slice(), alloc),
        NodeKind::Map(_pairs) => alone(alloc, one(node, alloc, false)),
    }
}

#[cycle(conditions)]
#[tactic(auto, unfolding(conf_field::specs::Readings::kept_behind))]
fn each_of(items: &[Node], alloc: Global) -> Result<Many<Condition>, YamlFault>
    ensures { Gives (kept (conditions.condition false) items.now) result }
{
    let mut found = Ok(Many::make(alloc));
    'items: for i in 0..items.len() {
        found = keep(found, one(&items[i], alloc, false));
    }
    found
}

/// The conditions of a node: a list of them, one alone, or null for none.
pub fn read_conditions(alloc: Global, node: &Node) -> Result<Many<Condition>, YamlFault>
    ensures exact { Gives (conditions.read_conditions node.now) result }
{
    all(node, alloc)
}

/// The condition that a map on this line is as an action; none where it is disabled.
pub fn read_condition_action(
    alloc: Global,
    line: u32,
    pairs: &[Pair],
) -> Result<Option<Condition>, YamlFault>
    ensures exact { Gives (conditions.condition_map true line pairs.now) result }
{
    of_map(pairs, alloc, line, true)
}
