//! A trigger, and lists of them.

ghost use Rattle.std.specs.Prelude.{◌≡◌, ◌<◌, ◌^◌, ◌∷◌, [], ℕ, List, Bool, Option, Result, None, Some, Ok, IfOk, decimal, length};
ghost use Rattle.ha_config.specs.declared.config.Trigger.{Trigger as One};
ghost use Rattle.yaml_scan.specs.Answers.{Gives};
ghost use Rattle.conf_field.specs.Readings.{Read, made};
ghost use Rattle.conf_trigger.specs.declared.kind.TriggerKind.{TriggerKind as Named};
ghost use Rattle.conf_trigger.specs.Triggers as triggers;

use crate::kind::{KIND, Named, TriggerKind, keys_of};
use crate::more_rules::{event_rule, numeric_rule, pattern_rule, time_rule};
use crate::rules::{Rule, start_rule, state_rule, template_rule};
use conf_field::rows::{ENABLED, ID};
use conf_field::{Flag, Pair, Text, bad, both, keep, optional, unless, wanted};
use ha_config::Trigger;
use ha_value::{Many, Word};
use std::alloc::{AllocError, Global};
use yaml_scan::{Code, Fault, YamlFault};
use yaml_tree::{Node, NodeKind};

fn rule(alloc: Global, kind: TriggerKind, line: u32, pairs: &[Pair]) -> Result<Rule, YamlFault>
    ensures { Gives (triggers.rule kind line pairs.now) result }
{
    match kind {
        TriggerKind::State => state_rule(alloc, line, pairs),
        TriggerKind::Numeric => numeric_rule(alloc, line, pairs),
        TriggerKind::Event => event_rule(alloc, line, pairs),
        TriggerKind::Time => time_rule(alloc, line, pairs),
        TriggerKind::Pattern => pattern_rule(alloc, line, pairs),
        TriggerKind::Template => template_rule(alloc, line, pairs),
        TriggerKind::Start => start_rule(alloc, line, pairs),
    }
}

/// The digits of an index.
fn digits(alloc: Global, idx: u32) -> Result<Word, AllocError>
    ensures { IfOk result (λ w. w ≡ decimal idx) }
{
    let word = Word::from_string(alloc, format!(in alloc; "{idx}")?)?;
    Ok(word)
}

fn trigger_of(
    alloc: Global,
    idx: u32,
    id: Option<Word>,
    enabled: Option<bool>,
    rule: Rule,
) -> Result<Option<Trigger>, AllocError>
    ensures { IfOk result (λ t. t ≡ triggers.trigger_of idx id enabled rule) }
{
    if enabled == Some(false) {
        return Ok(None);
    }
    match id {
        Some(id) => Ok(Some(build(idx, id, rule))),
        None => match digits(alloc, idx) {
            Ok(id) => Ok(Some(build(idx, id, rule))),
            Err(fault) => Err(fault),
        },
    }
}

fn build(idx: u32, id: Word, rule: Rule) -> Trigger
    ensures { result ≡ record { id = id; idx = idx; rule = rule.0; hold = rule.1 } }
{
    let (rule, hold) = rule;
    Trigger {
        id,
        idx,
        rule,
        hold,
    }
}

type Parts = ((), (Option<Word>, (Option<bool>, Rule)));

fn made_trigger(
    alloc: Global,
    idx: u32,
    parts: Result<Parts, YamlFault>,
) -> Result<Option<Trigger>, YamlFault>
    ensures { (m : Read (Unit {0} × (Option (List ℕ) × (Option Bool × triggers.Rule)))) → Gives m parts → Gives (made (triggers.made_trigger idx) m) result }
{
    match parts {
        Ok((_, (id, (enabled, rule)))) => Ok(trigger_of(alloc, idx, id, enabled, rule)?),
        Err(fault) => Err(fault),
    }
}

/// The trigger of a map of this kind; none where it is disabled.
fn of_kind(
    alloc: Global,
    idx: u32,
    line: u32,
    pairs: &[Pair],
    kind: TriggerKind,
) -> Result<Option<Trigger>, YamlFault>
    ensures { Gives (triggers.of_kind idx line pairs.now kind) result }
{
    let known = keys_of(kind, pairs);
    let id = optional::<Text>(alloc, pairs, ID);
    let enabled = optional::<Flag>(alloc, pairs, ENABLED);
    let rule = rule(alloc, kind, line, pairs);
    made_trigger(alloc, idx, both(known, both(id, both(enabled, rule))))
}

/// The trigger of a map. Where its kind is not known, nothing in it is looked at.
fn of_map(alloc: Global, idx: u32, line: u32, pairs: &[Pair]) -> Result<Option<Trigger>, YamlFault>
    ensures { Gives (triggers.by_kind idx line pairs.now (triggers.kind line pairs.now)) result }
{
    match wanted::<Named>(alloc, Code::UnknownKind, line, pairs, KIND) {
        Ok(kind) => of_kind(alloc, idx, line, pairs, kind),
        Err(fault) => Err(fault),
    }
}

fn trigger(alloc: Global, idx: u32, node: &Node) -> Result<Option<Trigger>, YamlFault>
    ensures { Gives (triggers.trigger idx node.now) result }
{
    match &node.kind {
        NodeKind::Scalar { .. } => bad(node.line, Code::Kind),
        NodeKind::List(_) => bad(node.line, Code::Kind),
        NodeKind::Map(pairs) => of_map(alloc, idx, node.line, pairs.as_slice()),
    }
}

/// The triggers of a list, whatever their number.
#[tactic(auto, unfolding(crate::specs::Triggers::triggers_from))]
fn triggers_from(alloc: Global, items: &[Node]) -> Result<Many<Trigger>, YamlFault>
    requires { length items.now < 2 ^ 32 }
    ensures { Gives (triggers.triggers_from 0 (Ok []) items.now) result }
{
    let mut found = Ok(Many::make(alloc));
    'items: for i in 0..items.len() {
        let item = &items[i];
        found = keep(found, trigger(alloc, i as u32, item));
    }
    found
}

fn at_most(most: usize, items: &[Node]) -> Option<Fault>
    ensures { result ≡ triggers.at_most most items.now }
{
    match items.get(most) {
        Some(item) => Some(Fault {
            line: item.line,
            code: Code::Limit,
        }),
        None => None,
    }
}

fn behind_limit(parts: Result<((), Many<Trigger>), YamlFault>) -> Result<Many<Trigger>, YamlFault>
    ensures { (m : Read (Unit {0} × List One)) → Gives m parts → Gives (made (λ x. x.1) m) result }
{
    match parts {
        Ok((_, all)) => Ok(all),
        Err(fault) => Err(fault),
    }
}

/// A list as long as no file is has no place in memory, and is answered as want of it.
fn listed(alloc: Global, items: &[Node]) -> Result<Many<Trigger>, YamlFault>
    ensures { Gives (triggers.listed items.now) result }
{
    if items.len() > 0xffff_ffff {
        return Err(YamlFault::Memory);
    }
    behind_limit(both(unless(at_most(64, items)), triggers_from(alloc, items)))
}

/// The triggers of a node: a list of them, one alone, or null for none.
pub fn read_triggers(alloc: Global, node: &Node) -> Result<Many<Trigger>, YamlFault>
    ensures exact { Gives (triggers.triggers node.now) result }
{
    match &node.kind {
        NodeKind::Scalar { .. } => {
            if node.is_null() {
                return Ok(Many::make(alloc));
            }
            alone(alloc, node)
        }
        NodeKind::List(items) => listed(alloc, items.as_slice()),
        NodeKind::Map(_) => alone(alloc, node),
    }
}

/// One trigger alone.
#[tactic(auto, unfolding(crate::specs::Triggers::triggers_from))]
fn alone(alloc: Global, node: &Node) -> Result<Many<Trigger>, YamlFault>
    ensures { Gives (triggers.listed (node.now ∷ [])) result }
{
    keep(Ok(Many::make(alloc)), trigger(alloc, 0, node))
}
