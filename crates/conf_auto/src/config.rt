//! The configuration of a text.

ghost use Rattle.std.specs.Prelude.{◌≡◌, ◌<◌, ◌^◌, ◌∷◌, [], ℕ, List, Option, Result, None, Some, Ok, IfOk, length};
ghost use Rattle.conf_field.specs.Sizes.{size};
ghost use Rattle.ha_config.specs.declared.config.Automation.{Automation as One};
ghost use Rattle.yaml_scan.specs.Answers.{Gives};
ghost use Rattle.yaml_scan.specs.declared.fault.Fault.{Fault as Place};
ghost use Rattle.yaml_tree.specs.declared.node.Node.{Node as Root};
ghost use Rattle.yaml_tree.specs.Tree.{tree};
ghost use Rattle.conf_field.specs.Readings.{Read, made};
ghost use Rattle.conf_auto.specs.Automations.{or_empty};
ghost use Rattle.conf_auto.specs.Config as config;
ghost use Rattle.conf_auto.specs.Read.{IsReadOf};

use crate::automations::automation;
use crate::helpers::helpers_in;
use crate::names::joined;
use crate::scripts::Scripts;
use crate::size::is_small;
use conf_field::rows::{AUTOMATION, COUNTER, INPUT_BOOLEAN, SCRIPT, TIMER};
use conf_field::{Kind, Pair, Row, bad, both, keys, needed, optional, unless};
use ha_config::{Automation, Config, Helper, Script};
use ha_value::Many;
use std::alloc::Global;
use yaml_scan::{Code, Fault, YamlFault};
use yaml_tree::{Node, NodeKind, read_tree};

/// The most bytes that a configuration has.
const MOST_BYTES: usize = 1_048_576;

fn at_most(most: usize, items: &[Node]) -> Option<Fault>
    ensures { result ≡ config.at_most most items.now }
{
    match items.get(most) {
        Some(item) => Some(Fault {
            line: item.line,
            code: Code::Limit,
        }),
        None => None,
    }
}

#[tactic(auto, unfolding(crate::specs::Config::automations_from))]
fn automations_from(alloc: Global, items: &[Node]) -> Result<Many<Automation>, YamlFault>
    ensures { Gives (config.automations_from (Ok []) items.now) result }
{
    let mut found = Ok(Many::make(alloc));
    'items: for i in 0..items.len() {
        let item = &items[i];
        found = joined(alloc, found, automation(alloc, item));
    }
    found
}

fn behind_limit(
    parts: Result<((), Many<Automation>), YamlFault>,
) -> Result<Many<Automation>, YamlFault>
    ensures { (m : Read (Prim.Unit {0} × List One)) → Gives m parts → Gives (made (λ x. x.1) m) result }
{
    match parts {
        Ok((_, all)) => Ok(all),
        Err(fault) => Err(fault),
    }
}

/// A list of automations.
fn listed(alloc: Global, items: &[Node]) -> Result<Many<Automation>, YamlFault>
    ensures { Gives (config.listed items.now) result }
{
    behind_limit(both(
        unless(at_most(1_024, items)),
        automations_from(alloc, items),
    ))
}

/// One automation alone.
#[tactic(auto, unfolding(crate::specs::Config::automations_from))]
fn alone(alloc: Global, node: &Node) -> Result<Many<Automation>, YamlFault>
    ensures { Gives (config.listed (node.now ∷ [])) result }
{
    joined(alloc, Ok(Many::make(alloc)), automation(alloc, node))
}

/// The value of the key of automations.
struct Automations;

impl Kind for Automations {
    type Made = Many<Automation>;

    ghost meaning = { config.automations };

    fn read(alloc: Global, line: u32, node: &Node) -> Result<Many<Automation>, YamlFault> {
        match &node.kind {
            NodeKind::Scalar { .. } => {
                if node.is_null() {
                    return Ok(Many::make(alloc));
                }
                bad(line, Code::Kind)
            }
            NodeKind::List(items) => listed(alloc, items.as_slice()),
            NodeKind::Map(_) => alone(alloc, node),
        }
    }
}

fn or_empty(alloc: Global, given: Option<Many<Script>>) -> Many<Script>
    ensures { result ≡ or_empty given }
{
    match given {
        Some(scripts) => scripts,
        None => Many::make(alloc),
    }
}

/// What stands beside the automations.
type Others = (Option<Many<Script>>, Many<Helper>);

fn made_root(
    alloc: Global,
    parts: Result<((), (Many<Automation>, Others)), YamlFault>,
) -> Result<Config, YamlFault>
    ensures { (m : Read (Prim.Unit {0} × (List One × config.Others))) → Gives m parts → Gives (made config.made_root m) result }
{
    match parts {
        Ok((_, (automations, (scripts, helpers)))) => Ok(Config {
            automations,
            scripts: or_empty(alloc, scripts),
            helpers,
        }),
        Err(fault) => Err(fault),
    }
}

/// The keys of the map of a file.
const ROOT_ROWS: [Row; 5] = [AUTOMATION, SCRIPT, INPUT_BOOLEAN, COUNTER, TIMER];

/// The map of a file has the key of automations, and perhaps those of scripts and of helpers.
fn root_map(alloc: Global, line: u32, pairs: &[Pair]) -> Result<Config, YamlFault>
    ensures { Gives (config.root_map line pairs.now) result }
{
    let known = keys(&[], &ROOT_ROWS, pairs);
    let automations = needed::<Automations>(alloc, line, pairs, AUTOMATION);
    let scripts = optional::<Scripts>(alloc, pairs, SCRIPT);
    let helpers = helpers_in(alloc, pairs);
    let others = both(scripts, helpers);
    made_root(alloc, both(known, both(automations, others)))
}

/// A configuration without scripts and helpers.
fn config_with(alloc: Global, all: Result<Many<Automation>, YamlFault>) -> Result<Config, YamlFault>
    ensures { (m : Read (List One)) → Gives m all → Gives (made config.config_with m) result }
{
    match all {
        Ok(automations) => Ok(Config {
            automations,
            scripts: Many::make(alloc),
            helpers: Many::make(alloc),
        }),
        Err(fault) => Err(fault),
    }
}

/// A list of automations alone.
fn of_list(alloc: Global, items: &[Node]) -> Result<Config, YamlFault>
    ensures { Gives (made config.config_with (config.listed items.now)) result }
{
    config_with(alloc, listed(alloc, items))
}

fn of_root(alloc: Global, root: &Node) -> Result<Config, YamlFault>
    ensures { Gives (config.of_node root.now) result }
{
    match &root.kind {
        NodeKind::Scalar { .. } => {
            if root.is_null() {
                return config_with(alloc, Ok(Many::make(alloc)));
            }
            bad(root.line, Code::Kind)
        }
        NodeKind::List(items) => of_list(alloc, items.as_slice()),
        NodeKind::Map(pairs) => root_map(alloc, root.line, pairs.as_slice()),
    }
}

/// The configuration of a tree. A tree that is larger than any of a text of a configuration has no place in memory.
fn of_tree(alloc: Global, root: &Node) -> Result<Config, YamlFault>
    ensures exact { Gives (config.of_root (Ok root.now)) result }
    ensures small { IfOk result (λ made. size root.now < 2_147_483_648) }
{
    if is_small(root) {
        return of_root(alloc, root);
    }
    Err(YamlFault::Memory)
}

/// The configuration of a text, or its fault: the one at the least line, and on that line of the least code. Faults of the
/// text's structure come before those of its keys, and its length, over 1,048,576 bytes, before every other.
pub fn read_config(alloc: Global, text: &[u8]) -> Result<Config, YamlFault>
    ensures exact { Gives (config.config_of text.now) result }
    // By this it is sound, as the engine asks: the law of `sound_laws`.
    ensures read { IfOk result (IsReadOf text.now) }
{
    if text.len() > MOST_BYTES {
        return bad(1, Code::Limit);
    }
    match read_tree(alloc, text) {
        Ok(root) => of_tree(alloc, &root),
        Err(fault) => Err(fault),
    }
}
