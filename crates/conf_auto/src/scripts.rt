//! Scripts that calls start, by their names.

ghost use Rattle.std.specs.Prelude.{◌≡◌, ◌∷◌, [], ℕ, List, Result, Option, None, Some, Ok, IfOk};
ghost use Rattle.ha_config.specs.declared.config.Action.{Action as Does};
ghost use Rattle.ha_config.specs.declared.config.Script.{Script as One};
ghost use Rattle.yaml_scan.specs.Answers.{Gives};
ghost use Rattle.yaml_scan.specs.declared.fault.Fault.{Fault as Place};
ghost use Rattle.yaml_tree.specs.declared.node.Node.{Node as Root};
ghost use Rattle.yaml_tree.specs.Readers.{shape_of};
ghost use Rattle.conf_field.specs.Readings.{Read, each, made};
ghost use Rattle.conf_auto.specs.Scripts as scripts;

use crate::automations::{Actions, Most, Named, script_of};
use conf_field::rows::{ALIAS, DESCRIPTION, FIELDS, ICON, MAX, MAX_EXCEEDED, MODE, SEQUENCE};
use conf_field::{Kind, Pair, Row, bad, behind, both, keys, needed, optional, place, unless};
use ha_config::{Action, Mode, Script};
use ha_value::{Many, Plain, Word, is_name};
use std::alloc::{AllocError, Global};
use yaml_scan::{Code, Fault, YamlFault};
use yaml_tree::{Node, NodeKind};

const KEYS: [Row; 8] = [
    SEQUENCE,
    MODE,
    MAX,
    ALIAS,
    DESCRIPTION,
    ICON,
    FIELDS,
    MAX_EXCEEDED,
];

type Settings = (Option<Mode>, Option<u32>);

type Parts = ((), (Many<Action>, Settings));

fn build(name: Word, actions: Many<Action>, settings: Settings) -> Script
    ensures { result ≡ scripts.build name actions settings }
{
    let (mode, max) = settings;
    Script {
        name,
        actions,
        mode: mode.unwrap_or(Mode::Single),
        max: max.unwrap_or(10),
    }
}

fn made_script(
    alloc: Global,
    name: &Word,
    parts: Result<Parts, YamlFault>,
) -> Result<Script, YamlFault>
    ensures { (m : Read scripts.Parts) → Gives m parts → Gives (made (scripts.made_script name.now) m) result }
{
    match parts {
        Ok((_, (actions, settings))) => match name.copy(alloc) {
            Ok(name) => match script_of(alloc, actions) {
                Ok(actions) => Ok(build(name, actions, settings)),
                Err(_) => Err(YamlFault::Memory),
            },
            Err(_) => Err(YamlFault::Memory),
        },
        Err(fault) => Err(fault),
    }
}

fn script_map(alloc: Global, name: &Word, line: u32, pairs: &[Pair]) -> Result<Script, YamlFault>
    ensures { Gives (scripts.script_map name.now line pairs.now) result }
{
    let known = keys(&[], &KEYS, pairs);
    let actions = needed::<Actions>(alloc, line, pairs, SEQUENCE);
    let mode = optional::<Named>(alloc, pairs, MODE);
    let max = optional::<Most>(alloc, pairs, MAX);
    let settings = both(mode, max);
    made_script(alloc, name, both(known, both(actions, settings)))
}

/// What a node is as the script of this name.
fn script_by(alloc: Global, name: &Word, line: u32, node: &Node) -> Result<Script, YamlFault>
    ensures { Gives (scripts.script_by name.now line (shape_of node.now)) result }
{
    match &node.kind {
        NodeKind::Scalar { .. } => bad(line, Code::Kind),
        NodeKind::List(_) => bad(line, Code::Kind),
        NodeKind::Map(pairs) => script_map(alloc, name, line, pairs.as_slice()),
    }
}

/// A name is an object id, else its key is at fault.
fn name_fault(pair: &Pair) -> Option<Fault>
    ensures { result ≡ scripts.name_fault pair.now }
{
    if is_name(pair.0.bytes()) {
        return None;
    }
    Some(Fault {
        line: pair.1,
        code: Code::EntityId,
    })
}

fn behind_name(parts: Result<((), Script), YamlFault>) -> Result<Script, YamlFault>
    ensures { (m : Read (Prim.Unit {0} × One)) → Gives m parts → Gives (made scripts.made_named m) result }
{
    match parts {
        Ok((_, script)) => Ok(script),
        Err(fault) => Err(fault),
    }
}

/// One script, by its name.
fn script(alloc: Global, pair: &Pair) -> Result<Script, YamlFault>
    ensures { Gives (scripts.script pair.now) result }
{
    let named = unless(name_fault(pair));
    let read = script_by(alloc, &pair.0, place(pair), &pair.2);
    behind_name(both(named, read))
}

fn at_most(most: usize, pairs: &[Pair]) -> Option<Fault>
    ensures { result ≡ scripts.at_most most pairs.now }
{
    match pairs.get(most) {
        Some(pair) => Some(Fault {
            line: place(pair),
            code: Code::Limit,
        }),
        None => None,
    }
}

#[tactic(auto, unfolding(conf_field::specs::Readings::each_behind))]
fn each_script(alloc: Global, pairs: &[Pair]) -> Result<Many<Script>, YamlFault>
    ensures { Gives (each scripts.script pairs.now) result }
{
    let mut found = Ok(Many::make(alloc));
    'pairs: for i in 0..pairs.len() {
        found = behind(found, script(alloc, &pairs[i]));
    }
    found
}

fn behind_limit(parts: Result<((), Many<Script>), YamlFault>) -> Result<Many<Script>, YamlFault>
    ensures { (m : Read (Prim.Unit {0} × List One)) → Gives m parts → Gives (made scripts.made_scripts m) result }
{
    match parts {
        Ok((_, all)) => Ok(all),
        Err(fault) => Err(fault),
    }
}

/// 1,024 at most.
fn named(alloc: Global, pairs: &[Pair]) -> Result<Many<Script>, YamlFault>
    ensures { Gives (scripts.named pairs.now) result }
{
    behind_limit(both(unless(at_most(1_024, pairs)), each_script(alloc, pairs)))
}

/// The value of the key of scripts.
pub(crate) struct Scripts;

impl Kind for Scripts {
    type Made = Many<Script>;

    ghost meaning = { scripts.scripts };

    fn read(alloc: Global, line: u32, node: &Node) -> Result<Many<Script>, YamlFault> {
        match &node.kind {
            NodeKind::Scalar { .. } => {
                if node.is_null() {
                    return Ok(Many::make(alloc));
                }
                bad(line, Code::Kind)
            }
            NodeKind::List(_) => bad(line, Code::Kind),
            NodeKind::Map(pairs) => named(alloc, pairs.as_slice()),
        }
    }
}
