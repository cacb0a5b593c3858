//! One automation.

ghost use Rattle.std.specs.Prelude.{◌≡◌, ◌∷◌, [], ℕ, List, Bool, Option, Result, None, Some, Ok, IfOk};
ghost use Rattle.std.specs.List.{find};
ghost use Rattle.std.specs.Str.{bytes_eq};
ghost use Rattle.yaml_scan.specs.Answers.{Gives};
ghost use Rattle.yaml_scan.specs.declared.fault.Fault.{Fault};
ghost use Rattle.yaml_tree.specs.declared.node.Node.{Node};
ghost use Rattle.conf_field.specs.Readings.{Read, made};
ghost use Rattle.conf_auto.specs.Automations as automations;

use conf_cond::read_conditions;
use conf_field::rows::{ALIAS, DESCRIPTION, ID, INITIAL_STATE, MAX, MAX_EXCEEDED, MODE, TRACE};
use conf_field::{
    Flag, Key, Kind, Pair, Row, Text, bad, both, digits, keys, needed, optional, scalar,
};
use conf_script::read_actions;
use conf_trigger::read_triggers;
use ha_config::{Action, ActionKind, Automation, Condition, Mode, Trigger};
use ha_text::slug;
use ha_value::{Many, Word};
use std::alloc::{AllocError, Global};
use yaml_scan::{Code, YamlFault};
use yaml_tree::{Node, NodeKind};

const TRIGGERS: Row = Row {
    key: Key::Triggers,
    also: Some(Key::Trigger),
};

const CONDITIONS: Row = Row {
    key: Key::Conditions,
    also: Some(Key::Condition),
};

const ACTIONS: Row = Row {
    key: Key::Actions,
    also: Some(Key::Action),
};

const KEYS: [Row; 11] = [
    ID,
    ALIAS,
    DESCRIPTION,
    TRIGGERS,
    CONDITIONS,
    ACTIONS,
    MODE,
    MAX,
    MAX_EXCEEDED,
    INITIAL_STATE,
    TRACE,
];

// ---- values of their own

const MODES: [Mode; 4] = [Mode::Single, Mode::Restart, Mode::Queued, Mode::Parallel];

fn mode_text(mode: Mode) -> &'static [u8]
    ensures { result.now ≡ automations.mode_text mode }
{
    match mode {
        Mode::Single => b"single",
        Mode::Restart => b"restart",
        Mode::Queued => b"queued",
        Mode::Parallel => b"parallel",
    }
}

fn mode_among(modes: &[Mode], text: &[u8]) -> Option<Mode>
    ensures { result ≡ find (λ m. bytes_eq (automations.mode_text m) text.now) modes.now }
{
    modes.iter().copied().find(|mode| mode_text(*mode) == text)
}

fn mode_named(text: &[u8]) -> Option<Mode>
    ensures { result ≡ automations.mode_named text.now }
{
    mode_among(&MODES, text)
}

pub(crate) struct Named;

impl Kind for Named {
    type Made = Mode;

    ghost meaning = { automations.mode };

    fn read(_alloc: Global, line: u32, node: &Node) -> Result<Mode, YamlFault> {
        match scalar(node) {
            Some(text) => match mode_named(text) {
                Some(mode) => Ok(mode),
                None => bad(line, Code::UnknownKind),
            },
            None => bad(line, Code::UnknownKind),
        }
    }
}

/// How many runs may be live, from 1 to 1,000.
pub(crate) struct Most;

#[tactic(auto, using(crate::proofs::Numbers::most_counted))]
fn within(text: &[u8]) -> Option<u32>
    ensures { result ≡ automations.most_of text.now }
{
    match digits(1_001, text) {
        Some(number) => {
            if 1 <= number && number <= 1_000 {
                return Some(number as u32);
            }
            None
        }
        None => None,
    }
}

impl Kind for Most {
    type Made = u32;

    ghost meaning = { automations.most_runs };

    fn read(_alloc: Global, line: u32, node: &Node) -> Result<u32, YamlFault> {
        match scalar(node) {
            Some(text) => match within(text) {
                Some(number) => Ok(number),
                None => bad(line, Code::Number),
            },
            None => bad(line, Code::Number),
        }
    }
}

struct Triggers;

impl Kind for Triggers {
    type Made = Many<Trigger>;

    ghost meaning = { automations.triggers_in };

    fn read(alloc: Global, _line: u32, node: &Node) -> Result<Many<Trigger>, YamlFault> {
        read_triggers(alloc, node)
    }
}

struct Conditions;

impl Kind for Conditions {
    type Made = Many<Condition>;

    ghost meaning = { automations.conditions_in };

    fn read(alloc: Global, _line: u32, node: &Node) -> Result<Many<Condition>, YamlFault> {
        read_conditions(alloc, node)
    }
}

pub(crate) struct Actions;

impl Kind for Actions {
    type Made = Many<Action>;

    ghost meaning = { automations.actions_in };

    fn read(alloc: Global, _line: u32, node: &Node) -> Result<Many<Action>, YamlFault> {
        read_actions(alloc, node)
    }
}

// ---- an automation of its parts

/// The name that it asks for: the slug of its alias, else of its id.
fn asked_name(alloc: Global, alias: Option<Word>, id: Option<Word>) -> Result<Word, AllocError>
    ensures { IfOk result (λ w. w ≡ automations.asked_name alias id) }
{
    match alias {
        Some(alias) => slug(alloc, alias.bytes()),
        None => match id {
            Some(id) => slug(alloc, id.bytes()),
            None => Word::from_str(alloc, "unnamed"),
        },
    }
}

fn or_empty(alloc: Global, given: Option<Many<Condition>>) -> Many<Condition>
    ensures { result ≡ automations.or_empty given }
{
    match given {
        Some(tests) => tests,
        None => Many::make(alloc),
    }
}

/// A script of nothing is one empty block.
pub(crate) fn script_of(alloc: Global, actions: Many<Action>) -> Result<Many<Action>, AllocError>
    ensures { IfOk result (λ as'. as' ≡ automations.script_of actions) }
{
    if !actions.is_empty() {
        return Ok(actions);
    }
    let mut all = Many::make(alloc);
    all.push(Action {
        kind: ActionKind::Block(Many::make(alloc)),
    })?;
    Ok(all)
}

type Settings = (Option<Mode>, (Option<u32>, Option<bool>));

type Parts = (
    (),
    (
        Option<Word>,
        (
            Option<Word>,
            (
                Many<Trigger>,
                (Option<Many<Condition>>, (Many<Action>, Settings)),
            ),
        ),
    ),
);

fn build(
    name: Word,
    triggers: Many<Trigger>,
    tests: Many<Condition>,
    actions: Many<Action>,
    settings: Settings,
) -> Automation
    ensures { result ≡ automations.build name triggers tests actions settings }
{
    let (mode, (max, initial)) = settings;
    Automation {
        name,
        triggers,
        tests,
        actions,
        mode: mode.unwrap_or(Mode::Single),
        max: max.unwrap_or(10),
        initial,
    }
}

fn made_automation(alloc: Global, parts: Result<Parts, YamlFault>) -> Result<Automation, YamlFault>
    ensures { (m : Read automations.Parts) → Gives m parts → Gives (made automations.made_automation m) result }
{
    match parts {
        Ok((_, (alias, (id, (triggers, (tests, (actions, settings))))))) => {
            match asked_name(alloc, alias, id) {
                Ok(name) => match script_of(alloc, actions) {
                    Ok(actions) => Ok(build(
                        name,
                        triggers,
                        or_empty(alloc, tests),
                        actions,
                        settings,
                    )),
                    Err(_) => Err(YamlFault::Memory),
                },
                Err(_) => Err(YamlFault::Memory),
            }
        }
        Err(fault) => Err(fault),
    }
}

fn automation_map(alloc: Global, line: u32, pairs: &[Pair]) -> Result<Automation, YamlFault>
    ensures { Gives (automations.automation_map line pairs.now) result }
{
    let known = keys(&[], &KEYS, pairs);
    let alias = optional::<Text>(alloc, pairs, ALIAS);
    let id = optional::<Text>(alloc, pairs, ID);
    let triggers = needed::<Triggers>(alloc, line, pairs, TRIGGERS);
    let tests = optional::<Conditions>(alloc, pairs, CONDITIONS);
    let actions = needed::<Actions>(alloc, line, pairs, ACTIONS);
    let mode = optional::<Named>(alloc, pairs, MODE);
    let max = optional::<Most>(alloc, pairs, MAX);
    let initial = optional::<Flag>(alloc, pairs, INITIAL_STATE);
    let settings = both(mode, both(max, initial));
    let script = both(tests, both(actions, settings));
    made_automation(
        alloc,
        both(known, both(alias, both(id, both(triggers, script)))),
    )
}

/// What a node is as one automation, by the name that it asks for.
pub(crate) fn automation(alloc: Global, node: &Node) -> Result<Automation, YamlFault>
    ensures { Gives (automations.automation node.now) result }
{
    match &node.kind {
        NodeKind::Scalar { .. } => bad(node.line, Code::Kind),
        NodeKind::List(_) => bad(node.line, Code::Kind),
        NodeKind::Map(pairs) => automation_map(alloc, node.line, pairs.as_slice()),
    }
}
