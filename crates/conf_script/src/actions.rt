//! Actions: one, lists of them, and what choices, repeats and parallel blocks hold, down the tree.

ghost use Rattle.std.specs.Prelude.{◌≡◌, ◌∷◌, ◌++◌, [], ℕ, List, Option, Result, None, Some, Ok};
ghost use Rattle.ha_config.specs.declared.config.Action.{Action as One};
ghost use Rattle.yaml_scan.specs.Answers.{Gives};
ghost use Rattle.conf_field.specs.declared.key.Key.TheVariants as key;
ghost use Rattle.conf_field.specs.Fields.{row as of_key};
ghost use Rattle.conf_field.specs.Readings.{Read, each, kept};
ghost use Rattle.conf_script.specs.Actions as actions;

use crate::kinds::{call, delay, event, stop, variables, wait_for_trigger, wait_template};
use crate::made::{
    Chosen, Turns, branch_of, choose_with, if_with, made_block, made_parallel, made_repeat,
    one_option, option_with, scalar_action, some_branch, tested, turns_with, with_keys,
};
use crate::name::{ActionName, name_of};
use conf_cond::read_condition_action;
use conf_field::rows::{CHOOSE, DEFAULT, ELSE, PARALLEL, REPEAT, SEQUENCE, THEN};
use conf_field::{Pair, Row, alone, bad, behind, field_at, is_null_scalar, keep, place};
use ha_config::{Action, ActionKind};
use ha_value::Many;
use std::alloc::Global;
use yaml_scan::{Code, YamlFault};
use yaml_tree::{Node, NodeKind};

/// One action, none where it is disabled.
#[cycle(actions)]
fn one(node: &Node, alloc: Global) -> Result<Option<Action>, YamlFault>
    ensures { Gives (actions.one_action node.now) result }
{
    match &node.kind {
        NodeKind::Scalar { text, plain } => scalar_action(alloc, node.line, text.bytes(), *plain),
        NodeKind::List(_items) => bad(node.line, Code::Kind),
        NodeKind::Map(pairs) => of_map(pairs.as_slice(), alloc, node.line),
    }
}

/// The action of a map. Where no key says what it does, nothing in it is looked at.
#[cycle(actions)]
fn of_map(pairs: &[Pair], alloc: Global, line: u32) -> Result<Option<Action>, YamlFault>
    ensures { Gives (actions.action_map line pairs.now) result }
{
    match name_of(pairs) {
        Some(name) => {
            if name.is_test() {
                return tested(read_condition_action(alloc, line, pairs));
            }
            let kind = body(pairs, alloc, line, name);
            with_keys(alloc, name, pairs, kind)
        }
        None => bad(line, Code::UnknownKind),
    }
}

/// What an action does, by the key that says it.
#[cycle(actions)]
fn body(pairs: &[Pair], alloc: Global, line: u32, name: ActionName) -> Result<ActionKind, YamlFault>
    ensures { Gives (actions.body name line pairs.now (actions.inside pairs.now)) result }
{
    match name {
        ActionName::OfChoose => {
            let options = choices(pairs, alloc, line);
            let fallback = list_in(pairs, alloc, DEFAULT, Ok(Many::make(alloc)));
            choose_with(options, fallback)
        }
        ActionName::OfIf => {
            let yes = list_in(pairs, alloc, THEN, bad(line, Code::MissingKey));
            let no = list_in(pairs, alloc, ELSE, Ok(Many::make(alloc)));
            if_with(alloc, line, pairs, yes, no)
        }
        ActionName::OfRepeat => made_repeat(turns(pairs, alloc, line)),
        ActionName::OfParallel => made_parallel(branches(pairs, alloc, line)),
        ActionName::OfSequence => {
            let actions = list_in(pairs, alloc, SEQUENCE, bad(line, Code::MissingKey));
            made_block(actions)
        }
        ActionName::OfCall => call(alloc, line, pairs),
        ActionName::OfDelay => delay(alloc, line, pairs),
        ActionName::OfWaitTemplate => wait_template(alloc, line, pairs),
        ActionName::OfWaitForTrigger => wait_for_trigger(alloc, line, pairs),
        ActionName::OfVariables => variables(alloc, line, pairs),
        ActionName::OfEvent => event(alloc, line, pairs),
        ActionName::OfStop => stop(alloc, line, pairs),
        ActionName::OfCondition => bad(line, Code::UnknownKind),
        ActionName::OfAnd => bad(line, Code::UnknownKind),
        ActionName::OfOr => bad(line, Code::UnknownKind),
        ActionName::OfNot => bad(line, Code::UnknownKind),
    }
}

/// The actions of a field; what is given where it is not there.
#[cycle(actions)]
fn list_in(
    pairs: &[Pair],
    alloc: Global,
    row: Row,
    missing: Result<Many<Action>, YamlFault>,
) -> Result<Many<Action>, YamlFault>
    ensures { (m : Read (List One)) → Gives m missing → Gives (actions.or_missing m actions.all_of (actions.inside pairs.now row)) result }
{
    match field_at(pairs, row) {
        Some(i) => {
            let pair = &pairs[i];
            all(&pair.2, alloc)
        }
        None => missing,
    }
}

/// The actions of a node: one alone, a list, or null for none.
#[cycle(actions)]
fn all(node: &Node, alloc: Global) -> Result<Many<Action>, YamlFault>
    ensures { Gives (actions.actions node.now) result }
{
    match &node.kind {
        NodeKind::Scalar { text, plain } => {
            if is_null_scalar(text.bytes(), *plain) {
                return Ok(Many::make(alloc));
            }
            alone(alloc, one(node, alloc))
        }
        NodeKind::List(items) => each_of(items.as_slice(), alloc),
        NodeKind::Map(_pairs) => alone(alloc, one(node, alloc)),
    }
}

#[cycle(actions)]
#[tactic(auto, unfolding(conf_field::specs::Readings::kept_behind))]
fn each_of(items: &[Node], alloc: Global) -> Result<Many<Action>, YamlFault>
    ensures { Gives (kept actions.one_action items.now) result }
{
    let mut found = Ok(Many::make(alloc));
    'items: for i in 0..items.len() {
        found = keep(found, one(&items[i], alloc));
    }
    found
}

/// The options of a choice: a list of them, or one.
#[cycle(actions)]
fn choices(pairs: &[Pair], alloc: Global, line: u32) -> Result<Many<Chosen>, YamlFault>
    ensures { Gives (actions.need_in actions.choices_of line (actions.inside pairs.now (of_key key.Choose))) result }
{
    match field_at(pairs, CHOOSE) {
        Some(i) => {
            let pair = &pairs[i];
            match &pair.2.kind {
                NodeKind::Scalar {
                    text: _text,
                    plain: _plain,
                } => bad(place(pair), Code::Kind),
                NodeKind::List(items) => each_option(items.as_slice(), alloc),
                NodeKind::Map(_pairs) => one_option(alloc, chosen(&pair.2, alloc)),
            }
        }
        None => bad(line, Code::MissingKey),
    }
}

#[cycle(actions)]
#[tactic(auto, unfolding(conf_field::specs::Readings::each_behind))]
fn each_option(items: &[Node], alloc: Global) -> Result<Many<Chosen>, YamlFault>
    ensures { Gives (each actions.option items.now) result }
{
    let mut found = Ok(Many::make(alloc));
    'items: for i in 0..items.len() {
        found = behind(found, chosen(&items[i], alloc));
    }
    found
}

/// One option of a choice.
#[cycle(actions)]
fn chosen(node: &Node, alloc: Global) -> Result<Chosen, YamlFault>
    ensures { Gives (actions.option node.now) result }
{
    match &node.kind {
        NodeKind::Scalar {
            text: _text,
            plain: _plain,
        } => bad(node.line, Code::Kind),
        NodeKind::List(_items) => bad(node.line, Code::Kind),
        NodeKind::Map(pairs) => {
            let pairs = pairs.as_slice();
            let actions = list_in(pairs, alloc, SEQUENCE, bad(node.line, Code::MissingKey));
            option_with(alloc, node.line, pairs, actions)
        }
    }
}

/// The turns of a repeat.
#[cycle(actions)]
fn turns(pairs: &[Pair], alloc: Global, line: u32) -> Result<Turns, YamlFault>
    ensures { Gives (actions.need_in actions.turns_of line (actions.inside pairs.now (of_key key.Repeat))) result }
{
    match field_at(pairs, REPEAT) {
        Some(i) => {
            let pair = &pairs[i];
            match &pair.2.kind {
                NodeKind::Scalar {
                    text: _text,
                    plain: _plain,
                } => bad(place(pair), Code::Kind),
                NodeKind::List(_items) => bad(place(pair), Code::Kind),
                NodeKind::Map(inner) => {
                    let inner = inner.as_slice();
                    let actions = list_in(
                        inner,
                        alloc,
                        SEQUENCE,
                        bad(pair.2.line, Code::MissingKey),
                    );
                    turns_with(alloc, pair.2.line, inner, actions)
                }
            }
        }
        None => bad(line, Code::MissingKey),
    }
}

/// The branches of a parallel block: a list of them, one alone, or null for none.
#[cycle(actions)]
fn branches(pairs: &[Pair], alloc: Global, line: u32) -> Result<Many<Many<Action>>, YamlFault>
    ensures { Gives (actions.need_in actions.branches_of line (actions.inside pairs.now (of_key key.Parallel))) result }
{
    match field_at(pairs, PARALLEL) {
        Some(i) => {
            let pair = &pairs[i];
            all_branches(&pair.2, alloc)
        }
        None => bad(line, Code::MissingKey),
    }
}

#[cycle(actions)]
fn all_branches(node: &Node, alloc: Global) -> Result<Many<Many<Action>>, YamlFault>
    ensures { Gives (actions.all_branches node.now) result }
{
    match &node.kind {
        NodeKind::Scalar { text, plain } => {
            if is_null_scalar(text.bytes(), *plain) {
                return Ok(Many::make(alloc));
            }
            alone(alloc, branch(node, alloc))
        }
        NodeKind::List(items) => each_branch(items.as_slice(), alloc),
        NodeKind::Map(_pairs) => alone(alloc, branch(node, alloc)),
    }
}

#[cycle(actions)]
#[tactic(auto, unfolding(conf_field::specs::Readings::kept_behind))]
fn each_branch(items: &[Node], alloc: Global) -> Result<Many<Many<Action>>, YamlFault>
    ensures { Gives (kept actions.one_branch items.now) result }
{
    let mut found = Ok(Many::make(alloc));
    'items: for i in 0..items.len() {
        found = keep(found, branch(&items[i], alloc));
    }
    found
}

/// A branch: a list of actions, or one that is enabled.
#[cycle(actions)]
fn branch(node: &Node, alloc: Global) -> Result<Option<Many<Action>>, YamlFault>
    ensures { Gives (actions.one_branch node.now) result }
{
    match &node.kind {
        NodeKind::Scalar {
            text: _text,
            plain: _plain,
        } => branch_of(alloc, one(node, alloc)),
        NodeKind::List(_items) => some_branch(all(node, alloc)),
        NodeKind::Map(_pairs) => branch_of(alloc, one(node, alloc)),
    }
}

/// The actions of a node: a list of them, one alone, or null for none.
pub fn read_actions(alloc: Global, node: &Node) -> Result<Many<Action>, YamlFault>
    ensures exact { Gives (actions.actions node.now) result }
{
    all(node, alloc)
}
