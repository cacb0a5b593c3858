//! What is made of the parts of actions.

ghost use Rattle.std.specs.Prelude.{◌≡◌, ◌∷◌, ◌++◌, [], ℕ, List, Bool, Option, Result, None, Some, Ok};
ghost use Rattle.ha_config.specs.declared.config.Action.{Action as One};
ghost use Rattle.ha_config.specs.declared.config.ActionKind.{ActionKind as Does};
ghost use Rattle.ha_config.specs.declared.config.ActionKind.TheVariants as does;
ghost use Rattle.ha_config.specs.declared.config.Condition.{Condition as OneTest};
ghost use Rattle.ha_config.specs.declared.config.RepeatKind.{RepeatKind as Turning};
ghost use Rattle.ha_config.specs.declared.template.Template.{Template as Tree};
ghost use Rattle.yaml_scan.specs.Answers.{Gives};
ghost use Rattle.conf_field.specs.Fields.{keys as known_keys};
ghost use Rattle.conf_field.specs.Readings.{Read, made};
ghost use Rattle.conf_script.specs.Actions as actions;

use crate::name::{ActionName, COMMON, kind_rows, repeat_name, repeat_rows};
use crate::repeats::{Conditions, repeat_by};
use conf_field::rows::{ALIAS, CONDITIONS, CONTINUE_ON_ERROR, ENABLED, IF, SEQUENCE};
use conf_field::{
    Flag, Pair, Row, bad, both, is_null_scalar, keys, needed, optional, template_text,
};
use ha_config::{Action, ActionKind, Condition, RepeatKind, Template};
use ha_value::Many;
use std::alloc::Global;
use yaml_scan::{Code, YamlFault};

/// What an option of a choice asks, and its actions.
pub(crate) type Chosen = (Many<Condition>, Many<Action>);

/// How often a repeat takes a turn, and its actions.
pub(crate) type Turns = (RepeatKind, Many<Action>);

pub(crate) fn tested(
    test: Result<Option<Condition>, YamlFault>,
) -> Result<Option<Action>, YamlFault>
    ensures { (m : Read (Option OneTest)) → Gives m test → Gives (made actions.tested m) result }
{
    match test {
        Ok(Some(test)) => Ok(Some(Action {
            kind: ActionKind::Test(test),
        })),
        Ok(None) => Ok(None),
        Err(fault) => Err(fault),
    }
}

fn as_test(tree: Result<Template, YamlFault>) -> Result<Option<Action>, YamlFault>
    ensures { (m : Read Tree) → Gives m tree → Gives (made actions.as_test m) result }
{
    match tree {
        Ok(tree) => Ok(Some(Action {
            kind: ActionKind::Test(Condition::Template(tree)),
        })),
        Err(fault) => Err(fault),
    }
}

/// A scalar is a template condition.
pub(crate) fn scalar_action(
    alloc: Global,
    line: u32,
    text: &[u8],
    plain: bool,
) -> Result<Option<Action>, YamlFault>
    ensures { Gives (actions.of_scalar line text.now plain) result }
{
    if is_null_scalar(text, plain) {
        return bad(line, Code::Kind);
    }
    as_test(template_text(alloc, line, text))
}

fn made_choose(
    parts: Result<(Many<Chosen>, Many<Action>), YamlFault>,
) -> Result<ActionKind, YamlFault>
    ensures { (m : Read (List (List OneTest × List One) × List One)) → Gives m parts → Gives (made actions.made_choose m) result }
{
    match parts {
        Ok((options, fallback)) => Ok(ActionKind::Choose { options, fallback }),
        Err(fault) => Err(fault),
    }
}

/// A choice of its options and what is done where none is chosen.
pub(crate) fn choose_with(
    options: Result<Many<Chosen>, YamlFault>,
    fallback: Result<Many<Action>, YamlFault>,
) -> Result<ActionKind, YamlFault>
    ensures { (m : Read (List (List OneTest × List One))) → (n : Read (List One))
        → Gives m options → Gives n fallback → Gives (actions.choose_with m n) result }
{
    made_choose(both(options, fallback))
}

fn made_if(
    parts: Result<(Many<Condition>, (Many<Action>, Many<Action>)), YamlFault>,
) -> Result<ActionKind, YamlFault>
    ensures { (m : Read (List OneTest × (List One × List One))) → Gives m parts → Gives (made actions.made_if m) result }
{
    match parts {
        Ok((tests, (yes, no))) => Ok(ActionKind::If { tests, yes, no }),
        Err(fault) => Err(fault),
    }
}

/// What is asked, with the actions where it holds and where not.
pub(crate) fn if_with(
    alloc: Global,
    line: u32,
    pairs: &[Pair],
    yes: Result<Many<Action>, YamlFault>,
    no: Result<Many<Action>, YamlFault>,
) -> Result<ActionKind, YamlFault>
    ensures { (m : Read (List One)) → (n : Read (List One)) → Gives m yes → Gives n no → Gives (actions.if_with line pairs.now m n) result }
{
    let tests = needed::<Conditions>(alloc, line, pairs, IF);
    made_if(both(tests, both(yes, no)))
}

pub(crate) fn made_repeat(turns: Result<Turns, YamlFault>) -> Result<ActionKind, YamlFault>
    ensures { (m : Read (Turning × List One)) → Gives m turns → Gives (made actions.made_repeat m) result }
{
    match turns {
        Ok((kind, body)) => Ok(ActionKind::Repeat { kind, body }),
        Err(fault) => Err(fault),
    }
}

pub(crate) fn made_parallel(
    lists: Result<Many<Many<Action>>, YamlFault>,
) -> Result<ActionKind, YamlFault>
    ensures { (m : Read (List (List One))) → Gives m lists → Gives (made does.Parallel m) result }
{
    match lists {
        Ok(lists) => Ok(ActionKind::Parallel(lists)),
        Err(fault) => Err(fault),
    }
}

pub(crate) fn made_block(body: Result<Many<Action>, YamlFault>) -> Result<ActionKind, YamlFault>
    ensures { (m : Read (List One)) → Gives m body → Gives (made does.Block m) result }
{
    match body {
        Ok(body) => Ok(ActionKind::Block(body)),
        Err(fault) => Err(fault),
    }
}

fn made_option(parts: Result<((), Chosen), YamlFault>) -> Result<Chosen, YamlFault>
    ensures { (m : Read (Prim.Unit {0} × (List OneTest × List One))) → Gives m parts → Gives (made actions.made_option m) result }
{
    match parts {
        Ok((_, chosen)) => Ok(chosen),
        Err(fault) => Err(fault),
    }
}

const OPTION_KEYS: [Row; 3] = [CONDITIONS, SEQUENCE, ALIAS];

/// An option of a choice, by its keys and its actions.
pub(crate) fn option_with(
    alloc: Global,
    line: u32,
    pairs: &[Pair],
    body: Result<Many<Action>, YamlFault>,
) -> Result<Chosen, YamlFault>
    ensures { (m : Read (List One)) → Gives m body → Gives (actions.option_with line pairs.now m) result }
{
    let known = keys(&[], &OPTION_KEYS, pairs);
    let tests = needed::<Conditions>(alloc, line, pairs, CONDITIONS);
    made_option(both(known, both(tests, body)))
}

fn made_turns(parts: Result<((), Turns), YamlFault>) -> Result<Turns, YamlFault>
    ensures { (m : Read (Prim.Unit {0} × (Turning × List One))) → Gives m parts → Gives (made actions.made_turns m) result }
{
    match parts {
        Ok((_, turns)) => Ok(turns),
        Err(fault) => Err(fault),
    }
}

fn repeat_keys(pairs: &[Pair]) -> Result<(), YamlFault>
    ensures { Gives (known_keys (actions.repeat_rows (actions.repeat_name pairs.now)) pairs.now) result }
{
    keys(&[], repeat_rows(repeat_name(pairs)), pairs)
}

/// The turns of a repeat, by its keys and its actions.
pub(crate) fn turns_with(
    alloc: Global,
    line: u32,
    pairs: &[Pair],
    body: Result<Many<Action>, YamlFault>,
) -> Result<Turns, YamlFault>
    ensures { (m : Read (List One)) → Gives m body → Gives (actions.turns_with line pairs.now m) result }
{
    let known = repeat_keys(pairs);
    let kind = repeat_by(alloc, line, pairs, repeat_name(pairs));
    made_turns(both(known, both(kind, body)))
}

fn if_enabled(enabled: Option<bool>, kind: ActionKind) -> Option<Action>
    ensures { result ≡ actions.if_enabled enabled kind }
{
    if enabled == Some(false) {
        return None;
    }
    Some(Action { kind })
}

type Parts = ((), (Option<bool>, (Option<bool>, ActionKind)));

fn made_action(parts: Result<Parts, YamlFault>) -> Result<Option<Action>, YamlFault>
    ensures { (m : Read (Prim.Unit {0} × (Option Bool × (Option Bool × Does))))
        → Gives m parts → Gives (made actions.made_action m) result }
{
    match parts {
        Ok((_, (_, (enabled, kind)))) => Ok(if_enabled(enabled, kind)),
        Err(fault) => Err(fault),
    }
}

/// An action of these keys; none where it is disabled.
pub(crate) fn with_keys(
    alloc: Global,
    name: ActionName,
    pairs: &[Pair],
    kind: Result<ActionKind, YamlFault>,
) -> Result<Option<Action>, YamlFault>
    ensures { (m : Read Does) → Gives m kind → Gives (actions.with_keys name pairs.now m) result }
{
    let known = keys(&COMMON, kind_rows(name), pairs);
    let goes_on = optional::<Flag>(alloc, pairs, CONTINUE_ON_ERROR);
    let enabled = optional::<Flag>(alloc, pairs, ENABLED);
    made_action(both(known, both(goes_on, both(enabled, kind))))
}

/// A branch of one action, where it is enabled.
pub(crate) fn branch_of(
    alloc: Global,
    action: Result<Option<Action>, YamlFault>,
) -> Result<Option<Many<Action>>, YamlFault>
    ensures { (m : Read (Option One)) → Gives m action → Gives (made actions.branch_of m) result }
{
    match action {
        Ok(Some(action)) => {
            let mut all = Many::make(alloc);
            all.push(action)?;
            Ok(Some(all))
        }
        Ok(None) => Ok(None),
        Err(fault) => Err(fault),
    }
}

pub(crate) fn some_branch(
    all: Result<Many<Action>, YamlFault>,
) -> Result<Option<Many<Action>>, YamlFault>
    ensures { (m : Read (List One)) → Gives m all → Gives (made actions.some_branch m) result }
{
    match all {
        Ok(all) => Ok(Some(all)),
        Err(fault) => Err(fault),
    }
}

pub(crate) fn one_option(
    alloc: Global,
    chosen: Result<Chosen, YamlFault>,
) -> Result<Many<Chosen>, YamlFault>
    ensures { (m : Read (List OneTest × List One)) → Gives m chosen → Gives (made (λ o. o ∷ []) m) result }
{
    match chosen {
        Ok(chosen) => {
            let mut all = Many::make(alloc);
            all.push(chosen)?;
            Ok(all)
        }
        Err(fault) => Err(fault),
    }
}
