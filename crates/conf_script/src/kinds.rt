//! Actions of the kinds that hold no actions.

ghost use Rattle.std.specs.Prelude.{◌≡◌, ◌∷◌, ◌++◌, [], ℕ, List, Bool, Option, Result, None, Some, Ok, unwrap_or};
ghost use Rattle.ha_config.specs.declared.config.ActionKind.TheVariants as does;
ghost use Rattle.ha_config.specs.declared.config.Form.{Form as OneForm};
ghost use Rattle.ha_config.specs.declared.config.SpanForm.{SpanForm as Lasts};
ghost use Rattle.ha_config.specs.declared.config.Trigger.{Trigger as OneTrigger};
ghost use Rattle.ha_config.specs.declared.template.Template.{Template as Tree};
ghost use Rattle.yaml_scan.specs.Answers.{Gives};
ghost use Rattle.yaml_scan.specs.declared.fault.Fault.{Fault};
ghost use Rattle.yaml_tree.specs.declared.node.Node.{Node};
ghost use Rattle.conf_field.specs.Readings.{Read, made};
ghost use Rattle.conf_script.specs.Actions as actions;
ghost use Rattle.conf_script.specs.Calls as calls;

use crate::calls::{Service, Target, Targets, or_none};
use crate::forms::{Fields, Lasting};
use crate::name::CALL;
use conf_field::{Flag, Kind, Pair, Source, Text, both, needed, optional, rows as keys};
use conf_trigger::read_triggers;
use ha_config::{ActionKind, Form, SpanForm, Template, Trigger};
use ha_value::{Many, Word};
use std::alloc::Global;
use yaml_scan::YamlFault;
use yaml_tree::Node;

// ---- calls

/// Both places of targets, joined.
fn joined(
    alloc: Global,
    first: Option<Many<Template>>,
    second: Option<Many<Template>>,
) -> Result<Many<Template>, YamlFault>
    ensures { Gives (Ok (calls.or_none first ++ calls.or_none second)) result }
{
    let mut all = or_none(alloc, first);
    all.append(or_none(alloc, second))?;
    Ok(all)
}

type CallParts = (
    Template,
    (
        Option<Many<Template>>,
        (Option<Many<Template>>, Option<Many<(Word, Form)>>),
    ),
);

fn made_call(alloc: Global, parts: Result<CallParts, YamlFault>) -> Result<ActionKind, YamlFault>
    ensures { (m : Read (Tree × (Option (List Tree) × (Option (List Tree) × Option (List (List ℕ × OneForm))))))
        → Gives m parts → Gives (made actions.made_call m) result }
{
    match parts {
        Ok((service, (first, (second, fields)))) => match joined(alloc, first, second) {
            Ok(target) => Ok(ActionKind::Call {
                service,
                target,
                fields: or_none(alloc, fields),
            }),
            Err(_) => Err(YamlFault::Memory),
        },
        Err(fault) => Err(fault),
    }
}

pub(crate) fn call(alloc: Global, line: u32, pairs: &[Pair]) -> Result<ActionKind, YamlFault>
    ensures { Gives (actions.call line pairs.now) result }
{
    let service = needed::<Service>(alloc, line, pairs, CALL);
    let target = optional::<Target>(alloc, pairs, keys::TARGET);
    let ids = optional::<Targets>(alloc, pairs, keys::ENTITY_ID);
    let given = optional::<Fields>(alloc, pairs, keys::DATA);
    made_call(alloc, both(service, both(target, both(ids, given))))
}

// ---- delays and waits

fn made_delay(span: Result<SpanForm, YamlFault>) -> Result<ActionKind, YamlFault>
    ensures { (m : Read Lasts) → Gives m span → Gives (made does.Delay m) result }
{
    match span {
        Ok(span) => Ok(ActionKind::Delay(span)),
        Err(fault) => Err(fault),
    }
}

pub(crate) fn delay(alloc: Global, line: u32, pairs: &[Pair]) -> Result<ActionKind, YamlFault>
    ensures { Gives (actions.delay line pairs.now) result }
{
    made_delay(needed::<Lasting>(alloc, line, pairs, keys::DELAY))
}

/// A wait goes on after its timeout unless it says otherwise.
fn go_on(given: Option<bool>) -> bool
    ensures { result ≡ actions.go_on given }
{
    given.unwrap_or(true)
}

type WaitParts = (Template, (Option<SpanForm>, Option<bool>));

fn made_wait(parts: Result<WaitParts, YamlFault>) -> Result<ActionKind, YamlFault>
    ensures { (m : Read (Tree × (Option Lasts × Option Bool))) → Gives m parts → Gives (made actions.made_wait m) result }
{
    match parts {
        Ok((test, (timeout, given))) => Ok(ActionKind::WaitUntil {
            test,
            timeout,
            go_on: go_on(given),
        }),
        Err(fault) => Err(fault),
    }
}

pub(crate) fn wait_template(
    alloc: Global,
    line: u32,
    pairs: &[Pair],
) -> Result<ActionKind, YamlFault>
    ensures { Gives (actions.wait_template line pairs.now) result }
{
    let test = needed::<Source>(alloc, line, pairs, keys::WAIT_TEMPLATE);
    let timeout = optional::<Lasting>(alloc, pairs, keys::TIMEOUT);
    let given = optional::<Flag>(alloc, pairs, keys::CONTINUE_ON_TIMEOUT);
    made_wait(both(test, both(timeout, given)))
}

/// A list of triggers, one alone, or null for none.
struct Triggers;

impl Kind for Triggers {
    type Made = Many<Trigger>;

    ghost meaning = { actions.triggers_in };

    fn read(alloc: Global, _line: u32, node: &Node) -> Result<Many<Trigger>, YamlFault> {
        read_triggers(alloc, node)
    }
}

type WaitForParts = (Many<Trigger>, (Option<SpanForm>, Option<bool>));

fn made_wait_for(parts: Result<WaitForParts, YamlFault>) -> Result<ActionKind, YamlFault>
    ensures { (m : Read (List OneTrigger × (Option Lasts × Option Bool))) → Gives m parts → Gives (made actions.made_wait_for m) result }
{
    match parts {
        Ok((triggers, (timeout, given))) => Ok(ActionKind::WaitFor {
            triggers,
            timeout,
            go_on: go_on(given),
        }),
        Err(fault) => Err(fault),
    }
}

pub(crate) fn wait_for_trigger(
    alloc: Global,
    line: u32,
    pairs: &[Pair],
) -> Result<ActionKind, YamlFault>
    ensures { Gives (actions.wait_for_trigger line pairs.now) result }
{
    let triggers = needed::<Triggers>(alloc, line, pairs, keys::WAIT_FOR_TRIGGER);
    let timeout = optional::<Lasting>(alloc, pairs, keys::TIMEOUT);
    let given = optional::<Flag>(alloc, pairs, keys::CONTINUE_ON_TIMEOUT);
    made_wait_for(both(triggers, both(timeout, given)))
}

// ---- variables, events, stops

fn made_variables(pairs: Result<Many<(Word, Form)>, YamlFault>) -> Result<ActionKind, YamlFault>
    ensures { (m : Read (List (List ℕ × OneForm))) → Gives m pairs → Gives (made does.Set m) result }
{
    match pairs {
        Ok(pairs) => Ok(ActionKind::Set(pairs)),
        Err(fault) => Err(fault),
    }
}

pub(crate) fn variables(alloc: Global, line: u32, pairs: &[Pair]) -> Result<ActionKind, YamlFault>
    ensures { Gives (actions.variables line pairs.now) result }
{
    made_variables(needed::<Fields>(alloc, line, pairs, keys::VARIABLES))
}

fn made_event(
    alloc: Global,
    parts: Result<(Word, Option<Many<(Word, Form)>>), YamlFault>,
) -> Result<ActionKind, YamlFault>
    ensures { (m : Read (List ℕ × Option (List (List ℕ × OneForm)))) → Gives m parts → Gives (made actions.made_event m) result }
{
    match parts {
        Ok((event, fields)) => Ok(ActionKind::Fire {
            event,
            fields: or_none(alloc, fields),
        }),
        Err(fault) => Err(fault),
    }
}

pub(crate) fn event(alloc: Global, line: u32, pairs: &[Pair]) -> Result<ActionKind, YamlFault>
    ensures { Gives (actions.event line pairs.now) result }
{
    let event = needed::<Text>(alloc, line, pairs, keys::EVENT);
    let given = optional::<Fields>(alloc, pairs, keys::EVENT_DATA);
    made_event(alloc, both(event, given))
}

/// A text, or null.
struct TextOrNull;

impl Kind for TextOrNull {
    type Made = ();

    ghost meaning = { actions.text_or_null };

    fn read(alloc: Global, line: u32, node: &Node) -> Result<(), YamlFault> {
        if node.is_null() {
            return Ok(());
        }
        match Text::read(alloc, line, node) {
            Ok(_) => Ok(()),
            Err(fault) => Err(fault),
        }
    }
}

fn made_stop(parts: Result<((), Option<bool>), YamlFault>) -> Result<ActionKind, YamlFault>
    ensures { (m : Read (Prim.Unit {0} × Option Bool)) → Gives m parts → Gives (made actions.made_stop m) result }
{
    match parts {
        Ok(_) => Ok(ActionKind::Stop),
        Err(fault) => Err(fault),
    }
}

pub(crate) fn stop(alloc: Global, line: u32, pairs: &[Pair]) -> Result<ActionKind, YamlFault>
    ensures { Gives (actions.stop line pairs.now) result }
{
    let reason = needed::<TextOrNull>(alloc, line, pairs, keys::STOP);
    let error = optional::<Flag>(alloc, pairs, keys::ERROR);
    made_stop(both(reason, error))
}
