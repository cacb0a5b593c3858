//! What conditions of the kinds that hold no conditions are.

ghost use Rattle.std.specs.Prelude.{◌≡◌, ◌∷◌, [], ℕ, List, Option, Result, None, Some};
ghost use Rattle.std.specs.Str.{bytes_eq};
ghost use Rattle.std.specs.List.{find};
ghost use Rattle.ha_value.specs.declared.value.EntityId.{EntityId as Id};
ghost use Rattle.ha_value.specs.declared.value.Num.{Num as Figure};
ghost use Rattle.ha_config.specs.declared.template.Template.{Template as Tree};
ghost use Rattle.ha_config.specs.declared.config.Condition.TheVariants as made_of;
ghost use Rattle.yaml_scan.specs.Answers.{Gives};
ghost use Rattle.yaml_scan.specs.declared.fault.Fault.{Fault};
ghost use Rattle.yaml_tree.specs.declared.node.Node.{Node};
ghost use Rattle.conf_field.specs.Kinds as kinds;
ghost use Rattle.conf_field.specs.Readings.{Read, made};
ghost use Rattle.conf_cond.specs.Conditions as conditions;

use conf_field::{
    Duration, Entities, Kind, Number, Pair, Source, Text, Texts, Time, bad, both, is_null_scalar,
    needed, one_of, optional, rows as keys, scalar, several, template_text, unless,
};
use ha_clock::Span;
use ha_config::{Condition, Template};
use ha_value::{EntityId, Many, Num, Word};
use std::alloc::Global;
use yaml_scan::{Code, YamlFault};
use yaml_tree::Node;

type StateParts = (Many<EntityId>, (Many<Word>, (Option<Word>, Option<Span>)));

fn made_state(parts: Result<StateParts, YamlFault>) -> Result<Condition, YamlFault>
    ensures { (m : Read (List Id × (List (List ℕ) × (Option (List ℕ) × Option ℕ)))) → Gives m parts → Gives (made conditions.made_state m) result }
{
    match parts {
        Ok((entities, (texts, (attribute, hold)))) => Ok(Condition::State {
            entities,
            attribute,
            texts,
            hold,
        }),
        Err(fault) => Err(fault),
    }
}

pub(crate) fn state_rule(alloc: Global, line: u32, pairs: &[Pair]) -> Result<Condition, YamlFault>
    ensures { Gives (conditions.state_rule line pairs.now) result }
{
    let entities = needed::<Entities>(alloc, line, pairs, keys::ENTITY_ID);
    let texts = needed::<Texts>(alloc, line, pairs, keys::STATE);
    let attribute = optional::<Text>(alloc, pairs, keys::ATTRIBUTE);
    let hold = optional::<Duration>(alloc, pairs, keys::FOR);
    made_state(both(entities, both(texts, both(attribute, hold))))
}

type NumericParts = (
    (),
    (Many<EntityId>, (Option<Word>, (Option<Num>, Option<Num>))),
);

fn made_numeric(parts: Result<NumericParts, YamlFault>) -> Result<Condition, YamlFault>
    ensures { (m : Read (Prim.Unit {0} × (List Id × (Option (List ℕ) × (Option Figure × Option Figure))))) → Gives m parts → Gives (made conditions.made_numeric m) result }
{
    match parts {
        Ok((_, (entities, (attribute, (above, below))))) => Ok(Condition::Numeric {
            entities,
            attribute,
            above,
            below,
        }),
        Err(fault) => Err(fault),
    }
}

pub(crate) fn numeric_rule(alloc: Global, line: u32, pairs: &[Pair]) -> Result<Condition, YamlFault>
    ensures { Gives (conditions.numeric_rule line pairs.now) result }
{
    let bounded = unless(one_of(line, &[keys::ABOVE, keys::BELOW], pairs));
    let entities = needed::<Entities>(alloc, line, pairs, keys::ENTITY_ID);
    let attribute = optional::<Text>(alloc, pairs, keys::ATTRIBUTE);
    let above = optional::<Number>(alloc, pairs, keys::ABOVE);
    let below = optional::<Number>(alloc, pairs, keys::BELOW);
    made_numeric(both(bounded, both(entities, both(attribute, both(above, below)))))
}

// ---- weekdays

const DAYS: [u8; 7] = [0, 1, 2, 3, 4, 5, 6];

/// The word of a day, from 0 for Monday.
fn day_text(day: u8) -> &'static [u8]
    ensures { result.now ≡ conditions.day_text day }
{
    match day {
        0 => b"mon",
        1 => b"tue",
        2 => b"wed",
        3 => b"thu",
        4 => b"fri",
        5 => b"sat",
        _ => b"sun",
    }
}

fn day_among(days: &[u8], text: &[u8]) -> Option<u8>
    ensures { result ≡ find (λ d. bytes_eq (conditions.day_text d) text.now) days.now }
{
    days.iter().copied().find(|day| day_text(*day) == text)
}

fn day_named(text: &[u8]) -> Option<u8>
    ensures { result ≡ conditions.day_named text.now }
{
    day_among(&DAYS, text)
}

/// A weekday, from 0 for Monday.
struct Weekday;

impl Kind for Weekday {
    type Made = u8;

    ghost meaning = { conditions.weekday };

    fn read(_alloc: Global, line: u32, node: &Node) -> Result<u8, YamlFault> {
        match scalar(node) {
            Some(text) => match day_named(text) {
                Some(day) => Ok(day),
                None => bad(line, Code::UnknownKind),
            },
            None => bad(line, Code::UnknownKind),
        }
    }
}

/// A weekday, or a list of them.
struct Weekdays;

impl Kind for Weekdays {
    type Made = Many<u8>;

    ghost meaning = { kinds.several conditions.weekday };

    fn read(alloc: Global, line: u32, node: &Node) -> Result<Many<u8>, YamlFault> {
        several::<Weekday>(alloc, line, node)
    }
}

// ---- times, triggers and templates

type TimeParts = ((), (Option<u32>, (Option<u32>, Option<Many<u8>>)));

fn made_time(parts: Result<TimeParts, YamlFault>) -> Result<Condition, YamlFault>
    ensures { (m : Read (Prim.Unit {0} × (Option ℕ × (Option ℕ × Option (List ℕ))))) → Gives m parts → Gives (made conditions.made_time m) result }
{
    match parts {
        Ok((_, (after, (before, weekdays)))) => Ok(Condition::Time {
            after,
            before,
            weekdays,
        }),
        Err(fault) => Err(fault),
    }
}

pub(crate) fn time_rule(alloc: Global, line: u32, pairs: &[Pair]) -> Result<Condition, YamlFault>
    ensures { Gives (conditions.time_rule line pairs.now) result }
{
    let some = unless(one_of(line, &[keys::AFTER, keys::BEFORE, keys::WEEKDAY], pairs));
    let after = optional::<Time>(alloc, pairs, keys::AFTER);
    let before = optional::<Time>(alloc, pairs, keys::BEFORE);
    let weekdays = optional::<Weekdays>(alloc, pairs, keys::WEEKDAY);
    made_time(both(some, both(after, both(before, weekdays))))
}

fn made_trigger(ids: Result<Many<Word>, YamlFault>) -> Result<Condition, YamlFault>
    ensures { (m : Read (List (List ℕ))) → Gives m ids → Gives (made made_of.Trigger m) result }
{
    match ids {
        Ok(ids) => Ok(Condition::Trigger(ids)),
        Err(fault) => Err(fault),
    }
}

pub(crate) fn trigger_rule(alloc: Global, line: u32, pairs: &[Pair]) -> Result<Condition, YamlFault>
    ensures { Gives (conditions.trigger_rule line pairs.now) result }
{
    made_trigger(needed::<Texts>(alloc, line, pairs, keys::ID))
}

fn made_template(tree: Result<Template, YamlFault>) -> Result<Condition, YamlFault>
    ensures { (m : Read Tree) → Gives m tree → Gives (made made_of.Template m) result }
{
    match tree {
        Ok(tree) => Ok(Condition::Template(tree)),
        Err(fault) => Err(fault),
    }
}

pub(crate) fn template_rule(
    alloc: Global,
    line: u32,
    pairs: &[Pair],
) -> Result<Condition, YamlFault>
    ensures { Gives (conditions.template_rule line pairs.now) result }
{
    made_template(needed::<Source>(alloc, line, pairs, keys::VALUE_TEMPLATE))
}

/// A scalar is a template condition.
pub(crate) fn scalar_rule(
    alloc: Global,
    line: u32,
    text: &[u8],
    plain: bool,
) -> Result<Option<Condition>, YamlFault>
    ensures { Gives (conditions.of_scalar line text.now plain) result }
{
    if is_null_scalar(text, plain) {
        return bad(line, Code::Kind);
    }
    as_condition(template_text(alloc, line, text))
}

fn as_condition(tree: Result<Template, YamlFault>) -> Result<Option<Condition>, YamlFault>
    ensures { (m : Read Tree) → Gives m tree → Gives (made conditions.as_condition m) result }
{
    match tree {
        Ok(tree) => Ok(Some(Condition::Template(tree))),
        Err(fault) => Err(fault),
    }
}
