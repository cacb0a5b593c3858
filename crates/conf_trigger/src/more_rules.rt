//! What moves the triggers of numbers, events and times.

ghost use Rattle.std.specs.Prelude.{◌≡◌, ◌||◌, ◌∷◌, [], ℕ, List, Option, Result, None, Some, is_some, unwrap_or};
ghost use Rattle.ha_value.specs.declared.value.EntityId.{EntityId as Id};
ghost use Rattle.ha_value.specs.declared.value.Num.{Num as Figure};
ghost use Rattle.ha_value.specs.declared.value.Value.{Value as Datum};
ghost use Rattle.ha_config.specs.declared.config.Unit as unit;
ghost use Rattle.yaml_scan.specs.Answers.{Gives};
ghost use Rattle.conf_field.specs.Readings.{Read, made};
ghost use Rattle.conf_trigger.specs.Triggers as triggers;

use crate::rules::{Rule, hold};
use crate::unit::{Hour, Sixtieth};
use conf_field::{
    Data, Entities, Number, Pair, Text, Texts, Times, both, needed, one_of, optional, rows as keys,
    unless,
};
use ha_clock::Span;
use ha_config::{TriggerRule, Unit};
use ha_value::{EntityId, Many, Num, Value, Word};
use std::alloc::Global;
use yaml_scan::YamlFault;

type NumericParts = (
    (),
    (
        Many<EntityId>,
        (Option<Word>, (Option<Num>, (Option<Num>, Option<Span>))),
    ),
);

fn made_numeric(parts: Result<NumericParts, YamlFault>) -> Result<Rule, YamlFault>
    ensures { (m : Read (Prim.Unit {0} × (List Id × (Option (List ℕ) × (Option Figure × (Option Figure × Option ℕ)))))) → Gives m parts → Gives (made triggers.made_numeric m) result }
{
    match parts {
        Ok((_, (entities, (attribute, (above, (below, hold)))))) => {
            let rule = TriggerRule::Numeric {
                entities,
                attribute,
                above,
                below,
            };
            Ok((rule, hold))
        }
        Err(fault) => Err(fault),
    }
}

pub(crate) fn numeric_rule(alloc: Global, line: u32, pairs: &[Pair]) -> Result<Rule, YamlFault>
    ensures { Gives (triggers.numeric_rule line pairs.now) result }
{
    let bounded = unless(one_of(line, &[keys::ABOVE, keys::BELOW], pairs));
    let entities = needed::<Entities>(alloc, line, pairs, keys::ENTITY_ID);
    let attribute = optional::<Text>(alloc, pairs, keys::ATTRIBUTE);
    let above = optional::<Number>(alloc, pairs, keys::ABOVE);
    let below = optional::<Number>(alloc, pairs, keys::BELOW);
    let hold = hold(alloc, pairs);
    made_numeric(both(
        bounded,
        both(entities, both(attribute, both(above, both(below, hold)))),
    ))
}

fn or_none(alloc: Global, given: Option<Many<(Word, Value)>>) -> Many<(Word, Value)>
    ensures { result ≡ unwrap_or given [] }
{
    match given {
        Some(pairs) => pairs,
        None => Many::make(alloc),
    }
}

type EventParts = (Many<Word>, Option<Many<(Word, Value)>>);

fn made_event(alloc: Global, parts: Result<EventParts, YamlFault>) -> Result<Rule, YamlFault>
    ensures { (m : Read (List (List ℕ) × Option (List (List ℕ × Datum)))) → Gives m parts → Gives (made triggers.made_event m) result }
{
    match parts {
        Ok((kinds, data)) => {
            let pairs = or_none(alloc, data);
            Ok((TriggerRule::Event { kinds, pairs }, None))
        }
        Err(fault) => Err(fault),
    }
}

pub(crate) fn event_rule(alloc: Global, line: u32, pairs: &[Pair]) -> Result<Rule, YamlFault>
    ensures { Gives (triggers.event_rule line pairs.now) result }
{
    let kinds = needed::<Texts>(alloc, line, pairs, keys::EVENT_TYPE);
    made_event(
        alloc,
        both(kinds, optional::<Data>(alloc, pairs, keys::EVENT_DATA)),
    )
}

fn made_time(parts: Result<Many<u32>, YamlFault>) -> Result<Rule, YamlFault>
    ensures { (m : Read (List ℕ)) → Gives m parts → Gives (made triggers.made_time m) result }
{
    match parts {
        Ok(seconds) => Ok((TriggerRule::Time(seconds), None)),
        Err(fault) => Err(fault),
    }
}

pub(crate) fn time_rule(alloc: Global, line: u32, pairs: &[Pair]) -> Result<Rule, YamlFault>
    ensures { Gives (triggers.time_rule line pairs.now) result }
{
    made_time(needed::<Times>(alloc, line, pairs, keys::AT))
}

fn unit_or(larger: bool, unit: Option<Unit>) -> Unit
    ensures { result ≡ triggers.unit_or larger unit }
{
    match unit {
        Some(unit) => unit,
        None => {
            if larger {
                return Unit::Exact(0);
            }
            Unit::Every
        }
    }
}

fn pattern_of(hours: Option<Unit>, minutes: Option<Unit>, seconds: Option<Unit>) -> TriggerRule
    ensures { result ≡ triggers.pattern_of hours minutes seconds }
{
    TriggerRule::Pattern {
        hours: unit_or(false, hours),
        minutes: unit_or(hours.is_some(), minutes),
        seconds: unit_or(hours.is_some() || minutes.is_some(), seconds),
    }
}

type PatternParts = ((), (Option<Unit>, (Option<Unit>, Option<Unit>)));

fn made_pattern(parts: Result<PatternParts, YamlFault>) -> Result<Rule, YamlFault>
    ensures { (m : Read (Prim.Unit {0} × (Option unit.Unit × (Option unit.Unit × Option unit.Unit)))) → Gives m parts → Gives (made triggers.made_pattern m) result }
{
    match parts {
        Ok((_, (hours, (minutes, seconds)))) => Ok((pattern_of(hours, minutes, seconds), None)),
        Err(fault) => Err(fault),
    }
}

pub(crate) fn pattern_rule(alloc: Global, line: u32, pairs: &[Pair]) -> Result<Rule, YamlFault>
    ensures { Gives (triggers.pattern_rule line pairs.now) result }
{
    let some = unless(one_of(line, &[keys::HOURS, keys::MINUTES, keys::SECONDS], pairs));
    let hours = optional::<Hour>(alloc, pairs, keys::HOURS);
    let minutes = optional::<Sixtieth>(alloc, pairs, keys::MINUTES);
    let seconds = optional::<Sixtieth>(alloc, pairs, keys::SECONDS);
    made_pattern(both(some, both(hours, both(minutes, seconds))))
}
