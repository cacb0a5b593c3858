//! What moves the triggers of each kind.

ghost use Rattle.std.specs.Option.{option_copied};
ghost use Rattle.std.specs.List.{list_any};
ghost use Rattle.std.specs.Prelude.{◌≡◌, ◌||◌, ◌∷◌, [], ℕ, List, Option, Bool, Result, None, Some, is_some};
ghost use Rattle.ha_value.specs.declared.value.EntityId.{EntityId as Id};
ghost use Rattle.ha_value.specs.declared.value.Num.{Num as Number};
ghost use Rattle.ha_value.specs.declared.value.Value.{Value as Datum};
ghost use Rattle.ha_config.specs.declared.config.Match.{Match as Side};
ghost use Rattle.ha_config.specs.declared.config.Unit as unit;
ghost use Rattle.ha_config.specs.declared.template.Template.{Template as Tree};
ghost use Rattle.yaml_scan.specs.Answers.{Gives};
ghost use Rattle.yaml_scan.specs.declared.fault.Fault.{Fault};
ghost use Rattle.yaml_tree.specs.declared.node.Node.{Node};
ghost use Rattle.conf_field.specs.Fields as fields;
ghost use Rattle.conf_field.specs.Readings.{Read, made};
ghost use Rattle.conf_trigger.specs.Triggers as triggers;

use conf_field::{
    Duration, Entities, Kind, Pair, Row, Source, Text, Texts, bad, both, field, needed, optional,
    rows as keys, scalar, unless,
};
use ha_clock::Span;
use ha_config::{Match, Template, TriggerRule};
use ha_value::{EntityId, Many, Word};
use std::alloc::Global;
use yaml_scan::{Code, Fault, YamlFault};
use yaml_tree::Node;

/// What moves a trigger, and how long that has to stay.
pub(crate) type Rule = (TriggerRule, Option<Span>);

// ---- one side of a state trigger

/// Texts, or null for any.
struct TextsOrAny;

/// Texts that are excluded.
struct NoneOf;

impl Kind for TextsOrAny {
    type Made = Match;

    ghost meaning = { triggers.texts_or_any };

    fn read(alloc: Global, line: u32, node: &Node) -> Result<Match, YamlFault> {
        if node.is_null() {
            return Ok(Match::Any);
        }
        match Texts::read(alloc, line, node) {
            Ok(texts) => Ok(Match::OneOf(texts)),
            Err(fault) => Err(fault),
        }
    }
}

impl Kind for NoneOf {
    type Made = Match;

    ghost meaning = { triggers.none_of_texts };

    fn read(alloc: Global, line: u32, node: &Node) -> Result<Match, YamlFault> {
        match Texts::read(alloc, line, node) {
            Ok(texts) => Ok(Match::NoneOf(texts)),
            Err(fault) => Err(fault),
        }
    }
}

fn match_of(plain: Option<Match>, negated: Option<Match>) -> Match
    ensures { result ≡ triggers.match_of plain negated }
{
    match negated {
        Some(other) => other,
        None => match plain {
            Some(texts) => texts,
            None => Match::Absent,
        },
    }
}

/// Of two keys that exclude each other, the later one.
#[tactic(auto, unfolding(crate::specs::Triggers::later_of))]
fn later_of(a: Row, b: Row, pairs: &[Pair]) -> Option<&Pair>
    ensures { option_copied result ≡ triggers.later_of a b pairs.now }
{
    'pairs: for i in 0..pairs.len() {
        if a.names(pairs[i].0.bytes()) {
            return field(&pairs[i + 1..], b);
        }
        if b.names(pairs[i].0.bytes()) {
            return field(&pairs[i + 1..], a);
        }
    }
    None
}

/// Of two keys that exclude each other, the later one is unknown.
fn excluded(a: Row, b: Row, pairs: &[Pair]) -> Option<Fault>
    ensures { result ≡ triggers.excluded a b pairs.now }
{
    match later_of(a, b, pairs) {
        Some(pair) => Some(Fault {
            line: pair.1,
            code: Code::UnknownKey,
        }),
        None => None,
    }
}

fn made_side(
    parts: Result<((), (Option<Match>, Option<Match>)), YamlFault>,
) -> Result<Match, YamlFault>
    ensures { (m : Read (Unit {0} × (Option Side × Option Side))) → Gives m parts → Gives (made triggers.made_side m) result }
{
    match parts {
        Ok((_, (plain, negated))) => Ok(match_of(plain, negated)),
        Err(fault) => Err(fault),
    }
}

/// One side of a state trigger.
fn side(alloc: Global, plain: Row, negated: Row, pairs: &[Pair]) -> Result<Match, YamlFault>
    ensures { Gives (triggers.side plain negated pairs.now) result }
{
    let alone = unless(excluded(plain, negated, pairs));
    let given = optional::<TextsOrAny>(alloc, pairs, plain);
    let others = optional::<NoneOf>(alloc, pairs, negated);
    made_side(both(alone, both(given, others)))
}

// ---- what kinds share

fn some_span(span: Result<Option<Span>, YamlFault>) -> Result<Option<Span>, YamlFault>
    ensures { (m : Read (Option ℕ)) → Gives m span → Gives (made triggers.some_span m) result }
{
    match span {
        Ok(Some(span)) => {
            if span.millis() == 0 {
                return Ok(None);
            }
            Ok(Some(span))
        }
        Ok(None) => Ok(None),
        Err(fault) => Err(fault),
    }
}

/// How long what is watched has to stay; 0 is none.
pub(crate) fn hold(alloc: Global, pairs: &[Pair]) -> Result<Option<Span>, YamlFault>
    ensures { Gives (triggers.hold pairs.now) result }
{
    some_span(optional::<Duration>(alloc, pairs, keys::FOR))
}

// ---- state

fn made_state(
    parts: Result<
        (
            Many<EntityId>,
            (Option<Word>, (Match, (Match, Option<Span>))),
        ),
        YamlFault,
    >,
) -> Result<Rule, YamlFault>
    ensures { (m : Read (List Id × (Option (List ℕ) × (Side × (Side × Option ℕ))))) → Gives m parts → Gives (made triggers.made_state m) result }
{
    match parts {
        Ok((entities, (attribute, (from, (to, hold))))) => {
            let rule = TriggerRule::State {
                entities,
                attribute,
                from,
                to,
            };
            Ok((rule, hold))
        }
        Err(fault) => Err(fault),
    }
}

pub(crate) fn state_rule(alloc: Global, line: u32, pairs: &[Pair]) -> Result<Rule, YamlFault>
    ensures { Gives (triggers.state_rule line pairs.now) result }
{
    let entities = needed::<Entities>(alloc, line, pairs, keys::ENTITY_ID);
    let attribute = optional::<Text>(alloc, pairs, keys::ATTRIBUTE);
    let from = side(alloc, keys::FROM, keys::NOT_FROM, pairs);
    let to = side(alloc, keys::TO, keys::NOT_TO, pairs);
    let hold = hold(alloc, pairs);
    made_state(both(entities, both(attribute, both(from, both(to, hold)))))
}

// ---- event, template, start

fn made_start(parts: Result<(), YamlFault>) -> Result<Rule, YamlFault>
    ensures { (m : Read (Unit {0})) → Gives m parts → Gives (made triggers.made_start m) result }
{
    match parts {
        Ok(_) => Ok((TriggerRule::Start, None)),
        Err(fault) => Err(fault),
    }
}

/// The text `start`.
struct StartWord;

fn is_start(text: &[u8]) -> Option<()>
    ensures { result ≡ triggers.is_start text.now }
{
    if text == b"start".as_slice() {
        return Some(());
    }
    None
}

impl Kind for StartWord {
    type Made = ();

    ghost meaning = { triggers.start };

    fn read(_alloc: Global, line: u32, node: &Node) -> Result<(), YamlFault> {
        match scalar(node) {
            Some(text) => match is_start(text) {
                Some(_) => Ok(()),
                None => bad(line, Code::UnknownKind),
            },
            None => bad(line, Code::UnknownKind),
        }
    }
}

pub(crate) fn start_rule(alloc: Global, line: u32, pairs: &[Pair]) -> Result<Rule, YamlFault>
    ensures { Gives (triggers.start_rule line pairs.now) result }
{
    made_start(needed::<StartWord>(alloc, line, pairs, keys::EVENT))
}

fn made_template(parts: Result<(Template, Option<Span>), YamlFault>) -> Result<Rule, YamlFault>
    ensures { (m : Read (Tree × Option ℕ)) → Gives m parts → Gives (made triggers.made_template m) result }
{
    match parts {
        Ok((template, hold)) => Ok((TriggerRule::Template(template), hold)),
        Err(fault) => Err(fault),
    }
}

pub(crate) fn template_rule(alloc: Global, line: u32, pairs: &[Pair]) -> Result<Rule, YamlFault>
    ensures { Gives (triggers.template_rule line pairs.now) result }
{
    let template = needed::<Source>(alloc, line, pairs, keys::VALUE_TEMPLATE);
    made_template(both(template, hold(alloc, pairs)))
}
