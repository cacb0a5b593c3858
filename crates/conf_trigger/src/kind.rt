//! The kinds of triggers, and their tables of keys.

ghost use Rattle.std.specs.Prelude.{◌≡◌, ℕ, Result, None, Some};
ghost use Rattle.std.specs.List.{find};
ghost use Rattle.std.specs.Str.{bytes_eq};
ghost use Rattle.yaml_scan.specs.Answers.{Gives};
ghost use Rattle.yaml_scan.specs.declared.fault.Fault.{Fault};
ghost use Rattle.yaml_tree.specs.declared.node.Node.{Node};
ghost use Rattle.conf_field.specs.Fields as fields;
ghost use Rattle.conf_trigger.specs.Triggers as triggers;

use conf_field::rows::{
    ABOVE, ALIAS, AT, ATTRIBUTE, BELOW, ENABLED, ENTITY_ID, EVENT, EVENT_DATA, EVENT_TYPE, FOR,
    FROM, HOURS, ID, MINUTES, NOT_FROM, NOT_TO, SECONDS, TO, VALUE_TEMPLATE,
};
use conf_field::{Key, Kind, Pair, Row, bad, keys, scalar};
use std::alloc::Global;
use yaml_scan::{Code, YamlFault};
use yaml_tree::Node;

/// What a trigger's kind key names.
#[derive(Clone, Copy, Debug, PartialEq, Eq)]
pub enum TriggerKind {
    State,
    Numeric,
    Event,
    Time,
    Pattern,
    Template,
    Start,
}

const KINDS: [TriggerKind; 7] = [
    TriggerKind::State,
    TriggerKind::Numeric,
    TriggerKind::Event,
    TriggerKind::Time,
    TriggerKind::Pattern,
    TriggerKind::Template,
    TriggerKind::Start,
];

impl TriggerKind {
    pub fn text(self) -> &'static [u8]
        ensures { result.now ≡ triggers.kind_text self }
    {
        match self {
            TriggerKind::State => b"state",
            TriggerKind::Numeric => b"numeric_state",
            TriggerKind::Event => b"event",
            TriggerKind::Time => b"time",
            TriggerKind::Pattern => b"time_pattern",
            TriggerKind::Template => b"template",
            TriggerKind::Start => b"homeassistant",
        }
    }
}

fn kind_among(kinds: &[TriggerKind], text: &[u8]) -> Option<TriggerKind>
    ensures { result ≡ find (λ k. bytes_eq (triggers.kind_text k) text.now) kinds.now }
{
    kinds.iter().copied().find(|kind| kind.text() == text)
}

fn kind_named(text: &[u8]) -> Option<TriggerKind>
    ensures { result ≡ triggers.kind_named text.now }
{
    kind_among(&KINDS, text)
}

/// The kind that a scalar names.
pub(crate) struct Named;

impl Kind for Named {
    type Made = TriggerKind;

    ghost meaning = { triggers.named };

    fn read(_alloc: Global, line: u32, node: &Node) -> Result<TriggerKind, YamlFault> {
        match scalar(node) {
            Some(text) => match kind_named(text) {
                Some(kind) => Ok(kind),
                None => bad(line, Code::UnknownKind),
            },
            None => bad(line, Code::UnknownKind),
        }
    }
}

pub(crate) const KIND: Row = Row {
    key: Key::Trigger,
    also: Some(Key::Platform),
};
/// The keys that every trigger has.
const COMMON: [Row; 4] = [KIND, ID, ALIAS, ENABLED];

const STATE_KEYS: [Row; 7] = [ENTITY_ID, FROM, TO, NOT_FROM, NOT_TO, ATTRIBUTE, FOR];

const NUMERIC_KEYS: [Row; 5] = [ENTITY_ID, ABOVE, BELOW, ATTRIBUTE, FOR];

const EVENT_KEYS: [Row; 2] = [EVENT_TYPE, EVENT_DATA];

const TIME_KEYS: [Row; 1] = [AT];

const PATTERN_KEYS: [Row; 3] = [HOURS, MINUTES, SECONDS];

const TEMPLATE_KEYS: [Row; 2] = [VALUE_TEMPLATE, FOR];

const START_KEYS: [Row; 1] = [EVENT];

/// The keys of a trigger of the kind.
pub(crate) fn keys_of(kind: TriggerKind, pairs: &[Pair]) -> Result<(), YamlFault>
    ensures { Gives (fields.keys (triggers.rows kind) pairs.now) result }
{
    match kind {
        TriggerKind::State => keys(&COMMON, &STATE_KEYS, pairs),
        TriggerKind::Numeric => keys(&COMMON, &NUMERIC_KEYS, pairs),
        TriggerKind::Event => keys(&COMMON, &EVENT_KEYS, pairs),
        TriggerKind::Time => keys(&COMMON, &TIME_KEYS, pairs),
        TriggerKind::Pattern => keys(&COMMON, &PATTERN_KEYS, pairs),
        TriggerKind::Template => keys(&COMMON, &TEMPLATE_KEYS, pairs),
        TriggerKind::Start => keys(&COMMON, &START_KEYS, pairs),
    }
}
