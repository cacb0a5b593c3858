//! The kinds of conditions, and their tables of keys.

ghost use Rattle.std.specs.Prelude.{◌≡◌, ◌∷◌, ℕ, Result, None, Some};
ghost use Rattle.std.specs.List.{find};
ghost use Rattle.std.specs.Str.{bytes_eq};
ghost use Rattle.yaml_scan.specs.declared.fault.Fault.{Fault};
ghost use Rattle.yaml_tree.specs.declared.node.Node.{Node};
ghost use Rattle.conf_field.specs.Fields as fields;
ghost use Rattle.conf_cond.specs.Conditions as conditions;

use conf_field::rows::{
    ABOVE, AFTER, ALIAS, AND, ATTRIBUTE, BEFORE, BELOW, CONDITION, CONDITIONS, CONTINUE_ON_ERROR,
    ENABLED, ENTITY_ID, FOR, ID, NOT, OR, STATE, VALUE_TEMPLATE, WEEKDAY,
};
use conf_field::{Kind, Pair, Row, bad, scalar};
use std::alloc::Global;
use yaml_scan::{Code, YamlFault};
use yaml_tree::Node;

/// What a condition's kind key names.
#[derive(Clone, Copy, Debug, PartialEq, Eq)]
pub enum ConditionKind {
    And,
    Or,
    Not,
    State,
    Numeric,
    Template,
    Time,
    Trigger,
}

const KINDS: [ConditionKind; 8] = [
    ConditionKind::And,
    ConditionKind::Or,
    ConditionKind::Not,
    ConditionKind::State,
    ConditionKind::Numeric,
    ConditionKind::Template,
    ConditionKind::Time,
    ConditionKind::Trigger,
];

impl ConditionKind {
    pub fn text(self) -> &'static [u8]
        ensures { result.now ≡ conditions.kind_text self }
    {
        match self {
            ConditionKind::And => b"and",
            ConditionKind::Or => b"or",
            ConditionKind::Not => b"not",
            ConditionKind::State => b"state",
            ConditionKind::Numeric => b"numeric_state",
            ConditionKind::Template => b"template",
            ConditionKind::Time => b"time",
            ConditionKind::Trigger => b"trigger",
        }
    }
}

fn kind_among(kinds: &[ConditionKind], text: &[u8]) -> Option<ConditionKind>
    ensures { result ≡ find (λ k. bytes_eq (conditions.kind_text k) text.now) kinds.now }
{
    kinds.iter().copied().find(|kind| kind.text() == text)
}

fn kind_named(text: &[u8]) -> Option<ConditionKind>
    ensures { result ≡ conditions.kind_named text.now }
{
    kind_among(&KINDS, text)
}

/// The kind that a scalar names.
pub(crate) struct Named;

impl Kind for Named {
    type Made = ConditionKind;

    ghost meaning = { conditions.named };

    fn read(_alloc: Global, line: u32, node: &Node) -> Result<ConditionKind, YamlFault> {
        match scalar(node) {
            Some(text) => match kind_named(text) {
                Some(kind) => Ok(kind),
                None => bad(line, Code::UnknownKind),
            },
            None => bad(line, Code::UnknownKind),
        }
    }
}

/// The key that says the kind of a condition: `condition`, whose value names it, or the kind itself.
#[derive(Clone, Copy, Debug, PartialEq, Eq)]
pub enum KindKey {
    ByName,
    ByAnd,
    ByOr,
    ByNot,
}

const KIND_KEYS: [KindKey; 4] = [
    KindKey::ByName,
    KindKey::ByAnd,
    KindKey::ByOr,
    KindKey::ByNot,
];

impl KindKey {
    fn row(self) -> Row
        ensures { result ≡ conditions.row_of self }
    {
        match self {
            KindKey::ByName => CONDITION,
            KindKey::ByAnd => AND,
            KindKey::ByOr => OR,
            KindKey::ByNot => NOT,
        }
    }
}

fn key_among(keys: &[KindKey], key: &[u8]) -> Option<KindKey>
    ensures { result ≡ find (λ k. fields.names (conditions.row_of k) key.now) keys.now }
{
    keys.iter().copied().find(|kind| kind.row().names(key))
}

/// The first key that is a kind key.
#[tactic(auto, unfolding(conf_field::specs::Fields::first_named))]
pub(crate) fn kind_key(pairs: &[Pair]) -> Option<KindKey>
    ensures { result ≡ conditions.kind_key pairs.now }
{
    'pairs: for i in 0..pairs.len() {
        if let Some(kind) = key_among(&KIND_KEYS, pairs[i].0.bytes()) {
            return Some(kind);
        }
    }
    None
}

const COMMON: [Row; 2] = [ALIAS, ENABLED];

const COMMON_OF_ACTIONS: [Row; 3] = [ALIAS, ENABLED, CONTINUE_ON_ERROR];

/// The keys that every condition has. One that stands as an action may also say whether to go on after an error.
pub(crate) fn common_rows(action: bool) -> &'static [Row]
    ensures { result.now ≡ conditions.common_rows action }
{
    if action {
        return &COMMON_OF_ACTIONS;
    }
    &COMMON
}

const OF_CONDITIONS: [Row; 2] = [CONDITION, CONDITIONS];

const STATE_KEYS: [Row; 5] = [CONDITION, ENTITY_ID, STATE, ATTRIBUTE, FOR];

const NUMERIC_KEYS: [Row; 5] = [CONDITION, ENTITY_ID, ABOVE, BELOW, ATTRIBUTE];

const TEMPLATE_KEYS: [Row; 2] = [CONDITION, VALUE_TEMPLATE];

const TIME_KEYS: [Row; 4] = [CONDITION, AFTER, BEFORE, WEEKDAY];

const TRIGGER_KEYS: [Row; 2] = [CONDITION, ID];

/// The keys of a condition whose kind is named.
pub(crate) fn kind_rows(kind: ConditionKind) -> &'static [Row]
    ensures { result.now ≡ conditions.kind_rows kind }
{
    match kind {
        ConditionKind::And => &OF_CONDITIONS,
        ConditionKind::Or => &OF_CONDITIONS,
        ConditionKind::Not => &OF_CONDITIONS,
        ConditionKind::State => &STATE_KEYS,
        ConditionKind::Numeric => &NUMERIC_KEYS,
        ConditionKind::Template => &TEMPLATE_KEYS,
        ConditionKind::Time => &TIME_KEYS,
        ConditionKind::Trigger => &TRIGGER_KEYS,
    }
}
