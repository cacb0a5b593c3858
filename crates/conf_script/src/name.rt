//! The kinds of actions, and their tables of keys.

ghost use Rattle.std.specs.Prelude.{◌≡◌, ◌∷◌, ℕ, None, Some};
ghost use Rattle.std.specs.List.{find};
ghost use Rattle.conf_field.specs.Fields as fields;
ghost use Rattle.conf_script.specs.Actions as actions;

use conf_field::rows::{
    ALIAS, AND, CHOOSE, CONDITION, CONTINUE_ON_ERROR, CONTINUE_ON_TIMEOUT, COUNT, DATA, DEFAULT,
    DELAY, ELSE, ENABLED, ENTITY_ID, ERROR, EVENT, EVENT_DATA, FOR_EACH, IF, METADATA, NOT, OR,
    PARALLEL, REPEAT, SEQUENCE, STOP, TARGET, THEN, TIMEOUT, UNTIL, VARIABLES, WAIT_FOR_TRIGGER,
    WAIT_TEMPLATE, WHILE,
};
use conf_field::{Key, Pair, Row};

/// The key that says what an action does.
#[derive(Clone, Copy, Debug, PartialEq, Eq)]
pub enum ActionName {
    OfCall,
    OfDelay,
    OfWaitTemplate,
    OfWaitForTrigger,
    OfChoose,
    OfIf,
    OfRepeat,
    OfParallel,
    OfSequence,
    OfVariables,
    OfEvent,
    OfStop,
    OfCondition,
    OfAnd,
    OfOr,
    OfNot,
}

const NAMES: [ActionName; 16] = [
    ActionName::OfCall,
    ActionName::OfDelay,
    ActionName::OfWaitTemplate,
    ActionName::OfWaitForTrigger,
    ActionName::OfChoose,
    ActionName::OfIf,
    ActionName::OfRepeat,
    ActionName::OfParallel,
    ActionName::OfSequence,
    ActionName::OfVariables,
    ActionName::OfEvent,
    ActionName::OfStop,
    ActionName::OfCondition,
    ActionName::OfAnd,
    ActionName::OfOr,
    ActionName::OfNot,
];

/// A call, by either word.
pub(crate) const CALL: Row = Row {
    key: Key::Action,
    also: Some(Key::Service),
};

impl ActionName {
    fn row(self) -> Row
        ensures { result ≡ actions.row_of self }
    {
        match self {
            ActionName::OfCall => CALL,
            ActionName::OfDelay => DELAY,
            ActionName::OfWaitTemplate => WAIT_TEMPLATE,
            ActionName::OfWaitForTrigger => WAIT_FOR_TRIGGER,
            ActionName::OfChoose => CHOOSE,
            ActionName::OfIf => IF,
            ActionName::OfRepeat => REPEAT,
            ActionName::OfParallel => PARALLEL,
            ActionName::OfSequence => SEQUENCE,
            ActionName::OfVariables => VARIABLES,
            ActionName::OfEvent => EVENT,
            ActionName::OfStop => STOP,
            ActionName::OfCondition => CONDITION,
            ActionName::OfAnd => AND,
            ActionName::OfOr => OR,
            ActionName::OfNot => NOT,
        }
    }

    /// Whether it is a condition that stands as an action.
    pub(crate) fn is_test(self) -> bool
        ensures { result ≡ actions.is_test self }
    {
        match self {
            ActionName::OfCondition => true,
            ActionName::OfAnd => true,
            ActionName::OfOr => true,
            ActionName::OfNot => true,
            ActionName::OfCall => false,
            ActionName::OfDelay => false,
            ActionName::OfWaitTemplate => false,
            ActionName::OfWaitForTrigger => false,
            ActionName::OfChoose => false,
            ActionName::OfIf => false,
            ActionName::OfRepeat => false,
            ActionName::OfParallel => false,
            ActionName::OfSequence => false,
            ActionName::OfVariables => false,
            ActionName::OfEvent => false,
            ActionName::OfStop => false,
        }
    }
}

fn name_among(names: &[ActionName], key: &[u8]) -> Option<ActionName>
    ensures { result ≡ find (λ k. fields.names (actions.row_of k) key.now) names.now }
{
    names.iter().copied().find(|name| name.row().names(key))
}

/// The first key that is a kind key.
#[tactic(auto, unfolding(conf_field::specs::Fields::first_named))]
pub(crate) fn name_of(pairs: &[Pair]) -> Option<ActionName>
    ensures { result ≡ actions.name_of pairs.now }
{
    'pairs: for i in 0..pairs.len() {
        let pair = &pairs[i];
        if let Some(name) = name_among(&NAMES, pair.0.bytes()) {
            return Some(name);
        }
    }
    None
}

/// The keys that every action has.
pub(crate) const COMMON: [Row; 3] = [ALIAS, ENABLED, CONTINUE_ON_ERROR];

const CALL_KEYS: [Row; 5] = [CALL, TARGET, ENTITY_ID, DATA, METADATA];

const DELAY_KEYS: [Row; 1] = [DELAY];

const WAIT_TEMPLATE_KEYS: [Row; 3] = [WAIT_TEMPLATE, TIMEOUT, CONTINUE_ON_TIMEOUT];

const WAIT_FOR_TRIGGER_KEYS: [Row; 3] = [WAIT_FOR_TRIGGER, TIMEOUT, CONTINUE_ON_TIMEOUT];

const CHOOSE_KEYS: [Row; 2] = [CHOOSE, DEFAULT];

const IF_KEYS: [Row; 3] = [IF, THEN, ELSE];

const REPEAT_KEYS: [Row; 1] = [REPEAT];

const PARALLEL_KEYS: [Row; 1] = [PARALLEL];

const SEQUENCE_KEYS: [Row; 1] = [SEQUENCE];

const VARIABLES_KEYS: [Row; 1] = [VARIABLES];

const EVENT_KEYS: [Row; 2] = [EVENT, EVENT_DATA];

const STOP_KEYS: [Row; 2] = [STOP, ERROR];

const CONDITION_KEYS: [Row; 1] = [CONDITION];

const AND_KEYS: [Row; 1] = [AND];

const OR_KEYS: [Row; 1] = [OR];

const NOT_KEYS: [Row; 1] = [NOT];

/// The keys of an action of the kind, beside those that every action has.
pub(crate) fn kind_rows(name: ActionName) -> &'static [Row]
    ensures { result.now ≡ actions.kind_rows name }
{
    match name {
        ActionName::OfCall => &CALL_KEYS,
        ActionName::OfDelay => &DELAY_KEYS,
        ActionName::OfWaitTemplate => &WAIT_TEMPLATE_KEYS,
        ActionName::OfWaitForTrigger => &WAIT_FOR_TRIGGER_KEYS,
        ActionName::OfChoose => &CHOOSE_KEYS,
        ActionName::OfIf => &IF_KEYS,
        ActionName::OfRepeat => &REPEAT_KEYS,
        ActionName::OfParallel => &PARALLEL_KEYS,
        ActionName::OfSequence => &SEQUENCE_KEYS,
        ActionName::OfVariables => &VARIABLES_KEYS,
        ActionName::OfEvent => &EVENT_KEYS,
        ActionName::OfStop => &STOP_KEYS,
        ActionName::OfCondition => &CONDITION_KEYS,
        ActionName::OfAnd => &AND_KEYS,
        ActionName::OfOr => &OR_KEYS,
        ActionName::OfNot => &NOT_KEYS,
    }
}

/// The key that says how often a repeat takes a turn.
#[derive(Clone, Copy, Debug, PartialEq, Eq)]
pub enum RepeatName {
    ByCount,
    ByWhile,
    ByUntil,
    ByEach,
}

const REPEAT_NAMES: [RepeatName; 4] = [
    RepeatName::ByCount,
    RepeatName::ByWhile,
    RepeatName::ByUntil,
    RepeatName::ByEach,
];

impl RepeatName {
    fn row(self) -> Row
        ensures { result ≡ actions.repeat_row self }
    {
        match self {
            RepeatName::ByCount => COUNT,
            RepeatName::ByWhile => WHILE,
            RepeatName::ByUntil => UNTIL,
            RepeatName::ByEach => FOR_EACH,
        }
    }
}

fn repeat_among(names: &[RepeatName], key: &[u8]) -> Option<RepeatName>
    ensures { result ≡ find (λ k. fields.names (actions.repeat_row k) key.now) names.now }
{
    names.iter().copied().find(|name| name.row().names(key))
}

/// The first key that is a kind key of a repeat.
#[tactic(auto, unfolding(conf_field::specs::Fields::first_named))]
pub(crate) fn repeat_name(pairs: &[Pair]) -> Option<RepeatName>
    ensures { result ≡ actions.repeat_name pairs.now }
{
    'pairs: for i in 0..pairs.len() {
        let pair = &pairs[i];
        if let Some(name) = repeat_among(&REPEAT_NAMES, pair.0.bytes()) {
            return Some(name);
        }
    }
    None
}

const BY_COUNT: [Row; 2] = [COUNT, SEQUENCE];

const BY_WHILE: [Row; 2] = [WHILE, SEQUENCE];

const BY_UNTIL: [Row; 2] = [UNTIL, SEQUENCE];

const BY_EACH: [Row; 2] = [FOR_EACH, SEQUENCE];

const BY_NONE: [Row; 1] = [SEQUENCE];

/// The keys of a repeat.
pub(crate) fn repeat_rows(name: Option<RepeatName>) -> &'static [Row]
    ensures { result.now ≡ actions.repeat_rows name }
{
    match name {
        Some(RepeatName::ByCount) => &BY_COUNT,
        Some(RepeatName::ByWhile) => &BY_WHILE,
        Some(RepeatName::ByUntil) => &BY_UNTIL,
        Some(RepeatName::ByEach) => &BY_EACH,
        None => &BY_NONE,
    }
}
