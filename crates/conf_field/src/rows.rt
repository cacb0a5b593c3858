//! The rows of one word.

use crate::key::Key;
use crate::table::Row;

pub const ABOVE: Row = Row {
    key: Key::Above,
    also: None,
};

pub const ACTION: Row = Row {
    key: Key::Action,
    also: None,
};

pub const ACTIONS: Row = Row {
    key: Key::Actions,
    also: None,
};

pub const AFTER: Row = Row {
    key: Key::After,
    also: None,
};

pub const ALIAS: Row = Row {
    key: Key::Alias,
    also: None,
};

pub const AND: Row = Row {
    key: Key::And,
    also: None,
};

pub const AT: Row = Row {
    key: Key::At,
    also: None,
};

pub const ATTRIBUTE: Row = Row {
    key: Key::Attribute,
    also: None,
};

pub const AUTOMATION: Row = Row {
    key: Key::Automation,
    also: None,
};

pub const BEFORE: Row = Row {
    key: Key::Before,
    also: None,
};

pub const BELOW: Row = Row {
    key: Key::Below,
    also: None,
};

pub const CHOOSE: Row = Row {
    key: Key::Choose,
    also: None,
};

pub const CONDITION: Row = Row {
    key: Key::Condition,
    also: None,
};

pub const CONDITIONS: Row = Row {
    key: Key::Conditions,
    also: None,
};

pub const CONTINUE_ON_ERROR: Row = Row {
    key: Key::ContinueOnError,
    also: None,
};

pub const CONTINUE_ON_TIMEOUT: Row = Row {
    key: Key::ContinueOnTimeout,
    also: None,
};

pub const COUNT: Row = Row {
    key: Key::Count,
    also: None,
};

pub const COUNTER: Row = Row {
    key: Key::Counter,
    also: None,
};

pub const DATA: Row = Row {
    key: Key::Data,
    also: None,
};

pub const DAYS: Row = Row {
    key: Key::Days,
    also: None,
};

pub const DEFAULT: Row = Row {
    key: Key::Default,
    also: None,
};

pub const DELAY: Row = Row {
    key: Key::Delay,
    also: None,
};

pub const DESCRIPTION: Row = Row {
    key: Key::Description,
    also: None,
};

pub const DURATION: Row = Row {
    key: Key::Duration,
    also: None,
};

pub const ELSE: Row = Row {
    key: Key::Else,
    also: None,
};

pub const ENABLED: Row = Row {
    key: Key::Enabled,
    also: None,
};

pub const ENTITY_ID: Row = Row {
    key: Key::EntityId,
    also: None,
};

pub const ERROR: Row = Row {
    key: Key::Error,
    also: None,
};

pub const EVENT: Row = Row {
    key: Key::Event,
    also: None,
};

pub const EVENT_DATA: Row = Row {
    key: Key::EventData,
    also: None,
};

pub const EVENT_TYPE: Row = Row {
    key: Key::EventType,
    also: None,
};

pub const FIELDS: Row = Row {
    key: Key::Fields,
    also: None,
};

pub const FOR: Row = Row {
    key: Key::For,
    also: None,
};

pub const FOR_EACH: Row = Row {
    key: Key::ForEach,
    also: None,
};

pub const FROM: Row = Row {
    key: Key::From,
    also: None,
};

pub const HOURS: Row = Row {
    key: Key::Hours,
    also: None,
};

pub const ICON: Row = Row {
    key: Key::Icon,
    also: None,
};

pub const ID: Row = Row {
    key: Key::Id,
    also: None,
};

pub const IF: Row = Row {
    key: Key::If,
    also: None,
};

pub const INITIAL: Row = Row {
    key: Key::Initial,
    also: None,
};

pub const INITIAL_STATE: Row = Row {
    key: Key::InitialState,
    also: None,
};

pub const INPUT_BOOLEAN: Row = Row {
    key: Key::InputBoolean,
    also: None,
};

pub const MAX: Row = Row {
    key: Key::Max,
    also: None,
};

pub const MAXIMUM: Row = Row {
    key: Key::Maximum,
    also: None,
};

pub const MAX_EXCEEDED: Row = Row {
    key: Key::MaxExceeded,
    also: None,
};

pub const METADATA: Row = Row {
    key: Key::Metadata,
    also: None,
};

pub const MILLISECONDS: Row = Row {
    key: Key::Milliseconds,
    also: None,
};

pub const MINIMUM: Row = Row {
    key: Key::Minimum,
    also: None,
};

pub const MINUTES: Row = Row {
    key: Key::Minutes,
    also: None,
};

pub const MODE: Row = Row {
    key: Key::Mode,
    also: None,
};

pub const NAME: Row = Row {
    key: Key::Name,
    also: None,
};

pub const NOT: Row = Row {
    key: Key::Not,
    also: None,
};

pub const NOT_FROM: Row = Row {
    key: Key::NotFrom,
    also: None,
};

pub const NOT_TO: Row = Row {
    key: Key::NotTo,
    also: None,
};

pub const OR: Row = Row {
    key: Key::Or,
    also: None,
};

pub const PARALLEL: Row = Row {
    key: Key::Parallel,
    also: None,
};

pub const PLATFORM: Row = Row {
    key: Key::Platform,
    also: None,
};

pub const REPEAT: Row = Row {
    key: Key::Repeat,
    also: None,
};

pub const RESTORE: Row = Row {
    key: Key::Restore,
    also: None,
};

pub const SCRIPT: Row = Row {
    key: Key::Script,
    also: None,
};

pub const SECONDS: Row = Row {
    key: Key::Seconds,
    also: None,
};

pub const SEQUENCE: Row = Row {
    key: Key::Sequence,
    also: None,
};

pub const SERVICE: Row = Row {
    key: Key::Service,
    also: None,
};

pub const STATE: Row = Row {
    key: Key::State,
    also: None,
};

pub const STEP: Row = Row {
    key: Key::Step,
    also: None,
};

pub const STOP: Row = Row {
    key: Key::Stop,
    also: None,
};

pub const TARGET: Row = Row {
    key: Key::Target,
    also: None,
};

pub const THEN: Row = Row {
    key: Key::Then,
    also: None,
};

pub const TIMEOUT: Row = Row {
    key: Key::Timeout,
    also: None,
};

pub const TIMER: Row = Row {
    key: Key::Timer,
    also: None,
};

pub const TO: Row = Row {
    key: Key::To,
    also: None,
};

pub const TRACE: Row = Row {
    key: Key::Trace,
    also: None,
};

pub const TRIGGER: Row = Row {
    key: Key::Trigger,
    also: None,
};

pub const TRIGGERS: Row = Row {
    key: Key::Triggers,
    also: None,
};

pub const UNTIL: Row = Row {
    key: Key::Until,
    also: None,
};

pub const VALUE_TEMPLATE: Row = Row {
    key: Key::ValueTemplate,
    also: None,
};

pub const VARIABLES: Row = Row {
    key: Key::Variables,
    also: None,
};

pub const WAIT_FOR_TRIGGER: Row = Row {
    key: Key::WaitForTrigger,
    also: None,
};

pub const WAIT_TEMPLATE: Row = Row {
    key: Key::WaitTemplate,
    also: None,
};

pub const WEEKDAY: Row = Row {
    key: Key::Weekday,
    also: None,
};

pub const WHILE: Row = Row {
    key: Key::While,
    also: None,
};
