//! A configuration as it was read: automations with their triggers, conditions and actions, scripts, and helpers.

use crate::helper::Helper;
use crate::template::Template;
use ha_clock::Span;
use ha_value::{EntityId, Many, Num, Value, Word};

/// All automations, all scripts and all helpers, each in the order of the file. A unit is what has runs: the automations, named elsewhere by their
/// places in their list, from 0, and behind them the scripts.
#[derive(Drop)]
pub struct Config {
    pub automations: Many<Automation>,
    /// The scripts that calls start by name.
    pub scripts: Many<Script>,
    /// Flags, counters and timers, in this order, whose states calls change.
    pub helpers: Many<Helper>,
}

/// One script, which calls start.
#[derive(Drop)]
pub struct Script {
    /// The object id of `script.NAME`, distinct from every other script's.
    pub name: Word,
    /// Its actions; one empty block where none is enabled.
    pub actions: Many<Action>,
    pub mode: Mode,
    /// How many runs may be live at once in the modes queued and parallel, from 1 to 1,000.
    pub max: u32,
}

/// One automation.
#[derive(Drop)]
pub struct Automation {
    /// The object id of its entity `automation.NAME`, distinct from every other automation's.
    pub name: Word,
    /// The triggers that are enabled, in order; each knows its index among all of them.
    pub triggers: Many<Trigger>,
    /// The conditions, which have to hold for an attempt to pass.
    pub tests: Many<Condition>,
    /// The actions of its script; one empty block where none is enabled.
    pub actions: Many<Action>,
    pub mode: Mode,
    /// How many runs may be live at once in the modes queued and parallel, from 1 to 1,000.
    pub max: u32,
    /// The switch at each start and restart, where the configuration sets it.
    pub initial: Option<bool>,
}

/// What an attempt does while a run of its unit is live.
#[derive(Clone, Copy, Debug, PartialEq, Eq)]
pub enum Mode {
    /// It is refused.
    Single,
    /// It replaces the live run.
    Restart,
    /// It waits behind the live runs.
    Queued,
    /// It runs beside them.
    Parallel,
}

/// One trigger of an automation or of a wait.
#[derive(Drop)]
pub struct Trigger {
    /// Its own text, else its index as text.
    pub id: Word,
    /// Its index from 0 among the configured triggers, the disabled ones included.
    pub idx: u32,
    pub rule: TriggerRule,
    /// How long what it watches has to stay before it fires (`for`), over 0; none where it fires at once.
    pub hold: Option<Span>,
}

/// What moves a trigger.
#[derive(Drop)]
pub enum TriggerRule {
    /// A change of an entity's state text, or of the named attribute, from one side to the other.
    State {
        entities: Many<EntityId>,
        attribute: Option<Word>,
        from: Match,
        to: Match,
    },
    /// A report whose number comes into the strict bounds.
    Numeric {
        entities: Many<EntityId>,
        attribute: Option<Word>,
        above: Option<Num>,
        below: Option<Num>,
    },
    /// An event of one of the kinds whose data has each of the pairs.
    Event {
        kinds: Many<Word>,
        pairs: Many<(Word, Value)>,
    },
    /// One of these local seconds of the day passes.
    Time(Many<u32>),
    /// A local second passes whose hour, minute and second fit.
    Pattern {
        hours: Unit,
        minutes: Unit,
        seconds: Unit,
    },
    /// The template becomes true.
    Template(Template),
    /// The start, or a restart.
    Start,
}

/// One side of a state trigger.
#[derive(Drop)]
pub enum Match {
    /// The key isn't there: every text matches.
    Absent,
    /// The key is there and null: every text matches.
    Any,
    /// `from` or `to`: a text that is in the list.
    OneOf(Many<Word>),
    /// `not_from` or `not_to`: a text that is not in the list, or no text.
    NoneOf(Many<Word>),
}

/// One unit of a time pattern.
#[derive(Clone, Copy, Debug, PartialEq, Eq)]
pub enum Unit {
    /// `*`.
    Every,
    /// This number.
    Exact(u32),
    /// `/n`: a number that `n` divides, with `n` at least 1.
    Each(u32),
}

/// What has to hold for an attempt to pass, or for a script to go on.
#[derive(Drop)]
pub enum Condition {
    /// All inside hold.
    And(Many<Condition>),
    /// One inside holds.
    Or(Many<Condition>),
    /// None inside holds.
    Not(Many<Condition>),
    /// Each entity's state text, or attribute's text, is in the list, and its state text has stood for `hold`.
    State {
        entities: Many<EntityId>,
        attribute: Option<Word>,
        texts: Many<Word>,
        hold: Option<Span>,
    },
    /// Each entity has a number in the strict bounds.
    Numeric {
        entities: Many<EntityId>,
        attribute: Option<Word>,
        above: Option<Num>,
        below: Option<Num>,
    },
    /// The rendered text is `true`, in upper or lower case.
    Template(Template),
    /// The local second of the day is in the window, whose end is left out, and the weekday, from 0 for Monday, is in the list.
    Time {
        after: Option<u32>,
        before: Option<u32>,
        weekdays: Option<Many<u8>>,
    },
    /// The id of the run's own trigger is in the list.
    Trigger(Many<Word>),
}

/// One action of a script.
#[derive(Drop)]
#[cycle(action)]
pub struct Action {
    pub kind: ActionKind,
}

/// What an action does.
#[derive(Drop)]
#[cycle(action)]
pub enum ActionKind {
    /// Calls a service on the targets, with data.
    Call {
        service: Template,
        target: Many<Template>,
        fields: Many<(Word, Form)>,
    },
    /// Lets time pass.
    Delay(SpanForm),
    /// Waits until the template is true; after a timeout it goes on only where `go_on` is set.
    WaitUntil {
        test: Template,
        timeout: Option<SpanForm>,
        go_on: bool,
    },
    /// Waits until one of the triggers fires; after a timeout it goes on only where `go_on` is set.
    WaitFor {
        triggers: Many<Trigger>,
        timeout: Option<SpanForm>,
        go_on: bool,
    },
    /// Goes into the first option whose conditions all hold, else into the fallback.
    Choose {
        options: Many<(Many<Condition>, Many<Action>)>,
        fallback: Many<Action>,
    },
    If {
        tests: Many<Condition>,
        yes: Many<Action>,
        no: Many<Action>,
    },
    Repeat {
        kind: RepeatKind,
        body: Many<Action>,
    },
    /// Runs the lists beside each other, one branch each.
    Parallel(Many<Many<Action>>),
    /// Goes into the list.
    Block(Many<Action>),
    /// Sets variables for the rest of the block, in order.
    Set(Many<(Word, Form)>),
    /// Makes an event.
    Fire {
        event: Word,
        fields: Many<(Word, Form)>,
    },
    /// Ends the script.
    Stop,
    /// Ends its block where the condition does not hold.
    Test(Condition),
}

/// How often a repeat takes a turn.
#[derive(Drop)]
pub enum RepeatKind {
    /// The rendered number of times.
    Count(Template),
    /// As long as all hold before a turn.
    While(Many<Condition>),
    /// Until all hold after a turn.
    Until(Many<Condition>),
    /// Once for each item.
    Each(Many<Form>),
}

/// A value that may have templates in it.
#[derive(Drop)]
pub enum Form {
    Plain(Value),
    /// Renders to a text, which is read as data.
    Text(Template),
    Items(Many<Form>),
    /// Pairs with distinct keys.
    Pairs(Many<(Word, Form)>),
}

/// A length of time that may have to be rendered.
#[derive(Drop)]
pub enum SpanForm {
    Known(Span),
    /// Renders to whole seconds, `HH:MM` or `HH:MM:SS`.
    Text(Template),
    /// Days, hours, minutes, seconds and milliseconds, in this order; each renders to a whole number.
    Parts(Many<Template>),
}
