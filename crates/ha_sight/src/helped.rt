//! Services of helpers, what their calls ask for, and what they change.

use ha_clock::Span;
use ha_value::{EntityId, Word};

/// What a service changed of one helper.
#[derive(Drop)]
pub struct HelperChange {
    pub entity: EntityId,
    /// Its state text from here on.
    pub text: Word,
    /// How long a timer that is active stays so, or what a paused one has left; none of any other helper.
    pub span: Option<Span>,
    /// The event that a timer makes of it.
    pub event: Option<Word>,
}

/// A service of helpers.
#[derive(Clone, Copy, Debug, PartialEq, Eq, Drop)]
pub enum HelperService {
    /// `input_boolean.turn_on`
    TurnOn,
    /// `input_boolean.turn_off`
    TurnOff,
    /// `input_boolean.toggle`
    Toggle,
    /// `counter.increment`
    Increment,
    /// `counter.decrement`
    Decrement,
    /// `counter.reset`
    Reset,
    /// `counter.set_value`
    SetValue,
    /// `timer.start`
    Start,
    /// `timer.pause`
    Pause,
    /// `timer.cancel`
    Cancel,
    /// `timer.finish`
    Finish,
}

/// What the data of a call asks for: the value of a counter, or how long a timer is to be active.
#[derive(Clone, Copy, Debug, PartialEq, Eq, Drop)]
pub struct Wanted {
    pub value: Option<i64>,
    pub span: Option<Span>,
}
