//! Helpers, as a configuration has them.

use ha_clock::Span;
use ha_value::EntityId;

/// A helper: an entity whose state the core keeps, and calls of its services change.
#[derive(Drop)]
pub struct Helper {
    /// Distinct from every other helper's; its domain is that of its kind.
    pub entity: EntityId,
    pub kind: HelperKind,
}

/// What a helper is.
#[derive(Clone, Copy, Debug, PartialEq, Eq, Drop)]
pub enum HelperKind {
    /// `input_boolean`: on or off.
    Flag {
        initial: bool,
    },
    /// `counter`: a whole number from `least` to `greatest`, that goes up and down by `step`, which is at least 1.
    Counter {
        initial: i64,
        step: i64,
        least: i64,
        greatest: i64,
    },
    /// `timer`: idle, active for a while, or paused; `span` is how long it is active where a call doesn't say.
    Timer {
        span: Span,
    },
}
