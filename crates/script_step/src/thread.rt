//! Where a run stands in one branch: the open blocks, from the outermost to the innermost.
ghost use Rattle.std.specs.Prelude.{◌<◌, ◌≤◌};

use crate::scopes::Scopes;
use ha_value::{Many, Value};

/// How often a repeat takes a turn.
#[derive(Drop)]
pub enum Rounds {
    /// A number of times.
    Count,
    /// Once for each value.
    Each(Many<Value>),
    /// As long as its conditions hold before a turn.
    While,
    /// Until its conditions hold after a turn.
    Until,
}

/// A turn of a repeat, counted from 1, and how many turns the repeat may take.
#[derive(Drop)]
pub struct Turn {
    pub rounds: Rounds,
    pub index: u64,
    pub most: u64,
    pub ghost from: { 1 ≤ index },
    pub ghost fits: { index ≤ most },
    pub ghost small: { most < 9223372036854775807 },
}

/// An open block.
#[derive(Drop)]
pub struct Frame {
    /// Which list of its action before `at` is entered, where a further block is open in it.
    pub inside: usize,
    /// The place of its next action in its list.
    pub at: usize,
    /// The turn that it is, where it is the body of a repeat.
    pub turn: Option<Turn>,
}

/// The open blocks with their variables.
#[derive(Drop)]
pub struct Thread {
    pub scopes: Scopes,
    /// All but the innermost, the outermost first.
    pub outer: Many<Frame>,
    /// The innermost.
    pub here: Frame,
}
