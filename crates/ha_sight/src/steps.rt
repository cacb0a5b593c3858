//! What the parts of the engine answer each other.

use crate::item::Item;
use crate::waiting::WaitAsk;

/// What the core does with a call itself.
#[derive(Drop)]
pub enum Inner {
    /// Nothing: the call is written.
    Outer,
    /// This item, in place of the call.
    Does(Item),
    /// The call fails, by the code's number: 1 for F1.
    Fails(u8),
}

/// How far a script is after a step.
#[derive(Clone, Copy, Debug, PartialEq, Eq)]
pub enum Progress {
    Going,
    Done,
    Stopped,
    Faulted,
}

/// What one step of a script gave.
#[derive(Drop)]
pub struct StepOut {
    pub item: Item,
    pub progress: Progress,
    /// What it waits for from here on, where the step begins a wait, or starts a run of a script and waits for its end: then it has no
    /// template, no triggers and no due.
    pub wait: Option<WaitAsk>,
}
