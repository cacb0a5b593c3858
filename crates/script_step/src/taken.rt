//! What one step of a script gave.
use crate::held::Held;
use ha_sight::{Item, Progress, WaitAsk};

/// As `StepOut`, with a wait in memory of its own.
#[derive(Drop)]
pub struct Taken {
    pub item: Item,
    pub progress: Progress,
    /// What it waits for from here on, where the step begins a wait.
    pub wait: Option<Held<WaitAsk>>,
}
