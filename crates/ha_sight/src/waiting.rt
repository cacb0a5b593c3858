//! What a wait waits for, and how it ended.

use crate::env::Env;
use crate::item::Branch;
use ha_clock::Moment;
use ha_config::{Template, Trigger};
use ha_value::{Many, Num, Value};

/// How a wait ended.
#[derive(Drop)]
pub struct WaitEnd {
    /// The entry at which it ended.
    pub place: u64,
    /// Whether it completed, and was not timed out.
    pub done: bool,
    /// The seconds that were left of the timeout, none without a timeout.
    pub remaining: Option<Num>,
    /// The variables of the trigger that fired.
    pub trigger: Option<Value>,
}

/// What a wait waits for.
#[derive(Drop)]
pub struct WaitAsk {
    pub serial: u64,
    pub branch: Branch,
    /// It ends where this is true.
    pub test: Option<Template>,
    /// It ends where one of these fires.
    pub triggers: Many<Trigger>,
    /// It ends where Now is at least this due, none without a timeout.
    pub due: Option<Moment>,
    /// What the template sees.
    pub env: Env,
}
