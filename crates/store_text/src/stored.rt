//! What a store keeps.

use ha_clock::Moment;
use ha_value::{Many, Word};

/// What a store keeps of automations, under their names in byte order, each once.
#[derive(Drop)]
pub struct Stored {
    /// Which are on.
    pub switches: Many<(Word, bool)>,
    /// When they last triggered, of those that have.
    pub last: Many<(Word, Moment)>,
}
