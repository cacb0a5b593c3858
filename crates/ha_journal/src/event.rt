//! Events of an entry.

use ha_value::{EntityId, Many, Value, Word};

/// One event that an entry gives.
#[derive(Drop)]
pub struct BusEvent {
    pub kind: Word,
    /// Its data, whose keys are distinct.
    pub pairs: Many<(Word, Value)>,
    /// The timer whose event it is; none where it is that of an event command or of a step that makes an event.
    pub entity: Option<EntityId>,
}
