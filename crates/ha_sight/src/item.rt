//! What a step of a run did, and where it stands.

use crate::helped::HelperChange;
use ha_value::{EntityId, Many, Value, Word};

/// What a step of a run did.
#[derive(Drop)]
pub enum Item {
    Nothing,
    /// Called a service; the keys of its data are distinct.
    Call {
        service: Word,
        target: Many<EntityId>,
        fields: Many<(Word, Value)>,
    },
    /// Made an event.
    Fired {
        kind: Word,
        pairs: Many<(Word, Value)>,
    },
    /// Per target: the automation, its new switch, and whether its runs are ended.
    Switched(Many<(u32, bool, bool)>),
    /// Asked these automations for a run; with `skip`, whatever their conditions say.
    Triggered {
        automations: Many<u32>,
        skip: bool,
    },
    /// Failed, by the code's number: 1 for F1.
    Failed(u8),
    /// Asked these scripts, by their units' numbers, for a run with these variables; with `waits`, the step's own run waits for its end.
    Started {
        scripts: Many<u32>,
        fields: Many<(Word, Value)>,
        waits: bool,
    },
    /// Ended all runs of these scripts, by their units' numbers.
    Halted(Many<u32>),
    /// Changed these helpers, each once, in the order of the call's targets.
    Helped(Many<HelperChange>),
}

/// Where a step stands among a script's parallel blocks: the index of the list that it is in, from the outer block to the inner.
pub type Branch = Many<u32>;
