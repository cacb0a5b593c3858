//! Copies and comparisons of states, their changes, ends of waits and progress.

use crate::state::{Change, StateObject};
use crate::steps::Progress;
use crate::waiting::WaitEnd;
use ha_value::{Plain, copy_pairs};
use std::alloc::{AllocError, Global};

impl Plain for StateObject {
    fn copy(&self, alloc: Global) -> Result<StateObject, AllocError> {
        Ok(StateObject {
            text: self.text.copy(alloc)?,
            attributes: copy_pairs(alloc, self.attributes.as_slice())?,
            changed: self.changed,
            updated: self.updated,
        })
    }

    fn same(&self, other: &StateObject) -> bool {
        self.text.same(&other.text)
            && self.attributes.same(&other.attributes)
            && self.changed == other.changed
            && self.updated == other.updated
    }
}

impl Plain for WaitEnd {
    fn copy(&self, alloc: Global) -> Result<WaitEnd, AllocError> {
        Ok(WaitEnd {
            place: self.place,
            done: self.done,
            remaining: self.remaining,
            trigger: self.trigger.copy(alloc)?,
        })
    }

    fn same(&self, other: &WaitEnd) -> bool {
        self.place == other.place
            && self.done == other.done
            && self.remaining.same(&other.remaining)
            && self.trigger.same(&other.trigger)
    }
}

impl Plain for Change {
    fn copy(&self, _alloc: Global) -> Result<Change, AllocError> {
        Ok(*self)
    }

    fn same(&self, other: &Change) -> bool {
        *self == *other
    }
}

impl Plain for Progress {
    fn copy(&self, _alloc: Global) -> Result<Progress, AllocError> {
        Ok(*self)
    }

    fn same(&self, other: &Progress) -> bool {
        *self == *other
    }
}
