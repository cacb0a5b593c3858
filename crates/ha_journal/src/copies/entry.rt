//! Copies and comparisons of entries.

use crate::entry::Entry;
use ha_value::Plain;
use std::alloc::{AllocError, Global};

impl Plain for Entry {
    fn copy(&self, alloc: Global) -> Result<Entry, AllocError> {
        match self {
            Entry::Boot {
                text,
                config,
                stored,
                start,
                zone,
                carry,
            } => Ok(Entry::Boot {
                text: text.copy(alloc)?,
                config: config.copy(alloc)?,
                stored: stored.copy(alloc)?,
                start: *start,
                zone: zone.copy(alloc)?,
                carry: carry.copy(alloc)?,
            }),
            Entry::Line {
                source,
                number,
                cmd,
            } => Ok(Entry::Line {
                source: *source,
                number: *number,
                cmd: cmd.copy(alloc)?,
            }),
            Entry::Step {
                worker,
                serial,
                branch,
                item,
            } => Ok(Entry::Step {
                worker: *worker,
                serial: *serial,
                branch: branch.copy(alloc)?,
                item: item.copy(alloc)?,
            }),
            Entry::Again {
                number,
                start,
                stored,
                carry,
            } => Ok(Entry::Again {
                number: *number,
                start: *start,
                stored: stored.copy(alloc)?,
                carry: carry.copy(alloc)?,
            }),
        }
    }

    fn same(&self, other: &Entry) -> bool {
        match self {
            Entry::Boot {
                text,
                config,
                stored,
                start,
                zone,
                carry,
            } => match other {
                Entry::Boot {
                    text: other_text,
                    config: other_config,
                    stored: other_stored,
                    start: other_start,
                    zone: other_zone,
                    carry: other_carry,
                } => {
                    text.same(other_text)
                        && config.same(other_config)
                        && stored.same(other_stored)
                        && *start == *other_start
                        && zone.same(other_zone)
                        && carry.same(other_carry)
                }
                _ => false,
            },
            Entry::Line {
                source,
                number,
                cmd,
            } => match other {
                Entry::Line {
                    source: other_source,
                    number: other_number,
                    cmd: other_cmd,
                } => *source == *other_source && *number == *other_number && cmd.same(other_cmd),
                _ => false,
            },
            Entry::Step {
                worker,
                serial,
                branch,
                item,
            } => match other {
                Entry::Step {
                    worker: other_worker,
                    serial: other_serial,
                    branch: other_branch,
                    item: other_item,
                } => {
                    *worker == *other_worker
                        && *serial == *other_serial
                        && branch.same(other_branch)
                        && item.same(other_item)
                }
                _ => false,
            },
            Entry::Again {
                number,
                start,
                stored,
                carry,
            } => match other {
                Entry::Again {
                    number: other_number,
                    start: other_start,
                    stored: other_stored,
                    carry: other_carry,
                } => {
                    *number == *other_number
                        && *start == *other_start
                        && stored.same(other_stored)
                        && carry.same(other_carry)
                }
                _ => false,
            },
        }
    }
}
