//! Copies and comparisons of items.

use crate::item::Item;
use ha_value::{Plain, copy_pairs};
use std::alloc::{AllocError, Global};

impl Plain for Item {
    fn copy(&self, alloc: Global) -> Result<Item, AllocError> {
        match self {
            Item::Nothing => Ok(Item::Nothing),
            Item::Call {
                service,
                target,
                fields,
            } => Ok(Item::Call {
                service: service.copy(alloc)?,
                target: target.copy(alloc)?,
                fields: fields.copy(alloc)?,
            }),
            Item::Fired { kind, pairs } => Ok(Item::Fired {
                kind: kind.copy(alloc)?,
                pairs: copy_pairs(alloc, pairs.as_slice())?,
            }),
            Item::Switched(targets) => Ok(Item::Switched(targets.copy(alloc)?)),
            Item::Triggered { automations, skip } => Ok(Item::Triggered {
                automations: automations.copy(alloc)?,
                skip: *skip,
            }),
            Item::Failed(code) => Ok(Item::Failed(*code)),
            Item::Started {
                scripts,
                fields,
                waits,
            } => Ok(Item::Started {
                scripts: scripts.copy(alloc)?,
                fields: copy_pairs(alloc, fields.as_slice())?,
                waits: *waits,
            }),
            Item::Halted(scripts) => Ok(Item::Halted(scripts.copy(alloc)?)),
            Item::Helped(changes) => Ok(Item::Helped(changes.copy(alloc)?)),
        }
    }

    fn same(&self, other: &Item) -> bool {
        match self {
            Item::Nothing => matches!(other, Item::Nothing),
            Item::Call {
                service,
                target,
                fields,
            } => match other {
                Item::Call {
                    service: other_service,
                    target: other_target,
                    fields: other_fields,
                } => {
                    service.same(other_service)
                        && target.same(other_target)
                        && fields.same(other_fields)
                }
                _ => false,
            },
            Item::Fired { kind, pairs } => match other {
                Item::Fired {
                    kind: other_kind,
                    pairs: other_pairs,
                } => kind.same(other_kind) && pairs.same(other_pairs),
                _ => false,
            },
            Item::Switched(a) => match other {
                Item::Switched(b) => a.same(b),
                _ => false,
            },
            Item::Triggered { automations, skip } => match other {
                Item::Triggered {
                    automations: other_automations,
                    skip: other_skip,
                } => automations.same(other_automations) && *skip == *other_skip,
                _ => false,
            },
            Item::Failed(a) => match other {
                Item::Failed(b) => *a == *b,
                _ => false,
            },
            Item::Started {
                scripts,
                fields,
                waits,
            } => match other {
                Item::Started {
                    scripts: other_scripts,
                    fields: other_fields,
                    waits: other_waits,
                } => {
                    scripts.same(other_scripts)
                        && fields.same(other_fields)
                        && *waits == *other_waits
                }
                _ => false,
            },
            Item::Halted(a) => match other {
                Item::Halted(b) => a.same(b),
                _ => false,
            },
            Item::Helped(a) => match other {
                Item::Helped(b) => a.same(b),
                _ => false,
            },
        }
    }
}
