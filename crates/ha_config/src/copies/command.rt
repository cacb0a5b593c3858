//! Copies and comparisons of commands.

use crate::command::Cmd;
use ha_value::{Plain, copy_pairs};
use std::alloc::{AllocError, Global};

impl Plain for Cmd {
    fn copy(&self, alloc: Global) -> Result<Cmd, AllocError> {
        match self {
            Cmd::Report {
                entity,
                text,
                attributes,
            } => Ok(Cmd::Report {
                entity: entity.copy(alloc)?,
                text: text.copy(alloc)?,
                attributes: copy_pairs(alloc, attributes.as_slice())?,
            }),
            Cmd::Gone { entity } => Ok(Cmd::Gone {
                entity: entity.copy(alloc)?,
            }),
            Cmd::Event { kind, pairs } => Ok(Cmd::Event {
                kind: kind.copy(alloc)?,
                pairs: copy_pairs(alloc, pairs.as_slice())?,
            }),
            Cmd::Moment(at) => Ok(Cmd::Moment(*at)),
            Cmd::Switch { name, on, stop } => Ok(Cmd::Switch {
                name: name.copy(alloc)?,
                on: *on,
                stop: *stop,
            }),
            Cmd::Trigger { name, skip } => Ok(Cmd::Trigger {
                name: name.copy(alloc)?,
                skip: *skip,
            }),
            Cmd::Restart => Ok(Cmd::Restart),
            Cmd::Reload { text, config } => Ok(Cmd::Reload {
                text: text.copy(alloc)?,
                config: config.copy(alloc)?,
            }),
            Cmd::Refused(code) => Ok(Cmd::Refused(*code)),
            Cmd::Lost => Ok(Cmd::Lost),
            Cmd::TooLong => Ok(Cmd::TooLong),
        }
    }

    fn same(&self, other: &Cmd) -> bool {
        match self {
            Cmd::Report {
                entity,
                text,
                attributes,
            } => match other {
                Cmd::Report {
                    entity: other_entity,
                    text: other_text,
                    attributes: other_attributes,
                } => {
                    entity.same(other_entity)
                        && text.same(other_text)
                        && attributes.same(other_attributes)
                }
                _ => false,
            },
            Cmd::Gone { entity } => match other {
                Cmd::Gone {
                    entity: other_entity,
                } => entity.same(other_entity),
                _ => false,
            },
            Cmd::Event { kind, pairs } => match other {
                Cmd::Event {
                    kind: other_kind,
                    pairs: other_pairs,
                } => kind.same(other_kind) && pairs.same(other_pairs),
                _ => false,
            },
            Cmd::Moment(a) => match other {
                Cmd::Moment(b) => *a == *b,
                _ => false,
            },
            Cmd::Switch { name, on, stop } => match other {
                Cmd::Switch {
                    name: other_name,
                    on: other_on,
                    stop: other_stop,
                } => name.same(other_name) && *on == *other_on && *stop == *other_stop,
                _ => false,
            },
            Cmd::Trigger { name, skip } => match other {
                Cmd::Trigger {
                    name: other_name,
                    skip: other_skip,
                } => name.same(other_name) && *skip == *other_skip,
                _ => false,
            },
            Cmd::Restart => matches!(other, Cmd::Restart),
            Cmd::Reload { text, config } => match other {
                Cmd::Reload {
                    text: other_text,
                    config: other_config,
                } => text.same(other_text) && config.same(other_config),
                _ => false,
            },
            Cmd::Refused(a) => match other {
                Cmd::Refused(b) => *a == *b,
                _ => false,
            },
            Cmd::Lost => matches!(other, Cmd::Lost),
            Cmd::TooLong => matches!(other, Cmd::TooLong),
        }
    }
}
