//! Copies and comparisons of triggers.

use crate::config::{Match, Trigger, TriggerRule, Unit};
use crate::copies::times::same_hold;
use ha_value::{Plain, copy_pairs};
use std::alloc::{AllocError, Global};

impl Plain for Match {
    fn copy(&self, alloc: Global) -> Result<Match, AllocError> {
        match self {
            Match::Absent => Ok(Match::Absent),
            Match::Any => Ok(Match::Any),
            Match::OneOf(texts) => Ok(Match::OneOf(texts.copy(alloc)?)),
            Match::NoneOf(texts) => Ok(Match::NoneOf(texts.copy(alloc)?)),
        }
    }

    fn same(&self, other: &Match) -> bool {
        match self {
            Match::Absent => matches!(other, Match::Absent),
            Match::Any => matches!(other, Match::Any),
            Match::OneOf(a) => match other {
                Match::OneOf(b) => a.same(b),
                _ => false,
            },
            Match::NoneOf(a) => match other {
                Match::NoneOf(b) => a.same(b),
                _ => false,
            },
        }
    }
}

impl Plain for Unit {
    fn copy(&self, _alloc: Global) -> Result<Unit, AllocError> {
        Ok(*self)
    }

    fn same(&self, other: &Unit) -> bool {
        *self == *other
    }
}

impl Plain for TriggerRule {
    fn copy(&self, alloc: Global) -> Result<TriggerRule, AllocError> {
        match self {
            TriggerRule::State {
                entities,
                attribute,
                from,
                to,
            } => Ok(TriggerRule::State {
                entities: entities.copy(alloc)?,
                attribute: attribute.copy(alloc)?,
                from: from.copy(alloc)?,
                to: to.copy(alloc)?,
            }),
            TriggerRule::Numeric {
                entities,
                attribute,
                above,
                below,
            } => Ok(TriggerRule::Numeric {
                entities: entities.copy(alloc)?,
                attribute: attribute.copy(alloc)?,
                above: *above,
                below: *below,
            }),
            TriggerRule::Event { kinds, pairs } => Ok(TriggerRule::Event {
                kinds: kinds.copy(alloc)?,
                pairs: copy_pairs(alloc, pairs.as_slice())?,
            }),
            TriggerRule::Time(seconds) => Ok(TriggerRule::Time(seconds.copy(alloc)?)),
            TriggerRule::Pattern {
                hours,
                minutes,
                seconds,
            } => Ok(TriggerRule::Pattern {
                hours: *hours,
                minutes: *minutes,
                seconds: *seconds,
            }),
            TriggerRule::Template(template) => Ok(TriggerRule::Template(template.copy(alloc)?)),
            TriggerRule::Start => Ok(TriggerRule::Start),
        }
    }

    fn same(&self, other: &TriggerRule) -> bool {
        match self {
            TriggerRule::State {
                entities,
                attribute,
                from,
                to,
            } => match other {
                TriggerRule::State {
                    entities: other_entities,
                    attribute: other_attribute,
                    from: other_from,
                    to: other_to,
                } => {
                    entities.same(other_entities)
                        && attribute.same(other_attribute)
                        && from.same(other_from)
                        && to.same(other_to)
                }
                _ => false,
            },
            TriggerRule::Numeric {
                entities,
                attribute,
                above,
                below,
            } => match other {
                TriggerRule::Numeric {
                    entities: other_entities,
                    attribute: other_attribute,
                    above: other_above,
                    below: other_below,
                } => {
                    entities.same(other_entities)
                        && attribute.same(other_attribute)
                        && above.same(other_above)
                        && below.same(other_below)
                }
                _ => false,
            },
            TriggerRule::Event { kinds, pairs } => match other {
                TriggerRule::Event {
                    kinds: other_kinds,
                    pairs: other_pairs,
                } => kinds.same(other_kinds) && pairs.same(other_pairs),
                _ => false,
            },
            TriggerRule::Time(a) => match other {
                TriggerRule::Time(b) => a.same(b),
                _ => false,
            },
            TriggerRule::Pattern {
                hours,
                minutes,
                seconds,
            } => match other {
                TriggerRule::Pattern {
                    hours: other_hours,
                    minutes: other_minutes,
                    seconds: other_seconds,
                } => {
                    hours.same(other_hours)
                        && minutes.same(other_minutes)
                        && seconds.same(other_seconds)
                }
                _ => false,
            },
            TriggerRule::Template(a) => match other {
                TriggerRule::Template(b) => a.same(b),
                _ => false,
            },
            TriggerRule::Start => matches!(other, TriggerRule::Start),
        }
    }
}

impl Plain for Trigger {
    fn copy(&self, alloc: Global) -> Result<Trigger, AllocError> {
        Ok(Trigger {
            id: self.id.copy(alloc)?,
            idx: self.idx,
            rule: self.rule.copy(alloc)?,
            hold: self.hold,
        })
    }

    fn same(&self, other: &Trigger) -> bool {
        self.id.same(&other.id)
            && self.idx == other.idx
            && self.rule.same(&other.rule)
            && same_hold(self.hold, other.hold)
    }
}
