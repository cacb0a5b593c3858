//! Copies and comparisons of helpers.
ghost use Rattle.std.specs.Prelude.{◌≡◌, ◌↔◌, IsTrue};

use crate::helper::{Helper, HelperKind};
use ha_value::Plain;
use std::alloc::{AllocError, Global};

/// Whether two pairs of numbers are the same.
fn same_two(left: (i64, i64), right: (i64, i64)) -> bool
    ensures { IsTrue result ↔ ((left.0 ≡ right.0) × (left.1 ≡ right.1)) }
{
    left.0 == right.0 && left.1 == right.1
}

impl Plain for HelperKind {
    fn copy(&self, _alloc: Global) -> Result<HelperKind, AllocError> {
        Ok(*self)
    }

    fn same(&self, other: &HelperKind) -> bool {
        match self {
            HelperKind::Flag { initial } => match other {
                HelperKind::Flag { initial: other } => *initial == *other,
                _ => false,
            },
            HelperKind::Counter {
                initial,
                step,
                least,
                greatest,
            } => match other {
                HelperKind::Counter {
                    initial: other_initial,
                    step: other_step,
                    least: other_least,
                    greatest: other_greatest,
                } => {
                    same_two((*initial, *step), (*other_initial, *other_step))
                        && same_two((*least, *greatest), (*other_least, *other_greatest))
                }
                _ => false,
            },
            HelperKind::Timer { span } => match other {
                HelperKind::Timer { span: other } => *span == *other,
                _ => false,
            },
        }
    }
}

impl Plain for Helper {
    fn copy(&self, alloc: Global) -> Result<Helper, AllocError> {
        Ok(Helper {
            entity: self.entity.copy(alloc)?,
            kind: self.kind,
        })
    }

    fn same(&self, other: &Helper) -> bool {
        self.entity.same(&other.entity) && self.kind.same(&other.kind)
    }
}
