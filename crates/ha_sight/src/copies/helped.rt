//! Copies and comparisons of changes of helpers.
ghost use Rattle.std.specs.Prelude.{◌≡◌, ◌↔◌, IsTrue};

use crate::helped::HelperChange;
use ha_clock::Span;
use ha_value::Plain;
use std::alloc::{AllocError, Global};

/// Whether two spans that may be missing are the same.
fn same_span(left: Option<Span>, right: Option<Span>) -> bool
    ensures { IsTrue result ↔ (left ≡ right) }
{
    match left {
        None => matches!(right, None),
        Some(a) => match right {
            Some(b) => a == b,
            None => false,
        },
    }
}

impl Plain for HelperChange {
    fn copy(&self, alloc: Global) -> Result<HelperChange, AllocError> {
        Ok(HelperChange {
            entity: self.entity.copy(alloc)?,
            text: self.text.copy(alloc)?,
            span: self.span,
            event: self.event.copy(alloc)?,
        })
    }

    fn same(&self, other: &HelperChange) -> bool {
        self.entity.same(&other.entity)
            && self.text.same(&other.text)
            && same_span(self.span, other.span)
            && self.event.same(&other.event)
    }
}
