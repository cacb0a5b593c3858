//! Copies and comparisons of ends.

use crate::record::EndCause;
use ha_value::Plain;
use std::alloc::{AllocError, Global};

impl Plain for EndCause {
    fn copy(&self, _alloc: Global) -> Result<EndCause, AllocError> {
        Ok(*self)
    }

    fn same(&self, other: &EndCause) -> bool {
        *self == *other
    }
}
