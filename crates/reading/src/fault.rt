//! Why a reading stops.

ghost use Rattle.std.specs.Prelude.{◌≡◌};
ghost use Rattle.reading.specs.declared.fault.Stop.TheVariants.{Memory};

use std::alloc::{AllocError, AllocFailed};

/// The first fault of a text: how many tokens are left from its place on, and what it is.
#[derive(Clone, Copy, Debug, Drop, PartialEq, Eq)]
pub struct Bad<C> {
    pub left: usize,
    pub code: C,
}

/// A fault, or no memory.
#[derive(Debug, Drop)]
pub enum Stop<F> {
    Memory,
    Fault(F),
}

impl<F: Drop> From<AllocError> for Stop<F> {
    ghost from_gives = { λ _ e. e ≡ Memory };

    fn from(_e: AllocError) -> Stop<F> {
        Stop::Memory
    }
}

impl<F: Drop, T: Drop> From<AllocFailed<T>> for Stop<F> {
    ghost from_gives = { λ _ e. e ≡ Memory };

    fn from(_e: AllocFailed<T>) -> Stop<F> {
        Stop::Memory
    }
}
