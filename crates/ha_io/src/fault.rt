// Why a call on the outside gave no answer.
ghost use Rattle.std.specs.Prelude.{◌≡◌};
ghost use Rattle.ha_io.specs.declared.fault.IoFault.TheVariants.{Memory};

use std::alloc::{AllocError, AllocFailed};
use thiserror::Error;

/// A fault of the outside.
#[derive(Clone, Copy, Debug, PartialEq, Eq)]
pub struct Failed;

/// Why a call that may allocate gave no answer.
#[derive(Clone, Copy, Debug, PartialEq, Eq, Error)]
pub enum IoFault {
    /// A fault of the outside.
    #[error("the outside failed")]
    Failed,
    /// Memory ran out. The thing that was called is as before.
    #[error("out of memory")]
    Memory,
}

impl From<AllocError> for IoFault {
    ghost from_gives = { λ _ fault. fault ≡ Memory };

    fn from(_: AllocError) -> IoFault {
        IoFault::Memory
    }
}

impl<T: Drop> From<AllocFailed<T>> for IoFault {
    ghost from_gives = { λ _ fault. fault ≡ Memory };

    fn from(_: AllocFailed<T>) -> IoFault {
        IoFault::Memory
    }
}
