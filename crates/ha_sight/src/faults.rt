//! Why a template has no answer.

use thiserror::Error;

/// Why a template has no text or value.
#[derive(Clone, Copy, Debug, PartialEq, Eq, Drop, Error)]
pub enum TplFault {
    /// The meaning of the template is a fault.
    #[error("template fault")]
    Fault,
    /// Memory ran out.
    #[error("no memory")]
    Memory,
}
