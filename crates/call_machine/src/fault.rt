ghost use Rattle.std.specs.Prelude.{◌≡◌};
ghost use Rattle.call_machine.specs.declared.fault.PlainFault.TheVariants as plain_fault;

use posix_terms::Limits;
use std::alloc::{AllocError, AllocFailed};
use thiserror::Error;

/// Why there was no run.
#[derive(Clone, Copy, Debug, PartialEq, Eq, Error)]
pub enum PlainFault {
    /// Not 1 to [`Limits::THREADS`] scripts, or not one list of outcomes for each script.
    #[error("needs 1 to {} scripts, and as many lists of outcomes", Limits::THREADS)]
    Threads,
    /// The patience or the door cost is not 1 to 1,000,000.
    #[error("patience and door cost must be 1 to 1,000,000")]
    Settings,
    #[error("no memory")]
    Memory,
}

impl From<AllocError> for PlainFault {
    ghost from_gives = { λ _ e. e ≡ plain_fault.Memory };

    fn from(_error: AllocError) -> PlainFault {
        PlainFault::Memory
    }
}

impl<T: Drop> From<AllocFailed<T>> for PlainFault {
    ghost from_gives = { λ _ e. e ≡ plain_fault.Memory };

    fn from(_failed: AllocFailed<T>) -> PlainFault {
        PlainFault::Memory
    }
}

impl From<thread_scripts::Memory> for PlainFault {
    ghost from_gives = { λ _ e. e ≡ plain_fault.Memory };

    fn from(_memory: thread_scripts::Memory) -> PlainFault {
        PlainFault::Memory
    }
}
