ghost use Rattle.std.specs.Prelude.{◌≡◌};
ghost use Rattle.minimiser.specs.declared.fault.MinimiseFault.TheVariants as minimise_fault;

use std::alloc::AllocError;
use thiserror::Error;

/// Why scripts were not minimised.
#[derive(Clone, Copy, Debug, PartialEq, Eq, Error)]
pub enum MinimiseFault {
    /// These scripts do not fail so.
    #[error("the scripts do not fail so")]
    NotFailing,
    /// Out of memory.
    #[error("no memory")]
    Memory,
}

impl From<AllocError> for MinimiseFault {
    ghost from_gives = { λ _ e. e ≡ minimise_fault.Memory };

    fn from(_error: AllocError) -> MinimiseFault {
        MinimiseFault::Memory
    }
}
