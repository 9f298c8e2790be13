ghost use Rattle.std.specs.Prelude.{◌≡◌};
ghost use Rattle.command_texts.specs.declared.first_fault.FirstFault.TheVariants as first_fault;

use std::alloc::{AllocError, AllocFailed};

// The first fault of scripts: the number of the script, and of its line.
#[derive(Clone, Copy, Debug, PartialEq, Eq)]
pub enum FirstFault {
    BadLine(usize, usize),
    TooLong(usize),
    Memory,
}

impl From<AllocError> for FirstFault {
    ghost from_gives = { λ _ e. e ≡ first_fault.Memory };

    fn from(_error: AllocError) -> FirstFault {
        FirstFault::Memory
    }
}

impl<T: Drop> From<AllocFailed<T>> for FirstFault {
    ghost from_gives = { λ _ e. e ≡ first_fault.Memory };

    fn from(_failed: AllocFailed<T>) -> FirstFault {
        FirstFault::Memory
    }
}
