ghost use Rattle.std.specs.Prelude.{◌≡◌};
ghost use Rattle.thread_scripts.specs.declared.fault.ScriptFault.TheVariants as script_fault;
ghost use Rattle.thread_scripts.specs.declared.fault.LineFault.TheVariants as line_fault;

use std::alloc::{AllocError, AllocFailed};
use thiserror::Error;

/// Why a text is not a script, or why it could not be read.
#[derive(Clone, Copy, Debug, PartialEq, Eq, Error)]
pub enum ScriptFault {
    /// The first bad line, counted from 1.
    #[error("bad line {0}")]
    BadLine(usize),
    /// The text has more than 1,000 lines.
    #[error("too long")]
    TooLong,
    #[error("no memory")]
    Memory,
}

impl From<AllocError> for ScriptFault {
    ghost from_gives = { λ _ e. e ≡ script_fault.Memory };

    fn from(_error: AllocError) -> ScriptFault {
        ScriptFault::Memory
    }
}

impl<T: Drop> From<AllocFailed<T>> for ScriptFault {
    ghost from_gives = { λ _ e. e ≡ script_fault.Memory };

    fn from(_failed: AllocFailed<T>) -> ScriptFault {
        ScriptFault::Memory
    }
}

/// There was no memory for a thread's next step.
#[derive(Clone, Copy, Debug, PartialEq, Eq, Error)]
#[error("no memory")]
pub struct Memory;

impl From<AllocError> for Memory {
    fn from(_error: AllocError) -> Memory {
        Memory
    }
}

/// Why one line could not be read.
#[derive(Clone, Copy)]
pub(crate) enum LineFault {
    Bad,
    Memory,
}

impl From<AllocError> for LineFault {
    ghost from_gives = { λ _ e. e ≡ line_fault.Memory };

    fn from(_error: AllocError) -> LineFault {
        LineFault::Memory
    }
}

impl<T: Drop> From<AllocFailed<T>> for LineFault {
    ghost from_gives = { λ _ e. e ≡ line_fault.Memory };

    fn from(_failed: AllocFailed<T>) -> LineFault {
        LineFault::Memory
    }
}
