ghost use Rattle.std.specs.Prelude.{◌≡◌};
ghost use Rattle.explorer.specs.Faults.{fault_of_run, fault_of_texts};
ghost use Rattle.explorer.specs.declared.fault.RunFault.TheVariants as run_fault;

use call_machine::PlainFault;
use command_texts::FirstFault;
use posix_terms::Limits;
use std::alloc::{AllocError, AllocFailed};
use thiserror::Error;

/// Why there was no run.
#[derive(Clone, Copy, Debug, PartialEq, Eq, Error)]
pub enum RunFault {
    /// This line of this script is bad.
    #[error("script {0}: bad line {1}")]
    BadLine(usize, usize),
    /// This script has too many lines, its delays among them.
    #[error("script {0}: too long")]
    TooLong(usize),
    /// Not 1 to [`Limits::THREADS`] scripts, or not one list of outcomes for each script.
    #[error("needs 1 to {} scripts, and as many lists of outcomes", Limits::THREADS)]
    Threads,
    /// The patience, the door cost or the version of the log is out of its range.
    #[error("patience and door cost are 1 to 1,000,000, and the version of the log is 1 or 2")]
    Settings,
    /// Out of memory.
    #[error("no memory")]
    Memory,
}

impl From<FirstFault> for RunFault {
    ghost from_gives = { λ fault e. e ≡ fault_of_texts fault };

    fn from(fault: FirstFault) -> RunFault {
        match fault {
            FirstFault::BadLine(script, line) => RunFault::BadLine(script, line),
            FirstFault::TooLong(script) => RunFault::TooLong(script),
            FirstFault::Memory => RunFault::Memory,
        }
    }
}

impl From<PlainFault> for RunFault {
    ghost from_gives = { λ fault e. e ≡ fault_of_run fault };

    fn from(fault: PlainFault) -> RunFault {
        match fault {
            PlainFault::Threads => RunFault::Threads,
            PlainFault::Settings => RunFault::Settings,
            PlainFault::Memory => RunFault::Memory,
        }
    }
}

impl From<AllocError> for RunFault {
    ghost from_gives = { λ _ e. e ≡ run_fault.Memory };

    fn from(_error: AllocError) -> RunFault {
        RunFault::Memory
    }
}
