ghost use Rattle.std.specs.Prelude.{◌≡◌};
ghost use Rattle.expectations.specs.declared.fault.ExpectationFault.TheVariants as fault;

use std::alloc::{AllocError, AllocFailed};
use thiserror::Error;

/// What is wrong with an expectation.
#[derive(Clone, Copy, Debug, PartialEq, Eq, Error)]
pub enum Reason {
    /// Its words are not those of an expectation.
    #[error("not the words of a reply")]
    Words,
    /// There is no line above but empty ones and comments.
    #[error("no call above")]
    NothingAbove,
    /// The nearest line above that is neither empty nor a comment is not a call's.
    #[error("the line above is not a call")]
    NotACall,
}

/// Why the expectations of a text were not read.
#[derive(Clone, Copy, Debug, PartialEq, Eq, Error)]
pub enum ExpectationFault {
    /// The first bad expectation: the number of its line, from 1, and what is wrong with it.
    #[error("bad expectation on line {line}: {reason}")]
    Bad { line: usize, reason: Reason },
    #[error("no memory")]
    Memory,
}

impl From<AllocError> for ExpectationFault {
    ghost from_gives = { λ _ e. e ≡ fault.Memory };

    fn from(_error: AllocError) -> ExpectationFault {
        ExpectationFault::Memory
    }
}

impl<T: Drop> From<AllocFailed<T>> for ExpectationFault {
    ghost from_gives = { λ _ e. e ≡ fault.Memory };

    fn from(_failed: AllocFailed<T>) -> ExpectationFault {
        ExpectationFault::Memory
    }
}
