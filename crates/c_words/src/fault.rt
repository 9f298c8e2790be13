ghost use Rattle.std.specs.Prelude.{◌≡◌};
ghost use Rattle.c_words.specs.Faults.{code_of};
ghost use Rattle.c_words.specs.declared.fault.LibraryFault.TheVariants as fault;

use std::alloc::{AllocError, AllocFailed};

/// Why a call of the library was refused.
#[derive(Clone, Copy)]
pub enum LibraryFault {
    /// Nothing is in the handle: it was not begun, or it was freed.
    NoSession,
    /// There is no thread of this number.
    NoThread,
    /// The run is stopped.
    Stopped,
    /// The thread has no such event now.
    WrongPhase,
    /// The thread's clock, or its count of outcomes, is full.
    ClockFull,
    /// There was no memory.
    NoMemory,
    /// The log has no room for what came. The run is stopped from now on.
    LogFull,
    /// The outcome does not answer what was asked.
    NoAnswer,
    /// The buffer is too small.
    NoRoom,
    /// There is no such call, or an operand has a number that means nothing.
    NotACall,
    /// The settings are not in their ranges.
    BadSettings,
    /// The bytes are not a log.
    NotALog,
    /// The log has no more outcomes of this thread.
    EndOfLog,
    /// The next outcome of the log does not answer what the thread asked.
    Diverged,
    /// The run is over.
    Over,
}

impl LibraryFault {
    /// Its number, as C knows it.
    pub fn code(self) -> u32
        ensures { result ≡ code_of self }
    {
        match self {
            LibraryFault::NoSession => 3,
            LibraryFault::NoThread => 4,
            LibraryFault::Stopped => 5,
            LibraryFault::WrongPhase => 6,
            LibraryFault::ClockFull => 7,
            LibraryFault::NoMemory => 8,
            LibraryFault::LogFull => 9,
            LibraryFault::NoAnswer => 10,
            LibraryFault::NoRoom => 11,
            LibraryFault::NotACall => 12,
            LibraryFault::BadSettings => 13,
            LibraryFault::NotALog => 14,
            LibraryFault::EndOfLog => 15,
            LibraryFault::Diverged => 16,
            LibraryFault::Over => 17,
        }
    }
}

impl From<AllocError> for LibraryFault {
    ghost from_gives = { λ _ f. f ≡ fault.NoMemory };

    fn from(_error: AllocError) -> LibraryFault {
        LibraryFault::NoMemory
    }
}

impl<T: Drop> From<AllocFailed<T>> for LibraryFault {
    ghost from_gives = { λ _ f. f ≡ fault.NoMemory };

    fn from(_failed: AllocFailed<T>) -> LibraryFault {
        LibraryFault::NoMemory
    }
}
