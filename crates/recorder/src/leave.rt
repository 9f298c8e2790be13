ghost use Rattle.std.specs.Prelude.{◌≡◌, false, Some};
ghost use Rattle.machine.specs.Kept.{is_sink, is_strayed};
ghost use Rattle.recorder.specs.Leaving.{cause_of, is_of_outside, left_on};
ghost use Rattle.recorder.specs.declared.leave.Leave.TheVariants as why;

use machine::{Refused, Stop};
use std::alloc::{AllocError, AllocFailed};

// Why a worker leaves before its actor's end.
#[derive(Clone, Copy, Debug, PartialEq, Eq)]
pub enum Leave {
    // the machine is stopped already
    Stopped,
    Memory,
    ClockFull,
    // this thread's outside has no more outcomes
    EndOfLog(usize),
    // an outcome of this thread, with this number, does not answer what it asked
    Diverged(usize, u32),
}

impl Leave {
    // What a machine is stopped for, if it is not stopped already.
    pub fn cause(self) -> Stop
        ensures cause { result ≡ cause_of self }
        ensures sink { is_sink (Some result) ≡ false }
        ensures strayed { is_strayed (Some result) ≡ false }
    {
        match self {
            Leave::Stopped | Leave::Memory => Stop::Memory,
            Leave::ClockFull => Stop::ClockFull,
            Leave::EndOfLog(thread) => Stop::EndOfLog(thread),
            Leave::Diverged(thread, number) => Stop::Diverged(thread, number),
        }
    }
}

impl From<Refused> for Leave {
    ghost from_gives = { λ refused leave.
        (leave ≡ left_on refused) × (is_of_outside leave ≡ false) };

    fn from(refused: Refused) -> Leave {
        match refused {
            Refused::Stopped(_) | Refused::Sink => Leave::Stopped,
            Refused::ClockFull => Leave::ClockFull,
            // No event is made here at a phase that it is not for, so this one does not come: a run
            // that met it would stop.
            Refused::WrongPhase => Leave::Memory,
            Refused::Memory => Leave::Memory,
        }
    }
}

impl From<AllocError> for Leave {
    ghost from_gives = { λ _ leave. leave ≡ why.Memory };

    fn from(_error: AllocError) -> Leave {
        Leave::Memory
    }
}

impl<T: Drop> From<AllocFailed<T>> for Leave {
    ghost from_gives = { λ _ leave. leave ≡ why.Memory };

    fn from(_failed: AllocFailed<T>) -> Leave {
        Leave::Memory
    }
}

impl From<thread_scripts::Memory> for Leave {
    ghost from_gives = { λ _ leave. leave ≡ why.Memory };

    fn from(_memory: thread_scripts::Memory) -> Leave {
        Leave::Memory
    }
}
