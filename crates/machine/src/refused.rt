ghost use Rattle.std.specs.Prelude.{◌≡◌};
ghost use Rattle.machine.specs.Events.{refusal_of};

use crate::stop::Stop;
use lock_machine::LockRefused;
use posix_terms::Outcome;
use thiserror::Error;

/// Why the machine refused an event.
#[derive(Clone, Copy, Debug, PartialEq, Eq, Error)]
pub enum Refused {
    /// The machine is stopped, for this cause.
    #[error("the machine is stopped")]
    Stopped(Stop),
    /// The thread is not at the phase of this event, or attempts a lock without the turn.
    #[error("the thread has no such event now")]
    WrongPhase,
    /// The thread's clock has no room for the event, or the thread had all the outcomes that it can have.
    #[error("the thread's clock or its count of outcomes is full")]
    ClockFull,
    /// There was no memory for what the event would have to keep. Nothing has changed, and it can be made again.
    #[error("no memory")]
    Memory,
    /// The log's writer failed. The machine is stopped from now on.
    #[error("the log's writer failed")]
    Sink,
}

// A refusal of the lock machine.
pub fn refusal_of(refused: LockRefused) -> Refused
    ensures { result ≡ refusal_of refused }
{
    match refused {
        LockRefused::WrongPhase => Refused::WrongPhase,
        LockRefused::ClockFull => Refused::ClockFull,
        LockRefused::Memory => Refused::Memory,
    }
}

/// An outcome that was not recorded, with what was handed in beside it.
#[derive(Drop)]
pub struct NotRecorded<D> {
    /// why
    pub cause: Refused,
    /// what came
    pub outcome: Outcome,
    /// the door that went out
    pub back: Option<D>,
    /// the door that was opened
    pub opened: Option<D>,
}
