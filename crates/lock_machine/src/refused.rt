ghost use Rattle.std.specs.Prelude.{◌≡◌};
ghost use Rattle.lock_machine.specs.declared.refused.LockRefused.TheVariants as refused;

use std::alloc::AllocError;

/// Why the machine refused an event.
#[derive(Clone, Copy)]
pub enum LockRefused {
    /// The thread is not at the phase of this event, or attempts a lock without the turn.
    WrongPhase,
    /// The thread's clock has no room for the event, or the thread had all the outcomes that it can have.
    ClockFull,
    Memory,
}

impl From<AllocError> for LockRefused {
    ghost from_gives = { λ _ e. e ≡ refused.Memory };

    fn from(_error: AllocError) -> LockRefused {
        LockRefused::Memory
    }
}

/// What came of an attempt to take a lock.
#[derive(Clone, Copy, Debug, PartialEq, Eq)]
pub enum Attempt {
    /// the thread has the lock
    Got,
    /// another thread had it, at a time that is not yet over; the attempt is made again
    Failed,
}
