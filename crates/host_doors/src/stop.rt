ghost use Rattle.std.specs.Prelude.{◌≡◌};
ghost use Rattle.host_doors.specs.declared.stop.DoorStop.TheVariants as stop;

use std::alloc::AllocError;

/// Why a call of an outside gave no outcome.
#[derive(Clone, Copy, Debug, PartialEq, Eq, Hash)]
pub enum DoorStop {
    /// The outcomes that are known end before this one.
    EndOfLog,
    /// The outcome that is known here does not answer the request.
    Diverged,
    /// No memory. Nothing was done outside.
    Memory,
}

impl From<AllocError> for DoorStop {
    ghost from_gives = { λ _ s. s ≡ stop.Memory };

    fn from(_error: AllocError) -> DoorStop {
        DoorStop::Memory
    }
}
