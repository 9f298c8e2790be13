ghost use Rattle.std.specs.Prelude.{◌≡◌};
ghost use Rattle.replayer.specs.Replay.{told_of};
ghost use Rattle.replayer.specs.declared.fault.ReplayFault.TheVariants as replay_fault;

use input_log::LogFault;
use posix_terms::Transcripts;
use std::alloc::{AllocError, AllocFailed};
use thiserror::Error;

/// Why a replay did not come to its end. The last three have what each thread saw so far.
#[derive(Debug, Drop, Error)]
pub enum ReplayFault {
    /// The bytes are not a log, and none stands before the place where they are torn.
    #[error("log: {0}")]
    Log(LogFault),
    /// The log is of another number of threads than there are scripts.
    #[error("the log has another number of threads")]
    Threads,
    #[error("no memory")]
    Memory,
    /// This thread, which has the turn, asked for an outcome that the log does not have.
    #[error("end of log {0}")]
    EndOfLog(usize, Transcripts),
    /// The record of this thread with this number does not answer what was asked, or nothing asked for it.
    #[error("diverged {0} {1}")]
    Diverged(usize, u32, Transcripts),
    /// A thread's logical clock would have passed its limit.
    #[error("clock full")]
    ClockFull(Transcripts),
}

impl From<AllocError> for ReplayFault {
    ghost from_gives = { λ _ e. e ≡ replay_fault.Memory };

    fn from(_error: AllocError) -> ReplayFault {
        ReplayFault::Memory
    }
}

impl<T: Drop> From<AllocFailed<T>> for ReplayFault {
    ghost from_gives = { λ _ e. e ≡ replay_fault.Memory };

    fn from(_failed: AllocFailed<T>) -> ReplayFault {
        ReplayFault::Memory
    }
}

impl From<LogFault> for ReplayFault {
    ghost from_gives = { λ fault e. e ≡ told_of fault };

    fn from(fault: LogFault) -> ReplayFault {
        match fault {
            LogFault::Memory => ReplayFault::Memory,
            fault => ReplayFault::Log(fault),
        }
    }
}
