/// Why a run came to its end before all threads had ended.
#[derive(Clone, Copy, Debug, PartialEq, Eq)]
pub enum Stop {
    /// There was no memory.
    Memory,
    /// The log's writer failed.
    Sink,
    /// A thread's logical clock would have passed its limit, or a thread had as many outcomes as one may have.
    ClockFull,
    /// What the threads noted is not what the history says.
    Strayed,
    /// This thread asked for an outcome that is not there.
    EndOfLog(usize),
    /// An outcome of this thread, with this number, does not answer what was asked.
    Diverged(usize, u32),
}
