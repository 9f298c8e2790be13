use answered_calls::{AnsweredCall, BlockedLine};
use call_machine::Stop;

/// A run that is drawn.
#[derive(Debug, Drop)]
pub struct DrawnRun<'a> {
    /// What it is called, as `the plain run`, or the paths of its scripts.
    pub name: &'a [u8],
    /// How many threads it has. Each has a lane, also one without a call that was answered.
    pub threads: usize,
    /// Its calls, thread by thread, and those of a thread in their order.
    pub calls: Vec<DrawnCall<'a>>,
    /// What stopped it, where it did not come to its end.
    pub stop: Option<Stop>,
    /// Where its calls stand that were blocked for good.
    pub blocked: Vec<BlockedLine>,
}

/// A call that is drawn.
#[derive(Clone, Copy, Debug)]
pub struct DrawnCall<'a> {
    pub call: AnsweredCall<'a>,
    /// Where it stands in the time of its thread, beside its turns.
    pub clocks: CallClocks,
}

/// Clocks of a thread at a call of its own.
#[derive(Clone, Copy, Debug, PartialEq, Eq)]
pub struct CallClocks {
    /// When the thread asked for it. From here to its first granted turn each attempt failed, one
    /// at each clock.
    pub asked: u64,
    /// When it had all its locks at its last turn: at that turn, where it needed the table alone,
    /// and else at the attempt that took its object. Any attempts between the two failed.
    pub locked: u64,
    /// When it was answered.
    pub answered: u64,
}
