use lock_machine::Phase;
use posix_terms::PackedRow;

/// Is shown a run while it goes on. No contract speaks of it: a run is the same whoever watches it.
/// It is called at each event, so it does little.
pub trait WatchesRun {
    /// The run is by a log of so many records.
    fn begins(&mut self, records: usize);

    /// A thread attempts the lock that its call needs, at this clock. The attempts before it that
    /// failed, one at each clock since the call began to need that lock, are not shown.
    fn attempts(&mut self, thread: usize, clock: u64);

    /// These turns were granted so far, and so many outcomes came. It is called after each attempt.
    fn reached(&mut self, rows: &[PackedRow], came: u32);

    /// A thread made an event that needs no turn: it is at this phase then, and has this clock.
    fn moved(&mut self, thread: usize, phase: &Phase, clock: u64);

    /// Nothing more is shown: the run has ended, or there was none.
    fn ended(&mut self);
}

/// Watches nothing.
#[derive(Clone, Copy, Debug, PartialEq, Eq)]
pub struct NoWatch;

impl WatchesRun for NoWatch {
    fn begins(&mut self, _records: usize) {}

    fn attempts(&mut self, _thread: usize, _clock: u64) {}

    fn reached(&mut self, _rows: &[PackedRow], _came: u32) {}

    fn moved(&mut self, _thread: usize, _phase: &Phase, _clock: u64) {}

    fn ended(&mut self) {}
}
