/// Receives reports of how many runs of many cases are done. No contract speaks of it.
pub trait ReportsProgress {
    /// `runs` of the `of` runs are done, and they have `groups` groups: 0 where runs are not
    /// grouped.
    fn made(&mut self, runs: u64, of: u64, groups: usize);

    /// No more reports come: all runs are done, or one of them could not be made.
    fn ended(&mut self);
}

/// Ignores the reports.
#[derive(Clone, Copy, Debug, PartialEq, Eq)]
pub struct NoProgress;

impl ReportsProgress for NoProgress {
    fn made(&mut self, _runs: u64, _of: u64, _groups: usize) {}

    fn ended(&mut self) {}
}
