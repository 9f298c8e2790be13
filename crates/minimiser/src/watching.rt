/// Receives reports while scripts are minimised. No contract speaks of it.
pub trait WatchesMinimising {
    /// One run more is made.
    fn ran(&mut self);

    /// So many lines are kept now.
    fn kept(&mut self, lines: usize);

    /// No more reports come: all is minimised, or there was no memory.
    fn ended(&mut self);
}

/// Ignores the reports.
#[derive(Clone, Copy, Debug, PartialEq, Eq)]
pub struct Unwatched;

impl WatchesMinimising for Unwatched {
    fn ran(&mut self) {}

    fn kept(&mut self, _lines: usize) {}

    fn ended(&mut self) {}
}
