ghost use Rattle.std.specs.Prelude.{◌≡◌, ◌==◌, ◌&&◌, []};
ghost use Rattle.explorer.specs.Lists.{delay_in, delays_in};

use crate::places::CallPlace;

/// A call is delayed by so many units of its thread's clock.
#[derive(Clone, Copy, Debug, PartialEq, Eq)]
pub struct Delay {
    pub place: CallPlace,
    pub units: u64,
}

/// A list of at most two delays.
#[derive(Clone, Copy, Debug, PartialEq, Eq)]
pub struct DelayList {
    pub first: Option<Delay>,
    pub second: Option<Delay>,
}

impl DelayList {
    // No delay.
    pub(crate) fn empty() -> DelayList
        ensures { delays_in result ≡ [] }
    {
        DelayList {
            first: None,
            second: None,
        }
    }

    // By how much the list delays the call on this line of a thread, if it does.
    pub(crate) fn units_at(self, thread: usize, line: usize) -> Option<u64>
        ensures { result ≡ delay_in (delays_in self) thread line }
    {
        if let Some(delay) = self.first
            && delay.is_at(thread, line)
        {
            return Some(delay.units);
        }
        if let Some(delay) = self.second
            && delay.is_at(thread, line)
        {
            return Some(delay.units);
        }
        None
    }
}

impl Delay {
    fn is_at(self, thread: usize, line: usize) -> bool
        ensures { result ≡ (self.place.thread == thread && self.place.line == line) }
    {
        self.place.thread == thread && self.place.line == line
    }
}
