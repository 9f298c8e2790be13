ghost use Rattle.std.specs.Prelude.{◌≡◌, IfOk, MatchOption};
ghost use Rattle.explore_texts.specs.Schedules.{IsTooMany, delays_by, end_by, is_there};
ghost use Rattle.explore_texts.specs.Schedules.{schedule_for};

use explorer::{Chance, Delays, Lists};
use posix_terms::Bytes;
use std::alloc::{AllocError, Global};

/// Which delays scripts are run with.
#[derive(Clone, Copy, Debug, PartialEq, Eq)]
pub enum Schedules {
    /// Those of seeds: a delay by chance before each call.
    Seeds,
    /// Each list of at most one delay, or with `two` of at most two.
    Lists { two: bool },
}

/// Delays, by case.
#[derive(Debug, Drop)]
pub enum Schedule {
    /// The cases are seeds.
    Seeds(Chance),
    /// The cases are the numbers of lists.
    Lists(Lists),
}

impl Delays for Schedule {
    ghost delays_of = { λ s case thread line. delays_by s case thread line };

    fn delay(&self, case: u64, thread: usize, line: usize) -> Option<u64> {
        match self {
            Schedule::Seeds(chance) => chance.delay(case, thread, line),
            Schedule::Lists(lists) => lists.delay(case, thread, line),
        }
    }
}

impl Schedule {
    /// That of texts, each delay of at most `reach` units. Returns `None` exactly when the number
    /// of its lists does not fit in a `u64`; an error means out of memory.
    pub fn new(
        alloc: Global,
        schedules: Schedules,
        reach: u32,
        texts: &[Bytes],
    ) -> Result<Option<Schedule>, AllocError>
        ensures { IfOk result (λ schedule.
            MatchOption schedule
            (IsTooMany (schedule_for schedules reach texts.now))
            (λ schedule. schedule ≡ schedule_for schedules reach texts.now)) }
    {
        match schedules {
            Schedules::Seeds => Ok(Some(Schedule::Seeds(Chance { reach }))),
            Schedules::Lists { two } => {
                let lists = Lists::new(alloc, texts, reach, two)?;
                Ok(lists.map(Schedule::Lists))
            }
        }
    }

    /// Whether there is a case of this number: each seed is one, and each list.
    pub fn is_there(&self, case: u64) -> bool
        ensures { result ≡ is_there self.now case }
    {
        match self {
            Schedule::Seeds(_) => true,
            Schedule::Lists(lists) => case < lists.count(),
        }
    }

    /// The case after the last that is asked for and is there.
    pub fn end(&self, end: u64) -> u64
        ensures { result ≡ end_by self.now end }
    {
        match self {
            Schedule::Seeds(_) => end,
            Schedule::Lists(lists) => end.min(lists.count()),
        }
    }
}
