ghost use Rattle.std.specs.Prelude.{◌≡◌};
ghost use Rattle.host_doors.specs.Counting.{counted};
ghost use Rattle.host_doors.specs.Giving.{CanCount};

use posix_terms::Outcome;

/// How many outcomes an outside gave, and how many of them were failures.
#[derive(Clone, Copy, Debug, PartialEq, Eq, Hash)]
pub(crate) struct Counts {
    pub(crate) given: u64,
    pub(crate) failures: u64,
}

impl Counts {
    pub(crate) const NONE: Counts = Counts {
        given: 0,
        failures: 0,
    };

    /// Counts one more outcome.
    pub(crate) fn count(&mut self, outcome: &Outcome)
        requires count { CanCount self.old.given self.old.failures }
        ensures { self.new ≡ counted self.old outcome.now }
    {
        self.given += 1;
        if let Outcome::Fail(_) = outcome {
            self.failures += 1;
        }
    }
}
