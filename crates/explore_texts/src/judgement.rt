ghost use Rattle.std.specs.Prelude.{◌≡◌};
ghost use Rattle.explore_texts.specs.Judged.{is_counted, judged, passes};

use call_machine::Stop;

/// What a run came to, as far as it was looked at. Each run came to exactly one of these.
#[derive(Clone, Copy, Debug, PartialEq, Eq)]
pub enum Judgement {
    /// It came to its end, and no reply was other than expected.
    Passed,
    /// A reply was not as expected.
    Failed,
    /// Calls were blocked for good, and none of them was expected to be interrupted. No reply was
    /// other than expected.
    Blocked,
    /// It stopped, for this reason, and no reply until then was other than expected. What is
    /// expected after that was not looked at.
    Stopped(Stop),
}

/// What else than a failure is no fault of a run.
#[derive(Clone, Copy, Debug, PartialEq, Eq)]
pub struct Allowed {
    /// That it stopped.
    pub stops: bool,
    /// That its calls were blocked for good.
    pub blocked: bool,
}

/// Which runs are counted together.
#[derive(Clone, Copy, Debug, PartialEq, Eq)]
pub enum Tally {
    Failed,
    Blocked,
    /// All that stopped, and then those of each reason.
    Stopped,
    ClockFull,
    EndOfLog,
    Diverged,
}

impl Judgement {
    // What a run came to: whether a reply was not as expected, whether calls were blocked for good and
    // none of them was expected to be interrupted, and why it stopped.
    pub(crate) fn of(unmet: bool, blocked: bool, stop: Option<Stop>) -> Judgement
        ensures { result ≡ judged unmet blocked stop }
    {
        match (unmet, blocked, stop) {
            (true, _, _) => Judgement::Failed,
            (false, true, _) => Judgement::Blocked,
            (false, false, Some(stop)) => Judgement::Stopped(stop),
            (false, false, None) => Judgement::Passed,
        }
    }

    /// Whether it is no fault.
    pub fn passes(self, allowed: Allowed) -> bool
        ensures { result ≡ passes allowed self }
    {
        match self {
            Judgement::Passed => true,
            Judgement::Failed => false,
            Judgement::Blocked => allowed.blocked,
            Judgement::Stopped(_) => allowed.stops,
        }
    }

    // Whether it is one of those that are counted here.
    pub(crate) fn is_counted(self, tally: Tally) -> bool
        ensures { result ≡ is_counted tally self }
    {
        match (tally, self) {
            (Tally::Failed, Judgement::Failed) => true,
            (Tally::Blocked, Judgement::Blocked) => true,
            (Tally::Stopped, Judgement::Stopped(_)) => true,
            (Tally::ClockFull, Judgement::Stopped(Stop::ClockFull)) => true,
            (Tally::EndOfLog, Judgement::Stopped(Stop::EndOfLog(_))) => true,
            (Tally::Diverged, Judgement::Stopped(Stop::Diverged(_, _))) => true,
            _ => false,
        }
    }
}
