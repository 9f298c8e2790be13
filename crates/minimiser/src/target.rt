ghost use Rattle.std.specs.Prelude.{◌≡◌, ◌↔◌, IfOk, IsTrue};
ghost use Rattle.minimiser.specs.Targets.{came_of, error_of, sameness_of};

use posix_terms::{Errno, Reply};
use std::alloc::AllocError;

/// Which replies count as the same, where neither is as expected.
#[derive(Clone, Copy, Debug, PartialEq, Eq)]
pub enum Sameness {
    /// Those with the same error, and all that are not failures.
    Error,
    /// Equal ones.
    Reply,
}

/// What came in place of the reply that was expected, as far as it has to come again.
#[derive(Debug, PartialEq, Eq, Drop)]
pub enum Came {
    /// The error, if it was a failure.
    Error(Option<Errno>),
    Reply(Reply),
}

impl Came {
    // What came, as far as it has to come again.
    pub(crate) fn of(reply: &Reply, sameness: Sameness) -> Result<Came, AllocError>
        ensures { IfOk result (λ came. came ≡ came_of sameness reply.now) }
    {
        match sameness {
            Sameness::Error => Ok(Came::Error(error_of(reply))),
            Sameness::Reply => Ok(Came::Reply(reply.try_clone()?)),
        }
    }

    // Which replies count as the same.
    pub(crate) fn sameness(&self) -> Sameness
        ensures { result ≡ sameness_of self.now }
    {
        match self {
            Came::Error(_) => Sameness::Error,
            Came::Reply(_) => Sameness::Reply,
        }
    }
}

// The error of a reply, if it is a failure.
fn error_of(reply: &Reply) -> Option<Errno>
    ensures { result ≡ error_of reply.now }
{
    match reply {
        Reply::Fail(error) => Some(*error),
        _ => None,
    }
}

/// Where an expectation stands that is not met.
#[derive(Clone, Copy, Debug, PartialEq, Eq)]
pub struct Place {
    /// The number of the thread, from 0.
    pub thread: usize,
    /// The number of the call's line in the text of the thread, from 1.
    pub call: usize,
    /// The number of the expectation's line, which begins with `#=`, from 1.
    pub line: usize,
}

/// How scripts fail: an expectation, and what came that does not meet it. Two failures are the same
/// if both are equal.
#[derive(Debug, PartialEq, Eq, Drop)]
pub struct Target {
    pub place: Place,
    pub came: Came,
}

impl Target {
    /// Whether the failure is that at this place, where this came.
    pub fn is(&self, place: Place, came: &Came) -> bool
        ensures { IsTrue result ↔ (self.now ≡ record { place = place; came = came.now }) }
    {
        self.place == place && self.came == *came
    }
}
