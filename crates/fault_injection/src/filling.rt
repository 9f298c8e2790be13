ghost use Rattle.std.specs.Prelude.{◌≡◌, ◌≤◌, [], true};
ghost use Rattle.posix_terms.specs.Outcomes.{fits};
ghost use Rattle.posix_terms.specs.declared.limits.TheConstants.Limits as limit;
ghost use Rattle.posix_terms.specs.declared.outcome.Outcome.TheVariants as outcome;
ghost use Rattle.fault_injection.specs.Filling.{filling_for, goes_well};

use posix_terms::{Bytes, Errno, OutKind, Outcome};
use std::alloc::Global;

/// What comes where a thread asks for an outcome that it does not have.
#[derive(Clone, Copy, Debug, PartialEq, Eq)]
pub enum Filling {
    /// The failure `EIO`.
    Fail,
    /// The success of a request that goes well: all bytes are written, and none is left to read; a
    /// listener has the port that was asked for, or 1 where any was; an offset is 0.
    Well,
}

impl Filling {
    /// What comes of a request of this kind that asks this
    /// ([`Outcome::fits`](posix_terms::Outcome::fits) says what that is). It answers the request,
    /// since none asks for more than the greatest port. It takes no memory.
    #[tactic(auto, unfolding(posix_terms::specs::Outcomes::fits))]
    pub fn outcome(self, alloc: Global, kind: OutKind, asked: u64) -> Outcome
        ensures outcome { result ≡ filling_for self kind asked }
        ensures answers { asked ≤ limit.PORT → fits kind asked result ≡ true }
    {
        match self {
            Filling::Fail => Outcome::Fail(Errno::EIO),
            Filling::Well => Outcome::Ok {
                value: value_of(kind, asked),
                bytes: Bytes::from_vec(Vec::new(alloc)),
            },
        }
    }
}

// The value of a request that goes well.
fn value_of(kind: OutKind, asked: u64) -> u64
    ensures { outcome.Ok result [] ≡ goes_well kind asked }
{
    match kind {
        OutKind::Write => asked,
        OutKind::Listen => { if asked == 0 { 1 } else { asked } }
        _ => 0,
    }
}
