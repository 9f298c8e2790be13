ghost use Rattle.std.specs.Prelude.{◌≡◌, IfOk, take};
ghost use Rattle.fault_injection.specs.Replaced.{injected_in};

use posix_terms::{Bytes, Errno, Outcome};
use std::alloc::{AllocError, Global};

/// What comes in place of an outcome.
#[derive(Clone, Copy, Debug, PartialEq, Eq)]
pub enum Injected {
    /// A failure.
    Fail(Errno),
    /// A success of a read or a write with so many bytes. Those of a read are its first.
    Short(u64),
}

impl Injected {
    // What comes in place of this outcome. A failure has no bytes, so it stays where these are to
    // be fewer.
    pub(crate) fn in_place_of(self, alloc: Global, outcome: &Outcome) -> Result<Outcome, AllocError>
        ensures { IfOk result (λ injected. injected ≡ injected_in self outcome.now) }
    {
        match (self, outcome) {
            (Injected::Fail(error), _) => Ok(Outcome::Fail(error)),
            (Injected::Short(count), Outcome::Ok { bytes, .. }) => Ok(Outcome::Ok {
                value: count,
                bytes: first_bytes(alloc, bytes.as_slice(), count)?,
            }),
            (Injected::Short(_), Outcome::Fail(error)) => Ok(Outcome::Fail(*error)),
        }
    }
}

// So many of the bytes, from the first on, or all where there are fewer.
fn first_bytes(alloc: Global, bytes: &[u8], count: u64) -> Result<Bytes, AllocError>
    ensures { IfOk result (λ first. first ≡ take count bytes.now) }
{
    let end = count.min(bytes.len() as u64);
    Bytes::from_slice(alloc, &bytes[..end as usize])
}
