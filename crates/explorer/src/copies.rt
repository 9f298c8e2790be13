ghost use Rattle.std.specs.Prelude.{◌≡◌, IfOk};

use posix_terms::{Given, Outcomes};
use std::alloc::{AllocError, Global};

/// A copy of the outcomes of all threads, for a run of its own.
pub fn outcomes_copied(alloc: Global, outcomes: &[Outcomes]) -> Result<Vec<Outcomes>, AllocError>
    ensures { IfOk result (λ copied. copied.items ≡ outcomes.now) }
{
    let mut copied = Vec::with_capacity(alloc, outcomes.len())?;
    for of_thread in outcomes {
        copied.push(Outcomes::from_vec(given_copied(alloc, of_thread.as_slice())?))?;
    }
    Ok(copied)
}

/// A copy of a thread's outcomes.
pub fn given_copied(alloc: Global, given: &[Given]) -> Result<Vec<Given>, AllocError>
    ensures { IfOk result (λ copied. copied.items ≡ given.now) }
{
    let mut copied = Vec::with_capacity(alloc, given.len())?;
    for one in given {
        copied.push(Given {
            kind: one.kind,
            clock: one.clock,
            outcome: one.outcome.try_clone()?,
        })?;
    }
    Ok(copied)
}
