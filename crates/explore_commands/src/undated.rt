ghost use Rattle.std.specs.Prelude.{◌≡◌, IfOk, map};
ghost use Rattle.posix_terms.specs.Outcomes.{undated};
ghost use Rattle.explore_commands.specs.Undated.{undated_outcomes};

use input_log::{Record, outcomes_of};
use posix_terms::{Given, Outcomes};
use std::alloc::{AllocError, Global};

// The outcomes of the first threads, so many, as they may come at any turn.
pub fn undated_outcomes(
    alloc: Global,
    threads: usize,
    records: &[Record],
) -> Result<Vec<Outcomes>, AllocError>
    ensures { IfOk result (λ outcomes. outcomes.items ≡ undated_outcomes threads records.now) }
{
    let mut outcomes = Vec::new(alloc);
    for thread in 0..threads {
        let dated = outcomes_of(alloc, thread, records)?;
        outcomes.push(undated(alloc, dated.as_slice())?)?;
    }
    Ok(outcomes)
}

// These outcomes without their clocks.
fn undated(alloc: Global, dated: &[Given]) -> Result<Outcomes, AllocError>
    ensures { IfOk result (λ outcomes. outcomes ≡ map undated dated.now) }
{
    let mut outcomes = Vec::with_capacity(alloc, dated.len())?;
    for given in dated {
        outcomes.push(Given {
            kind: given.kind,
            clock: None,
            outcome: given.outcome.try_clone()?,
        })?;
    }
    Ok(Outcomes::from_vec(outcomes))
}
