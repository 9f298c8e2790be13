ghost use Rattle.std.specs.Prelude.{◌≡◌, IfOk};
ghost use Rattle.fault_injection.specs.Replaced.{given_in, of_thread_in, outcomes_in};

use crate::cases::FaultCase;
use posix_terms::{Given, Outcomes};
use std::alloc::{AllocError, Global};

/// The outcomes of all threads, with that of the case in the place of the one that has its thread
/// and number, and the kind of that. All others are as they are; where there is no such outcome,
/// all are.
pub fn with_outcome(
    alloc: Global,
    outcomes: &[Outcomes],
    case: FaultCase,
) -> Result<Vec<Outcomes>, AllocError>
    ensures { IfOk result (λ replaced. replaced.items ≡ outcomes_in case outcomes.now) }
{
    let mut replaced = Vec::with_capacity(alloc, outcomes.len())?;
    for (thread, of_thread) in outcomes.iter().enumerate() {
        replaced.push(of_thread_in(alloc, case, thread, of_thread.as_slice())?)?;
    }
    Ok(replaced)
}

// The outcomes of this thread.
fn of_thread_in(
    alloc: Global,
    case: FaultCase,
    thread: usize,
    outcomes: &[Given],
) -> Result<Outcomes, AllocError>
    ensures { IfOk result (λ replaced. replaced ≡ of_thread_in case (thread, outcomes.now)) }
{
    let mut replaced = Vec::with_capacity(alloc, outcomes.len())?;
    for (number, given) in outcomes.iter().enumerate() {
        replaced.push(given_in(alloc, case, thread, number, given)?)?;
    }
    Ok(Outcomes::from_vec(replaced))
}

// The outcome of this thread and number.
fn given_in(
    alloc: Global,
    case: FaultCase,
    thread: usize,
    number: usize,
    given: &Given,
) -> Result<Given, AllocError>
    ensures { IfOk result (λ replaced. replaced ≡ given_in case thread (number, given.now)) }
{
    let outcome = if thread == case.thread && number == case.number {
        case.injected.in_place_of(alloc, &given.outcome)?
    } else {
        given.outcome.try_clone()?
    };
    Ok(Given {
        kind: given.kind,
        clock: given.clock,
        outcome,
    })
}
