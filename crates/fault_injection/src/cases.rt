ghost use Rattle.std.specs.Prelude.{◌≡◌, ◌++◌, [], IfOk, OnOk, Some, option_copied, slice_get};
ghost use Rattle.std.specs.Prelude.{slice_index_or};
ghost use Rattle.fault_injection.specs.Cases.{cases_at, cases_of, fault_cases};

use crate::injected::Injected;
use crate::places::Place;
use crate::tried::tried;
use posix_terms::{Errno, Given, Outcomes};
use std::alloc::{AllocError, Global};

/// What is tried in place of each outcome.
#[derive(Clone, Copy, Debug)]
pub struct Choice<'a> {
    /// The errors: those that are named, or else those that the outcome's request can meet
    /// ([`errors_of`](crate::errors_of)).
    pub errors: Option<&'a [Errno]>,
    /// Whether successes of reads and writes are tried with fewer bytes too
    /// ([`short_counts`](crate::short_counts)).
    pub short: bool,
}

/// One outcome with another in its place.
#[derive(Clone, Copy, Debug, PartialEq, Eq)]
pub struct FaultCase {
    pub thread: usize,
    /// The number of the outcome among those of the thread, from 0.
    pub number: usize,
    /// What comes in its place.
    pub injected: Injected,
}

/// The cases of these places of the outcomes, which are listed by thread. They come in the order of
/// the places; of each, first the errors in their order, then the short counts from the least on. A
/// failure is not a case where the outcome is that failure itself.
pub fn fault_cases(
    alloc: Global,
    outcomes: &[Outcomes],
    places: &[Place],
    choice: Choice<'_>,
) -> Result<Vec<FaultCase>, AllocError>
    ensures { IfOk result (λ cases.
        cases.items ≡ fault_cases choice.entry outcomes.now places.now) }
{
    let mut cases = Vec::new(alloc);
    for place in places {
        push_of_place(&mut cases, choice, outcomes, *place)?;
    }
    Ok(cases)
}

// Adds the cases of a place.
fn push_of_place(
    cases: &mut Vec<FaultCase>,
    choice: Choice<'_>,
    outcomes: &[Outcomes],
    place: Place,
) -> Result<(), AllocError>
    ensures { OnOk result (
        cases.new.items ≡ cases.old.items ++ cases_of choice.entry outcomes.now place) }
{
    match outcome_at(outcomes, place) {
        Some(given) => push_of_outcome(cases, choice, place, given),
        None => Ok(()),
    }
}

// The outcome of a place, if there is one.
fn outcome_at(outcomes: &[Outcomes], place: Place) -> Option<&Given>
    ensures { option_copied result
        ≡ slice_get (slice_index_or outcomes.now place.thread []) place.number }
{
    outcomes.get(place.thread)?.as_slice().get(place.number)
}

// Adds the cases of the outcome of a place.
fn push_of_outcome(
    cases: &mut Vec<FaultCase>,
    choice: Choice<'_>,
    place: Place,
    given: &Given,
) -> Result<(), AllocError>
    ensures { OnOk result (
        cases.new.items ≡ cases.old.items ++ cases_at choice.entry place (Some given.now)) }
{
    let alloc = *cases.allocator();
    for injected in tried(alloc, choice, place.object, given)?.as_slice() {
        cases.push(FaultCase {
            thread: place.thread,
            number: place.number,
            injected: *injected,
        })?;
    }
    Ok(())
}
