ghost use Rattle.std.specs.Prelude.{◌≡◌, ◌++◌, ◌∷◌, ◌<◌, [], IfErr, IfOk, None, OnErr, OnOk, Some};
ghost use Rattle.std.specs.Prelude.{if◌then◌else◌, length, option_map, slice_index_or, slice_set};
ghost use Rattle.std.specs.Prelude.{take};
ghost use Rattle.worker_notes.specs.Requests.{query_for};
ghost use Rattle.explorer.specs.Runs.{IsFault};
ghost use Rattle.explorer.specs.Subject.{subject};
ghost use Rattle.fault_injection.specs.Filled.{IsFilledRun, given_after, given_for};
ghost use Rattle.fault_injection.specs.Filled.{more_after};
ghost use Rattle.fault_injection.specs.Replaced.{subject_in};

use crate::cases::FaultCase;
use crate::filling::Filling;
use crate::replaced::with_outcome;
use call_machine::{Asked, Plain, Stop};
use explorer::{RunFault, Trial, given_copied, run_texts};
use posix_terms::{Bytes, Call, Given, Outcomes, Settings, Step, Turn};
use std::alloc::{AllocError, Global};
use worker_notes::request_for;

/// The plain run of the trial's scripts with the outcome of this case in its place, and with an
/// outcome filled in wherever a thread asks for one that it does not have: its list is at its end,
/// or has one there that does not answer, which is dropped then with those after it. The run is
/// made again for each of these, of which there are `most` at most: where more are asked for, it
/// stops. The errors are those of [`run_texts`].
pub fn run_filled(
    alloc: Global,
    trial: Trial<'_>,
    case: FaultCase,
    filling: Filling,
    most: u32,
) -> Result<Plain, RunFault>
    ensures ok { IfOk result (IsFilledRun most filling (subject_in case (subject trial.entry))) }
    ensures err { IfErr result (IsFault (subject_in case (subject trial.entry))) }
{
    let outcomes = with_outcome(alloc, trial.outcomes, case)?;
    run_filling(alloc, trial.texts, outcomes, trial.settings, filling, most)
}

// The plain run of the scripts that these texts are, with outcomes filled in.
fn run_filling(
    alloc: Global,
    texts: &[Bytes],
    mut outcomes: Vec<Outcomes>,
    settings: Settings,
    filling: Filling,
    most: u32,
) -> Result<Plain, RunFault>
    ensures ok { IfOk result (IsFilledRun most filling (
        record { texts = texts.now; outcomes = outcomes.items; settings = settings })) }
    ensures err { IfErr result (IsFault (
        record { texts = texts.now; outcomes = outcomes.items; settings = settings })) }
{
    for _ in 0..most {
        let trial = Trial {
            texts,
            outcomes: &outcomes,
            settings,
        };
        let plain = trial.run(alloc)?;
        if !fill(alloc, filling, &mut outcomes, &plain)? {
            return Ok(plain);
        }
    }
    run_texts(alloc, texts, outcomes, settings)
}

// Fills in the outcome that this run stopped for, and returns whether there was one to be.
fn fill(
    alloc: Global,
    filling: Filling,
    outcomes: &mut Vec<Outcomes>,
    plain: &Plain,
) -> Result<bool, AllocError>
    ensures filled { IfOk result (λ filled.
        more_after filling outcomes.old.items plain.now.history.asked plain.now.stop
        ≡ (if filled then Some outcomes.new.items else None)) }
    ensures length { length outcomes.new.items ≡ length outcomes.old.items }
{
    let (thread, used) = match plain.stop {
        Some(Stop::EndOfLog(thread)) => (thread, count_of(outcomes, thread)),
        Some(Stop::Diverged(thread, number)) => (thread, number as usize),
        _ => return Ok(false),
    };
    let Some(given) = given_after(alloc, filling, steps_of(plain.history.asked(), thread))? else {
        return Ok(false);
    };
    put(alloc, outcomes, thread, used, given)?;
    Ok(true)
}

// How many outcomes a thread has.
fn count_of(outcomes: &[Outcomes], thread: usize) -> usize
    ensures { result ≡ length (slice_index_or outcomes.now thread []) }
{
    match outcomes.get(thread) {
        Some(of_thread) => of_thread.as_slice().len(),
        None => 0,
    }
}

// The steps that a thread asked.
fn steps_of(asked: &Asked, thread: usize) -> &[Step]
    ensures { result.now ≡ slice_index_or asked.now thread [] }
{
    if thread < asked.len() {
        asked.steps(thread)
    } else {
        &[]
    }
}

// What comes for a thread that asked these steps.
fn given_after(alloc: Global, filling: Filling, steps: &[Step]) -> Result<Option<Given>, AllocError>
    ensures { IfOk result (λ given. given ≡ given_after filling steps.now) }
{
    match steps.last() {
        Some(Step::Call(call)) => given_for(alloc, filling, call),
        _ => Ok(None),
    }
}

// What comes for a call, if that goes outside.
#[tactic(auto, using(crate::proofs::Asking::given_alike, crate::proofs::Asking::none_alike))]
fn given_for(alloc: Global, filling: Filling, call: &Call) -> Result<Option<Given>, AllocError>
    ensures { IfOk result (λ given.
        given ≡ option_map (given_for filling) (query_for call.now)) }
{
    // What a call asks is the same at each turn.
    let turn = Turn {
        clock: 0,
        thread: 0,
    };
    let Some(request) = request_for(turn, call)? else {
        return Ok(None);
    };
    Ok(Some(Given {
        kind: request.kind,
        clock: None,
        outcome: filling.outcome(alloc, request.kind, request.asked),
    }))
}

// Puts one outcome of a thread after so many of its own.
fn put(
    alloc: Global,
    outcomes: &mut Vec<Outcomes>,
    thread: usize,
    used: usize,
    given: Given,
) -> Result<(), AllocError>
    ensures ok { OnOk result (
        outcomes.new.items
        ≡ slice_set outcomes.old.items thread
        (take used (slice_index_or outcomes.old.items thread []) ++ given ∷ [])) }
    ensures err { OnErr result (outcomes.new.items ≡ outcomes.old.items) }
{
    if thread < outcomes.len() {
        let mut list = first_copied(alloc, outcomes[thread].as_slice(), used)?;
        list.push(given)?;
        outcomes[thread] = Outcomes::from_vec(list);
    }
    Ok(())
}

// A copy of so many of a thread's outcomes, from the first on, or of all where there are fewer.
fn first_copied(alloc: Global, given: &[Given], count: usize) -> Result<Vec<Given>, AllocError>
    ensures { IfOk result (λ copied. copied.items ≡ take count given.now) }
{
    given_copied(alloc, &given[..count.min(given.len())])
}
