ghost use Rattle.std.specs.Prelude.{◌≡◌, ◌↔◌, All, IfOk, MatchOption, Some};
ghost use Rattle.std.specs.List.{zip};
ghost use Rattle.explorer.specs.Subject.{subject};
ghost use Rattle.explorer.specs.declared.observation.Observation.{Observation};
ghost use Rattle.minimiser.specs.Failing.{Fails, IsRunOf};
ghost use Rattle.minimiser.specs.Targets.{IsAsExpected, IsFirstTarget, IsUnmetIn};
ghost use Rattle.minimiser.specs.declared.target.Target.{Target};

use crate::target::{Came, Place, Sameness, Target};
use call_machine::{SpareStore, plain_runs_agree};
use command_texts::first_bad_expectation;
use expectations::{Unmet, expectations_of, first_unmet, one_first_unmet, one_reading};
use explorer::{Observation, RunFault, Trial};
use posix_terms::{Bytes, Row, Transcript};
use std::alloc::{AllocError, Global};
use thread_scripts::parse;

/// How these scripts fail in their plain run: by the first reply that is not as expected, of the
/// least thread that has one. `sameness` says how much of it has to come again. Returns `None` where
/// all replies are as expected, a text is not a script, an expectation is bad, or the scripts cannot
/// be run, as for their number or the settings. An error means out of memory.
pub fn find_target(
    alloc: Global,
    trial: Trial<'_>,
    sameness: Sameness,
) -> Result<Option<Target>, AllocError>
    ensures { IfOk result (λ found. (target : Target)
        → (found ≡ Some target) ↔ Fails sameness (subject trial.entry) target) }
{
    find_target_kept(alloc, &mut SpareStore::new(), trial, sameness)
}

// The same, over the store that an earlier run left in `spare`, where there is one; it leaves it there for the next.
pub(crate) fn find_target_kept(
    alloc: Global,
    spare: &mut SpareStore,
    trial: Trial<'_>,
    sameness: Sameness,
) -> Result<Option<Target>, AllocError>
    ensures { IfOk result (λ found. (target : Target)
        → (found ≡ Some target) ↔ Fails sameness (subject trial.entry) target) }
{
    plain_runs_agree();
    one_reading();
    one_first_unmet();
    match seen_in(alloc, spare, trial)? {
        Some(observation) => {
            let transcripts = observation.seen.threads();
            first_target(alloc, trial.texts, transcripts, sameness)
        }
        None => Ok(None),
    }
}

// What is seen in the plain run, if the texts are scripts, all that they expect is good, and the
// scripts are run.
fn seen_in(
    alloc: Global,
    spare: &mut SpareStore,
    trial: Trial<'_>,
) -> Result<Option<Observation>, AllocError>
    ensures { IfOk result (λ seen.
        MatchOption seen
        ((observation : Observation) → ¬ (IsRunOf (subject trial.entry) observation))
        (IsRunOf (subject trial.entry))) }
{
    one_reading();
    if first_bad_expectation(alloc, trial.texts)?.is_some() {
        return Ok(None);
    }
    match trial.observe_kept(alloc, spare) {
        Ok(observation) => Ok(Some(observation)),
        Err(RunFault::Memory) => Err(AllocError),
        Err(_) => Ok(None),
    }
}

// The first reply of the least thread that saw another than its text expects.
fn first_target(
    alloc: Global,
    texts: &[Bytes],
    transcripts: &[Transcript],
    sameness: Sameness,
) -> Result<Option<Target>, AllocError>
    ensures { IfOk result (λ target.
        MatchOption target
        (All IsAsExpected (zip texts.now transcripts.now))
        (IsFirstTarget sameness (zip texts.now transcripts.now))) }
{
    for (thread, text) in texts.iter().enumerate() {
        let Some(transcript) = transcripts.get(thread) else {
            return Ok(None);
        };
        let unmet = unmet_in(alloc, thread, text.as_slice(), transcript.rows(), sameness)?;
        if let Some(target) = unmet {
            return Ok(Some(target));
        }
    }
    Ok(None)
}

// The first reply of this thread that is not as its text expects.
fn unmet_in(
    alloc: Global,
    thread: usize,
    text: &[u8],
    rows: &[Row],
    sameness: Sameness,
) -> Result<Option<Target>, AllocError>
    ensures { IfOk result (λ target.
        MatchOption target
        (IsAsExpected (text.now, rows.now))
        (IsUnmetIn sameness thread (text.now, rows.now))) }
{
    // The text is a script, and its expectations are good: only memory can have run out.
    let Ok(script) = parse(alloc, text) else {
        return Err(AllocError);
    };
    let Ok(expectations) = expectations_of(alloc, text) else {
        return Err(AllocError);
    };
    let Ok(first) = first_unmet(script, &expectations, rows) else {
        return Err(AllocError);
    };
    let Some(Unmet { row, expectation }) = first else {
        return Ok(None);
    };
    let unmet = &expectations[expectation];
    let came = Came::of(&rows[row].reply, sameness)?;
    let place = Place {
        thread,
        call: unmet.call,
        line: unmet.line,
    };
    Ok(Some(Target { place, came }))
}
