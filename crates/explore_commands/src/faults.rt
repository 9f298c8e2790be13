ghost use Rattle.std.specs.Prelude.{◌≡◌, ◌+◌, ◌++◌, ◌<◌, ◌≤◌, ℕ, IfErr, IfOk, OnOk, length, map};
ghost use Rattle.std.specs.Prelude.{slice_index_or, take};
ghost use Rattle.std.specs.List.{AllZip};
ghost use Rattle.command_texts.specs.Printing.{Prints};
ghost use Rattle.explorer.specs.Observations.{observed};
ghost use Rattle.explorer.specs.Runs.{IsFault};
ghost use Rattle.explorer.specs.Subject.{subject};
ghost use Rattle.explore_commands.specs.Injections.{AreTried, InjectionsPrint, IsCaseFinding};
ghost use Rattle.explore_commands.specs.Injections.{SeesCase, cases_of};
ghost use Rattle.explore_commands.specs.Injections.{RunsCase, SubjectInjects};
ghost use Rattle.explore_commands.specs.Pushed.{ArePushed};
ghost use Rattle.fault_injection.specs.Replaced.{subject_in};

use crate::explore::fault_printed;
use crate::trying::{ToTry, to_try_by_log};
use call_machine::Plain;
use command_texts::{Printed, Source, TextReader, no_memory, print};
use explore_texts::{
    Finding, Looked, SeenRun, Shown, cases_printed, cut_of, fault_value, found, found_as_is,
    found_json, push_case,
};
use explorer::{Observation, ReportsProgress, RunFault, Trial, Workers};
use fault_injection::{Choice, FaultCase, Filling, fault_cases, places_in, run_fault, run_filled};
use std::alloc::{AllocError, Global};
use std::io;
use std::io::Write;
use std::thread::{Threads, for_each_mut};

/// How many outcomes are filled in at most in the run of a case.
pub const MOST_FILLED: u32 = 100;

/// What is tried in place of the outcomes of a log.
#[derive(Clone, Copy, Debug)]
pub struct FaultOptions<'a> {
    /// The failures and short counts.
    pub choice: Choice<'a>,
    /// What comes where a thread asks for an outcome that the log does not have, or has none that
    /// answers, [`MOST_FILLED`] times at most; nothing: the run stops there.
    pub filling: Option<Filling>,
    /// Which lines are printed, and what is a fault.
    pub shown: Shown,
}

/// `detio faults`: runs the scripts on the plain schedule by the outcomes of a log, at whatever
/// turns: as they are, and once for each case, with one outcome replaced. Only the last outcome of
/// each call of the run as it is has cases ([`places_in`](fault_injection::places_in)). It prints
/// how that run ended, a line for each case, and a line of sums; or one line for the first fault.
/// It returns the exit status, 1 where a [`Judgement`](explore_texts::Judgement) of a run is a
/// fault: a reply is not as the texts expect, or, unless that is allowed, the run stopped or its
/// calls were blocked for good. Where there is no memory, a file cannot be read or the output
/// cannot be written, that is the fault. `progress` is called after each batch of
/// [`Workers::at_a_time`] cases, and once before anything is printed. An error is one of the writer
/// `errors`.
pub fn faults_over<T: Threads + Sync, R: TextReader + Drop, P: ReportsProgress, W: Write, E: Write>(
    workers: &Workers<'_, T>,
    alloc: Global,
    options: FaultOptions<'_>,
    log: Source<'_, R>,
    sources: Vec<Source<'_, R>>,
    progress: &mut P,
    output: &mut W,
    errors: &mut E,
) -> io::Result<u8>
    ensures { IfOk result (λ status.
        Prints
        (InjectionsPrint options.entry
        (log.entry.path.now, R.remaining log.entry.reader)
        (map (λ s. (s.path.now, R.remaining s.reader)) sources.entry.items))
        status (W.contents output.old) (W.contents output.new)
        (E.contents errors.old) (E.contents errors.new)) }
{
    let printed = faults_read(workers, alloc, options, log, sources, progress);
    progress.ended();
    match printed {
        Ok(printed) => print(&printed, output, errors),
        Err(AllocError) => no_memory(errors),
    }
}

// What is to be printed.
fn faults_read<T: Threads + Sync, R: TextReader + Drop, P: ReportsProgress>(
    workers: &Workers<'_, T>,
    alloc: Global,
    options: FaultOptions<'_>,
    log: Source<'_, R>,
    sources: Vec<Source<'_, R>>,
    progress: &mut P,
) -> Result<Printed, AllocError>
    ensures { IfOk result (
        InjectionsPrint options.entry
        (log.entry.path.now, R.remaining log.entry.reader)
        (map (λ s. (s.path.now, R.remaining s.reader)) sources.entry.items)) }
{
    match to_try_by_log(alloc, log, sources)? {
        ToTry::Texts(texts, outcomes, settings) => {
            let trial = Trial {
                texts: &texts,
                outcomes: &outcomes,
                settings,
            };
            trial_tried(workers, alloc, options, trial, progress)
        }
        ToTry::Fault(printed) => Ok(printed),
    }
}

// What is to be printed for a trial.
fn trial_tried<T: Threads + Sync, P: ReportsProgress>(
    workers: &Workers<'_, T>,
    alloc: Global,
    options: FaultOptions<'_>,
    trial: Trial<'_>,
    progress: &mut P,
) -> Result<Printed, AllocError>
    ensures { IfOk result (SubjectInjects options.entry (subject trial.entry)) }
{
    match trial.run(alloc) {
        Ok(run) => run_tried(workers, alloc, options, trial, run, progress),
        Err(fault) => fault_printed(alloc, fault),
    }
}

// What is to be printed where this is the run by the outcomes as they are.
fn run_tried<T: Threads + Sync, P: ReportsProgress>(
    workers: &Workers<'_, T>,
    alloc: Global,
    options: FaultOptions<'_>,
    trial: Trial<'_>,
    run: Plain,
    progress: &mut P,
) -> Result<Printed, AllocError>
    ensures { IfOk result (AreTried options.entry (subject trial.entry) (observed run)
        (cases_of options.entry.choice (subject trial.entry) run)) }
{
    let before = Observation::new(alloc, &run)?;
    let cases = cases_of(alloc, options.choice, trial, &run)?;
    drop(run);
    seen_tried(workers, alloc, options, trial, &before, &cases, progress)
}

// The cases of the outcomes that the calls of this run took.
fn cases_of(
    alloc: Global,
    choice: Choice<'_>,
    trial: Trial<'_>,
    run: &Plain,
) -> Result<Vec<FaultCase>, AllocError>
    ensures { IfOk result (λ cases.
        cases.items ≡ cases_of choice.entry (subject trial.entry) run.now) }
{
    let places = places_in(alloc, trial.outcomes.len(), run.history.rows())?;
    fault_cases(alloc, trial.outcomes, &places, choice)
}

// What is to be printed of these cases, where this was seen in the run by the outcomes as they are.
fn seen_tried<T: Threads + Sync, P: ReportsProgress>(
    workers: &Workers<'_, T>,
    alloc: Global,
    options: FaultOptions<'_>,
    trial: Trial<'_>,
    before: &Observation,
    cases: &[FaultCase],
    progress: &mut P,
) -> Result<Printed, AllocError>
    ensures { IfOk result (AreTried options.entry (subject trial.entry) before.now cases.now) }
{
    let looked = Looked::new(alloc, trial.texts, true, before)?;
    let before = SeenRun {
        observation: before,
        looked: &looked,
    };
    let as_is = found_as_is(alloc, options.shown.json, trial.texts, before)?;
    let findings = cases_found(workers, alloc, options, trial, before, cases, progress)?;
    cases_printed(alloc, options.shown, &as_is, &findings)
}

// What is found of cases, in order.
fn cases_found<T: Threads + Sync, P: ReportsProgress>(
    workers: &Workers<'_, T>,
    alloc: Global,
    options: FaultOptions<'_>,
    trial: Trial<'_>,
    before: SeenRun<'_>,
    cases: &[FaultCase],
    progress: &mut P,
) -> Result<Vec<Finding>, AllocError>
    ensures { IfOk result (λ findings.
        AllZip (IsCaseFinding options.entry (subject trial.entry) before.entry.observation.now
        before.entry.looked.now)
        cases.now findings.items) }
{
    let mut findings = Vec::new(alloc);
    while findings.len() < cases.len() {
        let made = findings.len();
        let count = (cases.len() - made).min(workers.at_a_time());
        let next = next_of(cases, made, count);
        let found = some_found(workers, alloc, options, trial, before, next)?;
        push_all(&mut findings, found)?;
        progress.made(findings.len() as u64, cases.len() as u64, 0);
    }
    Ok(findings)
}

// So many cases, after so many.
fn next_of(cases: &[FaultCase], made: usize, count: usize) -> &[FaultCase]
    requires { made + count ≤ length cases.now }
    ensures len { length result.now ≡ count }
    ensures more { take (made + count) cases.now ≡ take made cases.now ++ result.now }
{
    &cases[made..made + count]
}

// Adds these, one after the other. One for which there was no memory is the fault.
fn push_all(
    findings: &mut Vec<Finding>,
    found: Vec<Result<Finding, AllocError>>,
) -> Result<(), AllocError>
    ensures { OnOk result (ArePushed found.items findings.old.items findings.new.items) }
{
    for one in found {
        findings.push(one?)?;
    }
    Ok(())
}

// What is found of these cases, in at most so many threads.
fn some_found<T: Threads + Sync>(
    workers: &Workers<'_, T>,
    alloc: Global,
    options: FaultOptions<'_>,
    trial: Trial<'_>,
    before: SeenRun<'_>,
    cases: &[FaultCase],
) -> Result<Vec<Result<Finding, AllocError>>, AllocError>
    ensures len { IfOk result (λ found. length found.items ≡ length cases.now) }
    ensures each { IfOk result (λ found. (i : ℕ) (d : _) (e : _) → i < length cases.now
        → IfOk (slice_index_or found.items i d)
        (IsCaseFinding options.entry (subject trial.entry) before.entry.observation.now
        before.entry.looked.now (slice_index_or cases.now i e))) }
{
    let mut found = places(alloc, cases.len())?;
    for_each_mut(
        workers.threads,
        found.as_mut_slice(),
        workers.jobs.max(1),
        &|i, one| *one = case_found(alloc, options, trial, before, cases[i]),
    );
    Ok(found)
}

// A place for what is found of each of so many cases.
fn places(alloc: Global, count: usize) -> Result<Vec<Result<Finding, AllocError>>, AllocError>
    ensures { IfOk result (λ places. length places.items ≡ count) }
{
    let mut places = Vec::with_capacity(alloc, count)?;
    for _ in 0..count {
        places.push(Err(AllocError))?;
    }
    Ok(places)
}

// What is found of a case.
fn case_found(
    alloc: Global,
    options: FaultOptions<'_>,
    trial: Trial<'_>,
    before: SeenRun<'_>,
    case: FaultCase,
) -> Result<Finding, AllocError>
    ensures { IfOk result (
        IsCaseFinding options.entry (subject trial.entry) before.entry.observation.now
        before.entry.looked.now case) }
{
    let now = observe_case(alloc, options.filling, trial, case)?;
    let looked = Looked::new(alloc, trial.texts, true, &now)?;
    let run = SeenRun {
        observation: &now,
        looked: &looked,
    };
    let cut = cut_of(alloc, trial.texts, &now)?;
    if options.shown.json {
        let value = fault_value(alloc, trial.outcomes, case)?;
        return found_json(alloc, value, trial.texts, before, 1, run, &cut);
    }
    let mut line = Vec::new(alloc);
    push_case(&mut line, trial.outcomes, case)?;
    found(line, trial.texts, before, 1, run, &cut)
}

// What is seen in the run of a case.
fn observe_case(
    alloc: Global,
    filling: Option<Filling>,
    trial: Trial<'_>,
    case: FaultCase,
) -> Result<Observation, AllocError>
    ensures { IfOk result (SeesCase filling (subject_in case (subject trial.entry))) }
{
    match run_case(alloc, filling, trial, case) {
        Ok(plain) => Observation::new(alloc, &plain),
        // The scripts were run with these settings before: what is refused is memory.
        Err(_) => Err(AllocError),
    }
}

// The run of a case.
pub fn run_case(
    alloc: Global,
    filling: Option<Filling>,
    trial: Trial<'_>,
    case: FaultCase,
) -> Result<Plain, RunFault>
    ensures ok { IfOk result (RunsCase filling (subject_in case (subject trial.entry))) }
    ensures err { IfErr result (IsFault (subject_in case (subject trial.entry))) }
{
    match filling {
        Some(filling) => run_filled(alloc, trial, case, filling, MOST_FILLED),
        None => run_fault(alloc, trial, case),
    }
}
