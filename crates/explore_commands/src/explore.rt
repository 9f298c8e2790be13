ghost use Rattle.std.specs.Prelude.{◌≡◌, ◌<◌, ◌^◌, IfOk, map, option_map};
ghost use Rattle.command_texts.specs.Printing.{Prints};
ghost use Rattle.explorer.specs.Groups.{runs_of};
ghost use Rattle.explore_commands.specs.Explores.{ExplorePrints, FaultPrints, GroupsPrint};
ghost use Rattle.explore_commands.specs.Explores.{SeenExplores};
ghost use Rattle.explore_commands.specs.Explores.{SubjectExplores, TrialExplores, goes_outside};
ghost use Rattle.explore_commands.specs.Explores.{no_log};
ghost use Rattle.explore_commands.specs.Explores.{no_room};
ghost use Rattle.explorer.specs.Subject.{subject};

use crate::scheduling::{ToSchedule, to_schedule};
use crate::trying::{ToTry, to_try};
use call_machine::Stop;
use command_inputs::{bad_settings, needs_scripts};
use command_texts::{Printed, Source, TextReader, bad_line, fault, no_memory, print};
use explore_texts::{
    Looked, Schedule, Schedules, SeenRun, Shown, alike_runs, explored_printed, findings,
    found_as_is,
};
use explorer::{Groups, Observation, ReportsProgress, RunFault, Trial, Workers};
use posix_terms::Settings;
use std::alloc::{AllocError, Global};
use std::io;
use std::io::Write;
use std::thread::Threads;

/// With which delays scripts are run.
#[derive(Clone, Copy, Debug, PartialEq, Eq)]
pub struct ExploreOptions {
    pub schedules: Schedules,
    /// The first case: a seed, or the number of a list, of which there must be one.
    pub first: u64,
    /// The case after the last. Where there are fewer lists, all count.
    pub end: u64,
    /// How long a call is delayed at most, 0 to 1,000,000 units of its thread's clock.
    pub reach: u32,
    /// Whether runs are compared with the numbers of their descriptors as they are.
    pub raw: bool,
    /// Which lines are printed, and what is a fault.
    pub shown: Shown,
}

/// `detio explore`: runs the scripts on the plain schedule, as they are and once for each seed, or
/// each list of delays, with its delays. Nothing comes from outside, or what a log has: then its
/// outcomes come in their order, at whatever turns, and its settings count. It prints how the run
/// without delays ended, a line for the runs that are alike
/// ([`alike_runs`](explore_texts::alike_runs)), and a line of sums; or one line for the first
/// fault: without a log that is also that the run without delays stops where it goes outside. It
/// returns the exit status, 1 where a [`Judgement`](explore_texts::Judgement) of a run is a fault:
/// a reply is not as the texts expect, or, unless that is allowed, the run stopped or its calls
/// were blocked for good. Where there is no memory, a file cannot be read or the
/// output cannot be written, that is the fault. `progress` is called after each batch of
/// [`Workers::at_a_time`] runs, and once before anything is printed. An error is one of the writer
/// `errors`.
pub fn explore_over<
    T: Threads + Sync,
    R: TextReader + Drop,
    P: ReportsProgress,
    W: Write,
    E: Write,
>(
    workers: &Workers<'_, T>,
    alloc: Global,
    settings: Settings,
    options: ExploreOptions,
    log: Option<Source<'_, R>>,
    sources: Vec<Source<'_, R>>,
    progress: &mut P,
    output: &mut W,
    errors: &mut E,
) -> io::Result<u8>
    ensures { IfOk result (λ status.
        Prints
        (ExplorePrints settings options
        (option_map (λ s. (s.path.now, R.remaining s.reader)) log.entry)
        (map (λ s. (s.path.now, R.remaining s.reader)) sources.entry.items))
        status (W.contents output.old) (W.contents output.new)
        (E.contents errors.old) (E.contents errors.new)) }
{
    let printed = explore_printed(workers, alloc, settings, options, log, sources, progress);
    progress.ended();
    match printed {
        Ok(printed) => print(&printed, output, errors),
        Err(AllocError) => no_memory(errors),
    }
}

// What is to be printed.
fn explore_printed<T: Threads + Sync, R: TextReader + Drop, P: ReportsProgress>(
    workers: &Workers<'_, T>,
    alloc: Global,
    settings: Settings,
    options: ExploreOptions,
    log: Option<Source<'_, R>>,
    sources: Vec<Source<'_, R>>,
    progress: &mut P,
) -> Result<Printed, AllocError>
    ensures { IfOk result (
        ExplorePrints settings options
        (option_map (λ s. (s.path.now, R.remaining s.reader)) log.entry)
        (map (λ s. (s.path.now, R.remaining s.reader)) sources.entry.items)) }
{
    let alone = log.is_none();
    match to_try(alloc, settings, log, sources)? {
        ToTry::Texts(texts, outcomes, settings) => {
            let trial = Trial {
                texts: &texts,
                outcomes: &outcomes,
                settings,
            };
            trial_explored(workers, alloc, alone, trial, options, progress)
        }
        ToTry::Fault(printed) => Ok(printed),
    }
}

// What is to be printed for a trial, alone or by a log.
fn trial_explored<T: Threads + Sync, P: ReportsProgress>(
    workers: &Workers<'_, T>,
    alloc: Global,
    alone: bool,
    trial: Trial<'_>,
    options: ExploreOptions,
    progress: &mut P,
) -> Result<Printed, AllocError>
    ensures { IfOk result (TrialExplores alone options (subject trial.entry)) }
{
    match to_schedule(alloc, options, trial.texts)? {
        ToSchedule::Delays(schedule) => {
            scheduled_explored(workers, alloc, alone, trial, options, &schedule, progress)
        }
        ToSchedule::Fault(printed) => Ok(printed),
    }
}

// What is to be printed for a trial with these delays.
fn scheduled_explored<T: Threads + Sync, P: ReportsProgress>(
    workers: &Workers<'_, T>,
    alloc: Global,
    alone: bool,
    trial: Trial<'_>,
    options: ExploreOptions,
    schedule: &Schedule,
    progress: &mut P,
) -> Result<Printed, AllocError>
    ensures { IfOk result (SubjectExplores alone (subject trial.entry) options schedule.now) }
{
    match trial.observe(alloc) {
        Ok(before) if alone && goes_outside(before.stop) => no_log(alloc),
        Ok(before) => seen_explored(workers, alloc, trial, options, schedule, &before, progress),
        Err(fault) => fault_printed(alloc, fault),
    }
}

// Whether a run stopped where a thread went outside, and nothing came.
fn goes_outside(stop: Option<Stop>) -> bool
    ensures { result ≡ goes_outside stop }
{
    matches!(stop, Some(Stop::EndOfLog(_)))
}

fn no_log(alloc: Global) -> Result<Printed, AllocError>
    ensures { IfOk result (λ printed. printed ≡ no_log) }
{
    fault(
        alloc,
        2,
        "the scripts go outside, and nothing comes from there: give --log, a log of record\n",
    )
}

// What is to be printed where this was seen in the run without delays.
fn seen_explored<T: Threads + Sync, P: ReportsProgress>(
    workers: &Workers<'_, T>,
    alloc: Global,
    trial: Trial<'_>,
    options: ExploreOptions,
    schedule: &Schedule,
    before: &Observation,
    progress: &mut P,
) -> Result<Printed, AllocError>
    ensures { IfOk result (
        SeenExplores (subject trial.entry) options schedule.now before.now) }
{
    let cases = options.first..schedule.end(options.end);
    let groups = match trial.explored(workers, alloc, schedule, cases, progress) {
        Ok(groups) => groups,
        Err(fault) => return fault_printed(alloc, fault),
    };
    let looked = Looked::new(alloc, trial.texts, options.raw, before)?;
    let run = SeenRun {
        observation: before,
        looked: &looked,
    };
    groups_explored(alloc, trial, options, schedule, run, groups)
}

// What is to be printed of the groups of runs, where this was the run without delays.
fn groups_explored(
    alloc: Global,
    trial: Trial<'_>,
    options: ExploreOptions,
    schedule: &Schedule,
    before: SeenRun<'_>,
    groups: Groups,
) -> Result<Printed, AllocError>
    requires { runs_of groups < 2 ^ 64 }
    ensures { IfOk result (
        GroupsPrint (subject trial.entry) options schedule.now before.entry.observation.now
        before.entry.looked.now groups) }
{
    let json = options.shown.json;
    let as_is = found_as_is(alloc, json, trial.texts, before)?;
    let runs = groups.runs();
    let all = alike_runs(alloc, trial.texts, options.raw, groups)?;
    let findings = findings(alloc, json, trial, schedule, before, &all)?;
    explored_printed(alloc, options.shown, schedule, &as_is, runs, &findings)
}

// What is to be printed where a run could not be made.
pub fn fault_printed(alloc: Global, fault: RunFault) -> Result<Printed, AllocError>
    ensures { IfOk result (FaultPrints fault) }
{
    match fault {
        RunFault::BadLine(script, line) => bad_line(alloc, script, line),
        RunFault::TooLong(script) => no_room(alloc, script),
        RunFault::Threads => needs_scripts(alloc),
        RunFault::Settings => bad_settings(alloc),
        RunFault::Memory => Err(AllocError),
    }
}

pub fn no_room(alloc: Global, script: usize) -> Result<Printed, AllocError>
    ensures { IfOk result (λ printed. printed ≡ no_room script) }
{
    let line = format!(in alloc; "script {script}: no room for delays\n")?;
    fault(alloc, 3, line.as_str())
}
