ghost use Rattle.std.specs.Prelude.{IfOk, map, option_map};
ghost use Rattle.explorer.specs.Subject.{subject};
ghost use Rattle.explore_commands.specs.Writes.{SubjectWrites, TrialWrites, Writes};

use crate::explore::{ExploreOptions, fault_printed};
use crate::scheduling::{ToSchedule, to_schedule};
use crate::trying::{ToTry, to_try};
use command_texts::{Printed, Source, TextReader};
use explorer::{Trial, varied_texts};
use posix_terms::{Bytes, Outcomes, Settings};
use std::alloc::{AllocError, Global};

/// What a command writes of scripts.
#[derive(Drop)]
pub enum ScriptsToWrite {
    /// The texts of the threads, and the log of their plain run.
    Texts(Vec<Bytes>, Bytes),
    /// Nothing: this is printed for the first fault.
    Fault(Printed),
}

/// What `detio explore --write` writes of scripts: their texts with the delays of the first case,
/// all of which are scripts, and the log of their plain run; or what is printed for the first
/// fault. What comes from outside is as for [`explore_over`](crate::explore_over). An error means
/// out of memory.
pub fn to_write<R: TextReader + Drop>(
    alloc: Global,
    settings: Settings,
    options: ExploreOptions,
    log: Option<Source<'_, R>>,
    sources: Vec<Source<'_, R>>,
) -> Result<ScriptsToWrite, AllocError>
    ensures { IfOk result (
        Writes settings options
        (option_map (λ s. (s.path.now, R.remaining s.reader)) log.entry)
        (map (λ s. (s.path.now, R.remaining s.reader)) sources.entry.items)) }
{
    match to_try(alloc, settings, log, sources)? {
        ToTry::Texts(texts, outcomes, settings) => {
            let trial = Trial {
                texts: &texts,
                outcomes: &outcomes,
                settings,
            };
            trial_written(alloc, trial, options)
        }
        ToTry::Fault(printed) => Ok(ScriptsToWrite::Fault(printed)),
    }
}

// What is written of a trial.
fn trial_written(
    alloc: Global,
    trial: Trial<'_>,
    options: ExploreOptions,
) -> Result<ScriptsToWrite, AllocError>
    ensures { IfOk result (TrialWrites options (subject trial.entry)) }
{
    match to_schedule(alloc, options, trial.texts)? {
        ToSchedule::Delays(schedule) => {
            let varied = varied_texts(alloc, &schedule, options.first, trial.texts)?;
            run_written(alloc, varied, trial.outcomes, trial.settings)
        }
        ToSchedule::Fault(printed) => Ok(ScriptsToWrite::Fault(printed)),
    }
}

// These texts, with the log of their plain run.
pub fn run_written(
    alloc: Global,
    texts: Vec<Bytes>,
    outcomes: &[Outcomes],
    settings: Settings,
) -> Result<ScriptsToWrite, AllocError>
    ensures { IfOk result (SubjectWrites (record {
      texts = texts.items;
      outcomes = outcomes.now;
      settings = settings;
    })) }
{
    let trial = Trial {
        texts: &texts,
        outcomes,
        settings,
    };
    match trial.run(alloc) {
        Ok(plain) => Ok(ScriptsToWrite::Texts(texts, plain.log)),
        Err(fault) => Ok(ScriptsToWrite::Fault(fault_printed(alloc, fault)?)),
    }
}
