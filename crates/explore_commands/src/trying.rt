ghost use Rattle.std.specs.Prelude.{IfOk, map, option_map};
ghost use Rattle.explore_commands.specs.Tries.{AloneTries, ByLogTries, LogTries, TextsAlone};
ghost use Rattle.explore_commands.specs.Tries.{TextsByLog, Tries};

use crate::log_inputs::{LogInputs, log_inputs};
use command_inputs::{SourceTexts, ToReplay, ToRun, no_outcomes, source_texts, to_replay, to_run};
use command_texts::{Printed, Source, TextReader};
use posix_terms::{Bytes, Outcomes, Settings};
use std::alloc::{AllocError, Global};

// What a command runs again and again.
#[derive(Drop)]
pub enum ToTry {
    // The texts of scripts, what comes for each from outside, and the settings of the runs.
    Texts(Vec<Bytes>, Vec<Outcomes>, Settings),
    // Nothing: this is printed for the first fault.
    Fault(Printed),
}

// Reads the source of a log, if one is given, and then those of scripts, whose expectations must be
// good. Nothing comes from outside, under these settings, or what the log has.
pub fn to_try<R: TextReader + Drop>(
    alloc: Global,
    settings: Settings,
    log: Option<Source<'_, R>>,
    sources: Vec<Source<'_, R>>,
) -> Result<ToTry, AllocError>
    ensures { IfOk result (
        Tries settings
        (option_map (λ s. (s.path.now, R.remaining s.reader)) log.entry)
        (map (λ s. (s.path.now, R.remaining s.reader)) sources.entry.items)) }
{
    match log {
        Some(log) => to_try_by_log(alloc, log, sources),
        None => to_try_alone(alloc, settings, sources),
    }
}

// Where nothing comes from outside.
fn to_try_alone<R: TextReader + Drop>(
    alloc: Global,
    settings: Settings,
    sources: Vec<Source<'_, R>>,
) -> Result<ToTry, AllocError>
    ensures { IfOk result (
        AloneTries settings
        (map (λ s. (s.path.now, R.remaining s.reader)) sources.entry.items)) }
{
    match source_texts(alloc, sources)? {
        SourceTexts::Read(texts) => texts_alone(alloc, settings, texts),
        SourceTexts::Fault(printed) => Ok(ToTry::Fault(printed)),
    }
}

fn texts_alone(alloc: Global, settings: Settings, texts: Vec<Bytes>) -> Result<ToTry, AllocError>
    ensures { IfOk result (TextsAlone settings texts.items) }
{
    if let ToRun::Fault(printed) = to_run(alloc, true, &texts)? {
        return Ok(ToTry::Fault(printed));
    }
    let outcomes = no_outcomes(alloc, texts.len())?;
    Ok(ToTry::Texts(texts, outcomes, settings))
}

// Where the outcomes of a log come in their order, at whatever turns, and its settings count.
pub fn to_try_by_log<R: TextReader + Drop>(
    alloc: Global,
    log: Source<'_, R>,
    sources: Vec<Source<'_, R>>,
) -> Result<ToTry, AllocError>
    ensures { IfOk result (
        ByLogTries
        (log.entry.path.now, R.remaining log.entry.reader)
        (map (λ s. (s.path.now, R.remaining s.reader)) sources.entry.items)) }
{
    match to_replay(alloc, log, sources)? {
        ToReplay::Texts(log, texts) => texts_by_log(alloc, log.as_slice(), texts),
        ToReplay::Fault(printed) => Ok(ToTry::Fault(printed)),
    }
}

fn texts_by_log(alloc: Global, log: &[u8], texts: Vec<Bytes>) -> Result<ToTry, AllocError>
    ensures { IfOk result (TextsByLog log.now texts.items) }
{
    if let ToRun::Fault(printed) = to_run(alloc, true, &texts)? {
        return Ok(ToTry::Fault(printed));
    }
    scripts_by_log(alloc, log, texts)
}

fn scripts_by_log(alloc: Global, log: &[u8], texts: Vec<Bytes>) -> Result<ToTry, AllocError>
    ensures { IfOk result (LogTries log.now texts.items) }
{
    match log_inputs(alloc, log, texts.len())? {
        LogInputs::Given(outcomes, settings) => Ok(ToTry::Texts(texts, outcomes, settings)),
        LogInputs::Fault(printed) => Ok(ToTry::Fault(printed)),
    }
}
