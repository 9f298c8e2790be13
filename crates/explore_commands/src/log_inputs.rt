ghost use Rattle.std.specs.Prelude.{IfOk};
ghost use Rattle.explore_commands.specs.LogGives.{FrontGives, LogGives};

use crate::undated::undated_outcomes;
use command_inputs::{no_log, threads_line};
use command_texts::Printed;
use input_log::{LogText, decode_front};
use posix_terms::{Outcomes, Settings};
use std::alloc::{AllocError, Global};

// What a log gives for the runs of scripts.
#[derive(Drop)]
pub enum LogInputs {
    // What comes for each thread from outside, at whatever turns, and the settings.
    Given(Vec<Outcomes>, Settings),
    // Nothing: this is printed for its fault.
    Fault(Printed),
}

// What the log at the front of a text gives for so many scripts.
pub fn log_inputs(alloc: Global, text: &[u8], scripts: usize) -> Result<LogInputs, AllocError>
    ensures { IfOk result (LogGives text.now scripts) }
{
    match decode_front(alloc, text) {
        Ok(log) => front_inputs(alloc, &log, scripts),
        Err(fault) => Ok(LogInputs::Fault(no_log(alloc, fault)?)),
    }
}

// What this log gives for so many scripts.
fn front_inputs(alloc: Global, log: &LogText, scripts: usize) -> Result<LogInputs, AllocError>
    ensures { IfOk result (FrontGives log.now scripts) }
{
    let threads = usize::from(log.header.threads);
    if threads != scripts {
        return Ok(LogInputs::Fault(threads_line(alloc, threads, scripts)?));
    }
    let outcomes = undated_outcomes(alloc, threads, log.records.as_slice())?;
    Ok(LogInputs::Given(outcomes, log.header.settings()))
}
