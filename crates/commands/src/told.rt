ghost use Rattle.std.specs.Prelude.{◌≡◌, IfOk};
ghost use Rattle.command_texts.specs.Reading.{scripts_from};
ghost use Rattle.commands.specs.Tells.{FaultTells, RunTells, ScriptsTell, ThreadsPrint};

use call_machine::Stop;
use command_inputs::{no_log, threads_line};
use command_texts::{FirstFault, Printed, bad_line, scripts, too_long};
use input_log::decode_front;
use posix_terms::{Bytes, Transcripts};
use replayer::{ReplayFault, replay};
use std::alloc::{AllocError, Global};
use thread_scripts::Script;

/// What came of a replay.
#[derive(Debug, Drop)]
pub enum Told {
    /// What each thread saw as far as the run came, and why it stopped, if it did.
    Run(Transcripts, Option<Stop>),
    /// There was no run: what is printed in its place.
    Fault(Printed),
}

/// What came of the replay of a log with the scripts of these texts, or what is printed for the
/// first fault among them, or of the log. It fails only out of memory.
pub fn told_of(alloc: Global, log: &Bytes, texts: &[Bytes]) -> Result<Told, AllocError>
    ensures { IfOk result (ScriptsTell log.now (scripts_from 0 texts.now)) }
{
    match scripts(alloc, texts) {
        Ok(scripts) => run_told(alloc, log.as_slice(), scripts),
        Err(FirstFault::BadLine(script, line)) => Ok(Told::Fault(bad_line(alloc, script, line)?)),
        Err(FirstFault::TooLong(script)) => Ok(Told::Fault(too_long(alloc, script)?)),
        Err(FirstFault::Memory) => Err(AllocError),
    }
}

// What is reported of the replay of a log with these scripts.
fn run_told(alloc: Global, log: &[u8], scripts: Vec<Script>) -> Result<Told, AllocError>
    ensures { IfOk result (RunTells log.now scripts.items) }
{
    let count = scripts.len();
    match replay(alloc, log, scripts) {
        Ok(replayed) => Ok(Told::Run(replayed.transcripts, None)),
        Err(fault) => fault_told(alloc, log, count, fault),
    }
}

// What is reported of a replay with so many scripts that did not come to its end, or was none.
pub fn fault_told(
    alloc: Global,
    log: &[u8],
    scripts: usize,
    fault: ReplayFault,
) -> Result<Told, AllocError>
    ensures { IfOk result (FaultTells log.now scripts fault) }
{
    match fault {
        ReplayFault::EndOfLog(thread, transcripts) => {
            Ok(Told::Run(transcripts, Some(Stop::EndOfLog(thread))))
        }
        ReplayFault::Diverged(thread, number, transcripts) => {
            Ok(Told::Run(transcripts, Some(Stop::Diverged(thread, number))))
        }
        ReplayFault::ClockFull(transcripts) => Ok(Told::Run(transcripts, Some(Stop::ClockFull))),
        ReplayFault::Log(fault) => Ok(Told::Fault(no_log(alloc, fault)?)),
        ReplayFault::Threads => Ok(Told::Fault(other_threads(alloc, log, scripts)?)),
        ReplayFault::Memory => Err(AllocError),
    }
}

// The log is of another number of threads than there are scripts: that number is read again.
pub fn other_threads(alloc: Global, log: &[u8], scripts: usize) -> Result<Printed, AllocError>
    ensures { IfOk result (ThreadsPrint log.now scripts) }
{
    match decode_front(alloc, log) {
        Ok(log) => threads_line(alloc, usize::from(log.header.threads), scripts),
        Err(_) => Err(AllocError),
    }
}
