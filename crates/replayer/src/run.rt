ghost use Rattle.std.specs.Prelude.{◌≡◌, IfErr, IfOk, length};
ghost use Rattle.input_log.specs.Grammar.{IsLog};
ghost use Rattle.replayer.specs.Replay.{IsNoReplay, IsRunByText, IsRunOf, Replays, Tells};
ghost use Rattle.replayer.specs.Runs.{IsReplayRun};

use crate::fault::ReplayFault;
use crate::outcomes::outcomes_by;
use crate::replayed::Replayed;
use crate::unused::{stop_by, unused_record};
use call_machine::{NoWatch, Plain, PlainFault, Stop, WatchesRun, plain_run_watched};
use input_log::{LogText, decode_front};
use std::alloc::Global;
use thread_scripts::Script;

/// Runs scripts on the plain schedule, where what comes from outside is what the log has: each call that goes
/// outside takes the next record of its thread. It opens nothing and waits for nobody.
///
/// The settings are those of the log's header. Of a log that is torn after its header the records before the tear
/// count. A fault of the log is reported first, then a number of scripts that is not that of the log's threads. When
/// a thread that has the turn lacks its next outcome, or when an outcome does not answer what was asked, the replay
/// ends there, with what each thread saw so far. It ends as `Diverged`, too, when all threads have ended and a record
/// was not used: at the least such thread and its first such record.
pub fn replay(alloc: Global, log: &[u8], scripts: Vec<Script>) -> Result<Replayed, ReplayFault>
    ensures { Replays log.now scripts.items result }
{
    let RunByLog { log, plain } = run_by_text(alloc, log, scripts, &mut NoWatch)?;
    told(&log, plain)
}

/// A log, and the run of scripts by it.
#[derive(Debug, Drop)]
pub struct RunByLog {
    pub log: LogText,
    pub plain: Plain,
}

/// Runs scripts as [`replay`] does, and returns the run as far as it came, with its history. When
/// nothing stopped it and a record was not used, its stop is `Diverged`. A fault is that of the log,
/// another number of threads, or lack of memory. `watch` is shown how far the run has come.
pub fn replay_run<W: WatchesRun>(
    alloc: Global,
    log: &[u8],
    scripts: Vec<Script>,
    watch: &mut W,
) -> Result<RunByLog, ReplayFault>
    ensures run { IfOk result (λ by. IsReplayRun log.now scripts.items by.log by.plain) }
    ensures fault { IfErr result (IsNoReplay log.now (length scripts.items)) }
{
    let RunByLog { log, plain } = run_by_text(alloc, log, scripts, watch)?;
    let stop = stop_by(&log, plain.stop, plain.history.rows());
    Ok(RunByLog {
        log,
        plain: Plain { stop, ..plain },
    })
}

// Runs scripts by the log at the front of a text.
pub fn run_by_text<W: WatchesRun>(
    alloc: Global,
    text: &[u8],
    scripts: Vec<Script>,
    watch: &mut W,
) -> Result<RunByLog, ReplayFault>
    ensures run { IfOk result (λ by. IsRunByText text.now scripts.items by.log by.plain) }
    ensures fault { IfErr result (IsNoReplay text.now (length scripts.items)) }
{
    let log = decode_front(alloc, text)?;
    if usize::from(log.header.threads) != scripts.len() {
        return Err(ReplayFault::Threads);
    }
    let outcomes = outcomes_by(alloc, scripts.len(), log.records.as_slice())?;
    watch.begins(log.records.as_slice().len());
    match plain_run_watched(alloc, scripts, outcomes, log.header.settings(), watch) {
        Ok(plain) => Ok(RunByLog { log, plain }),
        Err(PlainFault::Memory) => Err(ReplayFault::Memory),
        // A log has 1 to 16 threads, and settings of a run.
        Err(PlainFault::Threads) => unreachable!(),
        Err(PlainFault::Settings) => unreachable!(),
    }
}

// What is returned for the plain run by a log.
fn told(log: &LogText, plain: Plain) -> Result<Replayed, ReplayFault>
    requires log { IsLog log.now }
    requires run { IsRunOf log.now plain }
    ensures { Tells log.now plain plain.stop result }
{
    let transcripts = plain.transcripts;
    match plain.stop {
        None => {}
        Some(Stop::EndOfLog(thread)) => return Err(ReplayFault::EndOfLog(thread, transcripts)),
        Some(Stop::Diverged(thread, number)) => {
            return Err(ReplayFault::Diverged(thread, number, transcripts));
        }
        Some(Stop::ClockFull) => return Err(ReplayFault::ClockFull(transcripts)),
        // No plain run stops so.
        Some(Stop::Memory) => unreachable!(),
        Some(Stop::Sink) => unreachable!(),
        Some(Stop::Strayed) => unreachable!(),
    }
    match unused_record(log, plain.history.rows()) {
        None => Ok(Replayed {
            transcripts,
            history: plain.history,
        }),
        Some((thread, number)) => Err(ReplayFault::Diverged(thread, number, transcripts)),
    }
}
