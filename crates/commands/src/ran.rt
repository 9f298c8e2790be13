// A replay as far as it came, with its history, for whoever shows it.
ghost use Rattle.std.specs.Prelude.{◌≡◌, IfOk, length};
ghost use Rattle.replayer.specs.Replay.{IsNoReplay};
ghost use Rattle.commands.specs.Ran.{HasRun, NoReplayPrints, RunRan, ThreadsRan};

use crate::record::actors;
use crate::told::other_threads;
use call_machine::{Plain, Stop, WatchesRun};
use command_inputs::no_log;
use command_texts::Printed;
use posix_terms::{PackedRow, Transcripts};
use replayer::{ReplayFault, RunByLog, replay_run, replay_threads};
use std::alloc::{AllocError, Global};
use std::marker::Model;
use std::sync::Wait;
use std::thread::Threads;
use thread_scripts::Script;

/// What came of a replay.
#[derive(Debug, Drop)]
pub enum Ran {
    /// It went as far as this.
    Run(Run),
    /// There was no run: what is printed in its place.
    Fault(Printed),
}

/// A run as far as it came: what each thread saw, the granted turns, and why it stopped, if it did.
#[derive(Debug, Drop)]
pub struct Run {
    pub transcripts: Transcripts,
    pub history: RunHistory,
    pub stop: Option<Stop>,
}

/// The history of a run. Contracts see the granted turns.
#[derive(Debug, Drop)]
pub struct RunHistory {
    kept: Kept,
}

// The history of a run on one thread, or of one by threads.
#[derive(Debug, Drop)]
enum Kept {
    Plain(call_machine::History),
    Threads(recorder::RecordedHistory),
}

impl Model for RunHistory {
    ghost use Rattle.std.specs.Prelude.{List};
    ghost use Rattle.posix_terms.specs.declared.transcript.HistoryRow.{HistoryRow};
    ghost use Rattle.commands.specs.TurnsKept.{rows_of};

    ghost Value = { List HistoryRow };

    ghost view = { λ h. rows_of h.kept };
}

impl RunHistory {
    /// The granted turns, in their order.
    pub fn rows(&self) -> &[PackedRow]
        ensures { result.now ≡ self.now }
    {
        match &self.kept {
            Kept::Plain(history) => history.rows(),
            Kept::Threads(history) => history.rows(),
        }
    }
}

impl Run {
    /// A plain run, with its history.
    pub fn of_plain(plain: Plain) -> Run
        ensures { HasRun plain.transcripts plain.history.rows plain.stop result }
    {
        Run {
            transcripts: plain.transcripts,
            history: RunHistory {
                kept: Kept::Plain(plain.history),
            },
            stop: plain.stop,
        }
    }
}

/// The replay of a log with these scripts, as far as it came; or what is printed where there was none.
/// An error means out of memory. `watch` is shown how far the run has come.
pub fn run_ran<V: WatchesRun>(
    alloc: Global,
    log: &[u8],
    scripts: Vec<Script>,
    watch: &mut V,
) -> Result<Ran, AllocError>
    ensures { IfOk result (RunRan log.now scripts.items) }
{
    let count = scripts.len();
    match replay_run(alloc, log, scripts, watch) {
        Ok(RunByLog { plain, .. }) => Ok(Ran::Run(Run::of_plain(plain))),
        Err(fault) => Ok(Ran::Fault(no_replay(alloc, log, count, fault)?)),
    }
}

// What comes of the replay of a log with these scripts, each in a thread of its own.
pub fn threads_ran<T: Threads + Wait + Sync>(
    rt: &T,
    alloc: Global,
    log: &[u8],
    scripts: Vec<Script>,
) -> Result<Ran, AllocError>
    ensures { IfOk result (ThreadsRan log.now scripts.items) }
{
    let count = scripts.len();
    let actors = actors(alloc, scripts)?;
    match replay_threads(rt, alloc, log, actors) {
        Ok(ended) => Ok(Ran::Run(Run {
            transcripts: ended.transcripts,
            history: RunHistory {
                kept: Kept::Threads(ended.history),
            },
            stop: ended.stop,
        })),
        Err(refused) => Ok(Ran::Fault(no_replay(alloc, log, count, refused.fault)?)),
    }
}

// What is printed where so many scripts were not run by a log.
fn no_replay(
    alloc: Global,
    log: &[u8],
    scripts: usize,
    fault: ReplayFault,
) -> Result<Printed, AllocError>
    requires { IsNoReplay log.now scripts fault }
    ensures { IfOk result (NoReplayPrints log.now scripts fault) }
{
    match fault {
        ReplayFault::Log(fault) => no_log(alloc, fault),
        ReplayFault::Threads => other_threads(alloc, log, scripts),
        ReplayFault::Memory => Err(AllocError),
        ReplayFault::EndOfLog(_, _) => unreachable!(),
        ReplayFault::Diverged(_, _, _) => unreachable!(),
        ReplayFault::ClockFull(_) => unreachable!(),
    }
}
