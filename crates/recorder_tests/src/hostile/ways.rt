ghost use Rattle.std.specs.Prelude.{◌≤◌};

use crate::hostile::runs::{GivenRun, WantedEnd, lists};
use crate::outcomes::{OfThread, doors};
use crate::record::{actors, record, scripts};
use crate::seen::{saw, saw_beginning};
use call_machine::{PlainFault, plain_run};
use host_doors::ScriptDoors;
use input_log::ShortSink;
use machine::Stop;
use posix_terms::Transcripts;
use recorder::{BoxedActor, Ended, NotStarted, StartFault, run_recorded};
use replayer::{ReplayFault, replay, replay_threads};
use std::alloc::{AllocError, Global};
use std::sync::Wait;
use std::thread::Threads;

// What a run or a replay told: all that is wanted of it; that there is no
// memory, and what came before is a beginning of what is wanted;
// or something else.
#[derive(Clone, Copy, Debug, PartialEq, Eq)]
pub(crate) enum Outturn {
    Whole,
    Memory,
    Wrong,
}

pub(crate) fn whole_if(whole: bool) -> Outturn {
    if whole {
        Outturn::Whole
    } else {
        Outturn::Wrong
    }
}

pub(crate) fn memory_if(beginning: bool) -> Outturn {
    if beginning {
        Outturn::Memory
    } else {
        Outturn::Wrong
    }
}

// What a run tells that stopped so, whose threads saw this and which
// wrote this log. Where there was no memory each saw a
// beginning.
fn shows(wanted: WantedEnd, stop: Option<Stop>, transcripts: &Transcripts, log: &[u8]) -> Outturn {
    if stop == Some(Stop::Memory) {
        return memory_if(saw_beginning(transcripts, wanted.rows) && wanted.log.starts_with(log));
    }
    whole_if(stop == wanted.end && saw(transcripts, wanted.rows) && log == wanted.log)
}

// The plain run.
pub(crate) fn plain(
    alloc: Global,
    run: GivenRun,
    wanted: WantedEnd,
) -> Result<Outturn, AllocError> {
    let scripts = scripts(alloc, run.scripts)?;
    let lists = lists(alloc, run)?;
    Ok(match plain_run(alloc, scripts, lists, run.settings()) {
        Ok(plain) => shows(wanted, plain.stop, &plain.transcripts, plain.log.as_slice()),
        Err(fault) => memory_if(fault == PlainFault::Memory),
    })
}

// The recorded run, into a log that has so much room.
pub(crate) fn recorded<R: Threads + Wait + Sync>(
    rt: &R,
    alloc: Global,
    run: GivenRun,
    room: usize,
    wanted: WantedEnd,
) -> Result<Outturn, AllocError> {
    Ok(match record(rt, alloc, run, run.scripts.len(), room)? {
        Ok(over) => shows(wanted, over.stop, &over.transcripts, over.sink.bytes()),
        Err(refused) => memory_if(refused.fault == StartFault::Memory),
    })
}

type Ends = Ended<BoxedActor, ScriptDoors<OfThread>, ShortSink>;

type NoShortRun = NotStarted<BoxedActor, ScriptDoors<OfThread>, ShortSink>;

fn record_short<R: Threads + Wait + Sync>(
    rt: &R,
    alloc: Global,
    run: GivenRun,
    most: usize,
    fail_at: Option<u64>,
) -> Result<Result<Ends, NoShortRun>, AllocError>
    requires { 1 ≤ most }
{
    let actors = actors(alloc, run.scripts)?;
    let doors = doors(alloc, lists(alloc, run)?)?;
    let sink = ShortSink::new(alloc, 100, most, fail_at)?;
    Ok(run_recorded(rt, alloc, actors, doors, sink, run.settings()))
}

// The recorded run, into a sink that takes at most so many bytes at a time, and fails at the write with this number.
pub(crate) fn recorded_short<R: Threads + Wait + Sync>(
    rt: &R,
    alloc: Global,
    run: GivenRun,
    most: usize,
    fail_at: Option<u64>,
    wanted: WantedEnd,
) -> Result<Outturn, AllocError>
    requires { 1 ≤ most }
{
    match record_short(rt, alloc, run, most, fail_at)? {
        Ok(over) => Ok(shows(wanted, over.stop, &over.transcripts, over.sink.bytes())),
        Err(_) => Err(AllocError),
    }
}

// The replay of a log, on one thread.
pub(crate) fn replayed(
    alloc: Global,
    log: &[u8],
    run: GivenRun,
    wanted: WantedEnd,
) -> Result<Outturn, AllocError> {
    Ok(match replay(alloc, log, scripts(alloc, run.scripts)?) {
        Ok(replayed) => whole_if(saw(&replayed.transcripts, wanted.rows)),
        Err(fault) => memory_if(matches!(fault, ReplayFault::Memory)),
    })
}

// The replay of a log by threads, which writes a log of its own.
pub(crate) fn replayed_by_threads<R: Threads + Wait + Sync>(
    rt: &R,
    alloc: Global,
    log: &[u8],
    run: GivenRun,
    wanted: WantedEnd,
) -> Result<Outturn, AllocError> {
    Ok(
        match replay_threads(rt, alloc, log, actors(alloc, run.scripts)?) {
            Ok(over) => shows(wanted, over.stop, &over.transcripts, over.sink.bytes()),
            Err(refused) => memory_if(matches!(refused.fault, ReplayFault::Memory)),
        },
    )
}

// Whether the plain run and the recorded one are all that is wanted.
pub(crate) fn is_run<R: Threads + Wait + Sync>(
    rt: &R,
    alloc: Global,
    run: GivenRun,
    wanted: WantedEnd,
) -> Result<bool, AllocError> {
    let plain = plain(alloc, run, wanted)?;
    let recorded = recorded(rt, alloc, run, 100, wanted)?;
    Ok(plain == Outturn::Whole && recorded == Outturn::Whole)
}
