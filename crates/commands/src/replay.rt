ghost use Rattle.std.specs.Prelude.{◌≡◌, IfOk, map};
ghost use Rattle.command_texts.specs.Printing.{Prints};
ghost use Rattle.commands.specs.Replays.{ReplayPrints, TextsReplay};
ghost use Rattle.commands.specs.Replays.{RanPrints};
ghost use Rattle.commands.specs.Ran.{RunRan, ThreadsRan};

use crate::ran::{Ran, run_ran, threads_ran};
use call_machine::WatchesRun;
use command_inputs::{RunOptions, ToReplay, ToRun, run_shown, to_replay, to_run};
use command_texts::{Printed, Source, TextReader, no_memory, print};
use posix_terms::Bytes;
use std::alloc::{AllocError, Global};
use std::io;
use std::io::Write;
use std::sync::Wait;
use std::thread::Threads;

/// `detio replay`: runs the scripts by the log of what came from outside and prints their
/// transcripts, in the view that is asked, and how that ended, with the first reply that is not as
/// its script expects if that is asked too; or one line for the first fault; the answer
/// is the exit status. Where there is no memory, a file cannot be read or the output cannot be
/// written, that is the fault. `watch` is shown how far the run has come, until something is
/// printed. An error is one of the writer `errors`.
pub fn replay_over<R: TextReader + Drop, V: WatchesRun, W: Write, E: Write>(
    alloc: Global,
    options: RunOptions,
    log: Source<'_, R>,
    sources: Vec<Source<'_, R>>,
    watch: &mut V,
    output: &mut W,
    errors: &mut E,
) -> io::Result<u8>
    ensures { IfOk result (λ status.
        Prints
        (ReplayPrints RunRan options
        (log.entry.path.now, R.remaining log.entry.reader)
        (map (λ s. (s.path.now, R.remaining s.reader)) sources.entry.items))
        status (W.contents output.old) (W.contents output.new)
        (E.contents errors.old) (E.contents errors.new)) }
{
    let printed = replay_printed(alloc, options, log, sources, watch);
    watch.ended();
    match printed {
        Ok(printed) => print(&printed, output, errors),
        Err(AllocError) => no_memory(errors),
    }
}

/// `detio replay --threads`: the same, where each script runs in a thread of
/// its own. It waits until all threads have come to their end.
pub fn replay_threads_over<R: TextReader + Drop, W: Write, E: Write, T: Threads + Wait + Sync>(
    rt: &T,
    alloc: Global,
    options: RunOptions,
    log: Source<'_, R>,
    sources: Vec<Source<'_, R>>,
    output: &mut W,
    errors: &mut E,
) -> io::Result<u8>
    ensures { IfOk result (λ status.
        Prints
        (ReplayPrints ThreadsRan options
        (log.entry.path.now, R.remaining log.entry.reader)
        (map (λ s. (s.path.now, R.remaining s.reader)) sources.entry.items))
        status (W.contents output.old) (W.contents output.new)
        (E.contents errors.old) (E.contents errors.new)) }
{
    match replay_threads_printed(rt, alloc, options, log, sources) {
        Ok(printed) => print(&printed, output, errors),
        Err(AllocError) => no_memory(errors),
    }
}

// What is to be printed.
fn replay_printed<R: TextReader + Drop, V: WatchesRun>(
    alloc: Global,
    options: RunOptions,
    log: Source<'_, R>,
    sources: Vec<Source<'_, R>>,
    watch: &mut V,
) -> Result<Printed, AllocError>
    ensures { IfOk result (
        ReplayPrints RunRan options
        (log.entry.path.now, R.remaining log.entry.reader)
        (map (λ s. (s.path.now, R.remaining s.reader)) sources.entry.items)) }
{
    match to_replay(alloc, log, sources)? {
        ToReplay::Texts(log, texts) => texts_replayed(alloc, options, &log, &texts, watch),
        ToReplay::Fault(printed) => Ok(printed),
    }
}

// What is to be printed of a replay by threads.
fn replay_threads_printed<R: TextReader + Drop, T: Threads + Wait + Sync>(
    rt: &T,
    alloc: Global,
    options: RunOptions,
    log: Source<'_, R>,
    sources: Vec<Source<'_, R>>,
) -> Result<Printed, AllocError>
    ensures { IfOk result (
        ReplayPrints ThreadsRan options
        (log.entry.path.now, R.remaining log.entry.reader)
        (map (λ s. (s.path.now, R.remaining s.reader)) sources.entry.items)) }
{
    match to_replay(alloc, log, sources)? {
        ToReplay::Texts(log, texts) => texts_replayed_by_threads(rt, alloc, options, &log, &texts),
        ToReplay::Fault(printed) => Ok(printed),
    }
}

// What is to be printed for texts that were read.
fn texts_replayed<V: WatchesRun>(
    alloc: Global,
    options: RunOptions,
    log: &Bytes,
    texts: &[Bytes],
    watch: &mut V,
) -> Result<Printed, AllocError>
    ensures { IfOk result (TextsReplay RunRan options log.now texts.now) }
{
    match to_run(alloc, options.expect, texts)? {
        ToRun::Scripts(scripts) => {
            let ran = run_ran(alloc, log.as_slice(), scripts, watch)?;
            ran_printed(alloc, options, log, texts, ran)
        }
        ToRun::Fault(printed) => Ok(printed),
    }
}

// The same, of a replay by threads.
fn texts_replayed_by_threads<T: Threads + Wait + Sync>(
    rt: &T,
    alloc: Global,
    options: RunOptions,
    log: &Bytes,
    texts: &[Bytes],
) -> Result<Printed, AllocError>
    ensures { IfOk result (TextsReplay ThreadsRan options log.now texts.now) }
{
    match to_run(alloc, options.expect, texts)? {
        ToRun::Scripts(scripts) => {
            let ran = threads_ran(rt, alloc, log.as_slice(), scripts)?;
            ran_printed(alloc, options, log, texts, ran)
        }
        ToRun::Fault(printed) => Ok(printed),
    }
}

// What is to be printed for what came of a replay.
fn ran_printed(
    alloc: Global,
    options: RunOptions,
    log: &Bytes,
    texts: &[Bytes],
    ran: Ran,
) -> Result<Printed, AllocError>
    ensures { IfOk result (RanPrints options log.now texts.now ran) }
{
    match ran {
        Ran::Run(run) => {
            let rows = run.history.rows();
            let log = Some(log.as_slice());
            run_shown(alloc, options, texts, &run.transcripts, rows, log, run.stop)
        }
        Ran::Fault(printed) => Ok(printed),
    }
}
