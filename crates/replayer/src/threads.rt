ghost use Rattle.std.specs.Prelude.{◌≡◌, ◌≢◌, ◌+◌, ◌≤◌, IfOk, IfErr, [], Some, length, vec_len};
ghost use Rattle.input_log.specs.Fronts.{IsFront};
ghost use Rattle.input_log.specs.Grammar.{IsLog};
ghost use Rattle.machine.specs.declared.stop.Stop.TheVariants as stop;
ghost use Rattle.replayer.specs.Outcomes.{first_unused};
ghost use Rattle.replayer.specs.Replay.{IsNoReplay};
ghost use Rattle.replayer.specs.Threads.{EndsBy, IsReplayedBy, doors_by, stop_told};
ghost use Rattle.replayer.specs.declared.fault.ReplayFault.TheVariants as replay_fault;

use crate::fault::ReplayFault;
use crate::laws::runs_agree_with_replays;
use crate::unused::unused_stop;
use call_machine::Stop;
use host_doors::LogDoors;
use input_log::{LogText, MemorySink, decode_front};
use recorder::{Ended, record_actors};
use std::alloc::{AllocError, Global};
use std::sync::Wait;
use std::thread::Threads;
use thread_scripts::Actor;

// How many bytes the end of a log has.
const END_LENGTH: usize = 5;

/// What was handed in for a replay that was not started, and why it was not.
#[derive(Drop)]
pub struct NotReplayed<A: Drop> {
    /// The log's fault, or another number of threads, or no memory.
    pub fault: ReplayFault,
    pub actors: Vec<A>,
}

/// Runs actors again by a log, each in a thread of its own, where what comes from outside is what the log has: each
/// call that goes outside takes the next record of its thread. Nothing is opened, and no thread waits for anything but
/// its turn.
///
/// It is the run that `recorder::record_actors` makes over [`LogDoors`], under the settings of the log's header, and
/// all that is promised of such a run is promised of this one. It writes a log of its own into a sink with room for all
/// that the log has and an end, so it never stops for its sink (`sink`). Of a log that is torn after its header the
/// records before the tear count.
///
/// Unless the stop is `Strayed`, what each thread sees is a beginning of what it sees in the [`crate::replay`] of the
/// log; where nothing stopped the run, it is exactly that. Where `replay` ends at an outcome that does not answer what
/// was asked, it may be more: a beginning of the plain run in which the thread of that outcome stays where it is and
/// the others go on. How far a run comes that is stopped depends on which thread is the first to stop it. Where all
/// threads have ended and a record was not used, the stop is `Diverged`, at the least such thread and its first such
/// record. Where the bytes are not a log, or one of another number of threads, or where there is no memory, the actors
/// are handed back.
pub fn replay_threads<A: Actor + Send + Drop, R: Threads + Wait + Sync>(
    rt: &R,
    alloc: Global,
    log: &[u8],
    actors: Vec<A>,
) -> Result<Ended<A, LogDoors, MemorySink>, NotReplayed<A>>
    ensures replayed { IfOk result
        (λ e. IsReplayedBy A.state log.now actors.items
        (record {
          history = e.history;
          own = e.own.items;
          transcripts = e.transcripts;
          actors = e.actors.items;
          doors = e.outsides.items;
        }) e.sink.bytes e.sink.failures e.stop) }
    ensures sink { IfOk result (λ e. e.stop ≢ Some stop.Sink) }
    ensures back { IfErr result (λ n. n.actors ≡ actors) }
    ensures fault { IfErr result (λ n. IsNoReplay log.now (vec_len actors) n.fault) }
{
    runs_agree_with_replays::<A>();
    match supply_of(alloc, log, actors.len()) {
        Ok(supplied) => run_by(rt, alloc, supplied, actors),
        Err(fault) => Err(NotReplayed { fault, actors }),
    }
}

// A log, what it has for each thread, and a sink with room for the log of a run by it.
#[derive(Drop)]
struct Supplied {
    log: LogText,
    doors: Vec<LogDoors>,
    sink: MemorySink,
}

// What a log supplies to so many threads.
fn supply_of(alloc: Global, log: &[u8], threads: usize) -> Result<Supplied, ReplayFault>
    ensures front { IfOk result (λ s. IsFront log.now s.log) }
    ensures threads { IfOk result (λ s. s.log.header.threads ≡ threads) }
    ensures doors { IfOk result (λ s. s.doors.items ≡ doors_by threads s.log.records) }
    ensures taken { IfOk result (λ s. s.sink.bytes ≡ []) }
    ensures sound { IfOk result (λ s. s.sink.failures ≡ 0) }
    // Room for all that the log has, and for an end.
    ensures room { IfOk result (λ s. length log.now + 5 ≤ s.sink.room) }
    ensures fault { IfErr result (IsNoReplay log.now threads) }
{
    // The run may write an end, which its log may lack.
    let room = log.len() + END_LENGTH;
    let log = decode_front(alloc, log)?;
    if usize::from(log.header.threads) != threads {
        return Err(ReplayFault::Threads);
    }
    let doors = doors_by(alloc, threads, &log)?;
    let sink = MemorySink::new(alloc, room)?;
    Ok(Supplied { log, doors, sink })
}

// What the log has for each of the first threads, so many.
fn doors_by(alloc: Global, threads: usize, log: &LogText) -> Result<Vec<LogDoors>, AllocError>
    ensures { IfOk result (λ doors. doors.items ≡ doors_by threads log.now.records) }
{
    let mut doors = Vec::new(alloc);
    for thread in 0..threads {
        doors.push(LogDoors::new(alloc, log, thread)?)?;
    }
    Ok(doors)
}

// Runs the actors by what was supplied.
fn run_by<A: Actor + Send + Drop, R: Threads + Wait + Sync>(
    rt: &R,
    alloc: Global,
    supplied: Supplied,
    actors: Vec<A>,
) -> Result<Ended<A, LogDoors, MemorySink>, NotReplayed<A>>
    requires log { IsLog supplied.log }
    requires doors { supplied.doors.items ≡ doors_by (vec_len actors) supplied.log.records }
    requires taken { supplied.sink.bytes ≡ [] }
    requires sound { supplied.sink.failures ≡ 0 }
    ensures run { IfOk result (λ e. EndsBy A.state supplied.log actors.items
        (record {
          history = e.history;
          own = e.own.items;
          transcripts = e.transcripts;
          actors = e.actors.items;
          doors = e.outsides.items;
        }) e.sink.bytes e.sink.failures e.stop) }
    ensures back { IfErr result (λ n. n.actors ≡ actors) }
    ensures memory { IfErr result (λ n. n.fault ≡ replay_fault.Memory) }
{
    let Supplied { log, doors, sink } = supplied;
    match record_actors(rt, alloc, actors, doors, sink, log.header.settings()) {
        Ok(ended) => Ok(told(&log, ended)),
        // A log has the settings of a run, and there are doors for each thread, so only memory ran out.
        Err(refused) => Err(NotReplayed {
            fault: ReplayFault::Memory,
            actors: refused.actors,
        }),
    }
}

// The run with the stop that is reported of it.
fn told<A: Drop>(
    log: &LogText,
    ended: Ended<A, LogDoors, MemorySink>,
) -> Ended<A, LogDoors, MemorySink>
    requires log { IsLog log.now }
    ensures { result ≡ record ended {
      stop =
          stop_told ended.stop (first_unused log.now.header.threads log.now.records
          ended.history.rows);
    } }
{
    let mut ended = ended;
    ended.stop = match ended.stop {
        None => unused_stop(log, ended.history.rows()),
        // Its sink has room for all that the log has and an end, so this does not come.
        Some(Stop::Sink) => Some(Stop::Memory),
        Some(cause) => Some(cause),
    };
    ended
}
