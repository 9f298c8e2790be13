ghost use Rattle.std.specs.Prelude.{All};
ghost use Rattle.recorder.specs.Each.{IsUnused};

use crate::actors::scripts;
use host_doors::Outside;
use input_log::MemorySink;
use machine::Stop;
use posix_terms::{Settings, Transcripts};
use recorder::{BoxedActor, run_recorded};
use replayer::{Replayed, replay};
use std::alloc::Global;
use std::sync::Wait;
use std::thread::Threads;
use thread_scripts::ScriptActor;

const SETTINGS: Settings = Settings {
    patience: 1000,
    door_cost: 100,
    version: 2,
};

// So many bytes of the log there is room for. Where it runs out the run
// stops, and the log is good up to its last whole record.
const LOG_ROOM: usize = 65_536;

// What is left of a recorded run: what both threads saw, the log, and why it stopped, if it did.
#[derive(Drop)]
pub(crate) struct RecordedRun {
    pub transcripts: Transcripts,
    pub sink: MemorySink,
    pub stop: Option<Stop>,
}

// Runs client and server, with one of these outsides for each.
pub(crate) fn record<O: Outside + Send + Drop, R: Threads + Wait + Sync>(
    rt: &R,
    alloc: Global,
    path: &str,
    outsides: Vec<O>,
) -> anyhow::Result<RecordedRun>
    requires unused { All (IsUnused O.given O.failures) outsides.items }
{
    let mut actors: Vec<BoxedActor> = Vec::new(alloc);
    for script in scripts(alloc, path)? {
        actors.push(Box::new(alloc, ScriptActor::new(script))?)?;
    }
    let sink = MemorySink::new(alloc, LOG_ROOM)?;
    match run_recorded(rt, alloc, actors, outsides, sink, SETTINGS) {
        Ok(ended) => Ok(RecordedRun {
            transcripts: ended.transcripts,
            sink: ended.sink,
            stop: ended.stop,
        }),
        // All that was handed in is handed back here, beside the fault.
        Err(refused) => Err(refused.fault.into()),
    }
}

// Runs the same scripts by the log.
pub(crate) fn replay_log(alloc: Global, path: &str, log: &[u8]) -> anyhow::Result<Replayed> {
    match replay(alloc, log, scripts(alloc, path)?) {
        Ok(replayed) => Ok(replayed),
        Err(fault) => Err(fault.into()),
    }
}

// Whether the threads of two runs saw the same: the same replies to the same calls, at the same turns.
pub(crate) fn saw_the_same(one: &Transcripts, other: &Transcripts) -> bool {
    if one.threads().len() != other.threads().len() {
        return false;
    }
    for (a, b) in one.threads().iter().zip(other.threads().iter()) {
        if a.rows() != b.rows() {
            return false;
        }
    }
    true
}
