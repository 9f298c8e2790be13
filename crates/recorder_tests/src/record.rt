use crate::outcomes::{GivenOutcome, OfThread, doors, outcomes};
use host_doors::ScriptDoors;
use input_log::MemorySink;
use posix_terms::Settings;
use recorder::{BoxedActor, Ended, NotStarted, run_recorded};
use std::alloc::{AllocError, Global};
use std::sync::Wait;
use std::thread::Threads;
use thread_scripts::{Script, ScriptActor, parse};

// Scripts, one for each thread, with what comes for each from outside; how often a call is blocked until it fails; and
// the version of the log.
#[derive(Clone, Copy)]
pub(crate) struct GivenRun<'a> {
    pub scripts: &'a [&'a [u8]],
    pub came: &'a [&'a [GivenOutcome]],
    pub patience: u32,
    pub version: u16,
}

impl GivenRun<'_> {
    pub(crate) fn settings(self) -> Settings {
        Settings {
            patience: self.patience,
            door_cost: 100,
            version: self.version,
        }
    }
}

// A script that is good, or there is no memory for it.
pub(crate) fn script(alloc: Global, text: &[u8]) -> Result<Script, AllocError> {
    match parse(alloc, text) {
        Ok(script) => Ok(script),
        Err(_) => Err(AllocError),
    }
}

pub(crate) fn scripts(alloc: Global, texts: &[&[u8]]) -> Result<Vec<Script>, AllocError> {
    let mut scripts = Vec::new(alloc);
    for text in texts {
        scripts.push(script(alloc, text)?)?;
    }
    Ok(scripts)
}

// Adds an actor with this script.
pub(crate) fn push_actor(
    actors: &mut Vec<BoxedActor>,
    alloc: Global,
    script: Script,
) -> Result<(), AllocError> {
    actors.push(Box::new(alloc, ScriptActor::new(script))?)?;
    Ok(())
}

pub(crate) fn actors(alloc: Global, texts: &[&[u8]]) -> Result<Vec<BoxedActor>, AllocError> {
    let mut actors: Vec<BoxedActor> = Vec::new(alloc);
    for text in texts {
        push_actor(&mut actors, alloc, script(alloc, text)?)?;
    }
    Ok(actors)
}

pub(crate) type Over = Ended<BoxedActor, ScriptDoors<OfThread>, MemorySink>;

pub(crate) type NoRun = NotStarted<BoxedActor, ScriptDoors<OfThread>, MemorySink>;

// Records a run with so many outsides, into a log that has so much room.
pub(crate) fn record<R: Threads + Wait + Sync>(
    rt: &R,
    alloc: Global,
    run: GivenRun<'_>,
    outsides: usize,
    room: usize,
) -> Result<Result<Over, NoRun>, AllocError> {
    let actors = actors(alloc, run.scripts)?;
    let doors = doors(alloc, outcomes(alloc, outsides, run.came)?)?;
    let sink = MemorySink::new(alloc, room)?;
    Ok(run_recorded(rt, alloc, actors, doors, sink, run.settings()))
}
