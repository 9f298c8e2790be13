ghost use Rattle.std.specs.Prelude.{◌≡◌, IfOk, true};

use crate::outcomes::{GivenOutcome, add};
use crate::record::{actors, script};
use crate::seen::{Rows, SeenReply, saw};
use host_doors::{Gate, NoGate, ScriptDoors};
use input_log::MemorySink;
use machine::Stop;
use posix_terms::{OutKind, Outcomes, Reply, Settings, Step};
use recorder::{BoxedActor, Ended, NotStarted, record_actors, run_recorded};
use std::alloc::{AllocError, Global};
use std::sync::atomic::{AtomicU64, Ordering};
use std::sync::{Arc, Wait};
use std::test::Fail;
use std::thread::Threads;
use thread_scripts::{Actor, Memory, ScriptActor};

const SETTINGS: Settings = Settings {
    patience: 1000,
    door_cost: 100,
    version: 1,
};

// A gate that every call passes, and is counted there.
#[derive(Drop)]
struct Counting {
    passed: Arc<AtomicU64, Global>,
}

impl Gate for Counting {
    ghost may_answer = { λ _ _ _ answer _. answer ≡ true };

    fn enter(&mut self, _thread: usize, _number: u64) -> bool {
        self.passed.fetch_add(1, Ordering::SeqCst);
        true
    }
}

// An outside that has these outcomes, and counts its calls.
fn counted(
    alloc: Global,
    came: &[GivenOutcome],
    passed: &Arc<AtomicU64, Global>,
) -> Result<ScriptDoors<Counting>, AllocError>
    ensures { IfOk result (λ d. (d.counts.given ≡ 0) × (d.counts.failures ≡ 0)) }
{
    let mut list = Vec::new(alloc);
    add(&mut list, alloc, came)?;
    let passed = Arc::try_clone(passed)?;
    Ok(ScriptDoors::new(Outcomes::from_vec(list), Counting { passed }))
}

// The first has no outcome, and keeps the table until it has one. So the second never has the table.
const OPENERS: &[&[u8]] = &[b"host_open a r\n", b"work 1\nhost_open b w create trunc\n"];

const OPENED: &[GivenOutcome] = &[GivenOutcome::Ok(OutKind::Open, 0, b"")];

type Counted = ScriptDoors<Counting>;

type RecordedEnd = Result<
    Ended<BoxedActor, Counted, MemorySink>,
    NotStarted<BoxedActor, Counted, MemorySink>,
>;

// Whether a run stopped at the first thread's outcome.
fn lacks_the_first_outcome(end: RecordedEnd) -> bool {
    match end {
        Ok(over) => over.stop == Some(Stop::EndOfLog(0)),
        Err(_) => false,
    }
}

// Whether a run of them stops there, and one call went outside.
fn asks_for_one<R: Threads + Wait + Sync>(rt: &R, alloc: Global) -> Result<bool, AllocError> {
    let passed = Arc::new(alloc, AtomicU64::new(0))?;
    let mut doors = Vec::new(alloc);
    doors.push(counted(alloc, &[], &passed)?)?;
    doors.push(counted(alloc, OPENED, &passed)?)?;
    let actors = actors(alloc, OPENERS)?;
    let sink = MemorySink::new(alloc, 100)?;
    let end = run_recorded(rt, alloc, actors, doors, sink, SETTINGS);
    Ok(lacks_the_first_outcome(end) && passed.load(Ordering::SeqCst) == 1)
}

#[test]
fn a_stopped_run_asks_for_nothing_more(rt: HostRuntime) -> Result<(), Fail> {
    for run in 0..20 {
        assert!(rt; asks_for_one(&rt, rt.alloc())?, "run {run}");
    }
    Ok(())
}

// An actor that has no memory for a step, after so many.
#[derive(Drop)]
struct Forgetful {
    script: ScriptActor,
    steps: usize,
}

impl Actor for Forgetful {
    ghost state = { λ a. a.script };

    fn next(&mut self, last: Option<&Reply>) -> Result<Step, Memory> {
        if self.steps == 0 {
            return Err(Memory);
        }
        self.steps -= 1;
        self.script.next(last)
    }
}

const WRITER: &[u8] = b"open /a rw create\nwrite 0 x61\nfstat 0\n";

const SAW: Rows = &[&[(1, SeenReply::Number(0)), (5, SeenReply::Count(1))]];

// Whether all that such an actor saw comes back where it has no memory for its third step.
fn is_handed_back<R: Threads + Wait + Sync>(rt: &R, alloc: Global) -> Result<bool, AllocError> {
    let script = ScriptActor::new(script(alloc, WRITER)?);
    let mut actors = Vec::new(alloc);
    actors.push(Forgetful { script, steps: 2 })?;
    let mut doors = Vec::new(alloc);
    doors.push(ScriptDoors::new(Outcomes::from_vec(Vec::new(alloc)), NoGate))?;
    let sink = MemorySink::new(alloc, 100)?;
    Ok(
        match record_actors(rt, alloc, actors, doors, sink, SETTINGS) {
            Ok(over) => over.stop == Some(Stop::Memory) && saw(&over.transcripts, SAW),
            Err(_) => false,
        },
    )
}

#[test]
fn what_was_seen_comes_back(rt: HostRuntime) -> Result<(), Fail> {
    assert!(rt; is_handed_back(&rt, rt.alloc())?);
    Ok(())
}
