use crate::outcomes::{doors, outcomes};
use crate::record::{NoRun, Over, push_actor};
use input_log::MemorySink;
use machine::Stop;
use posix_terms::{Call, Settings};
use recorder::{BoxedActor, run_recorded};
use std::alloc::{AllocError, Global};
use std::sync::Wait;
use std::test::Fail;
use std::thread::Threads;
use thread_scripts::{Line, Number, Script};

// Longer than a script's text can spell: a clock has room for one less.
const TOO_LONG: u64 = 4_611_686_018_427_387_904;

const SETTINGS: Settings = Settings {
    patience: 1000,
    door_cost: 100,
    version: 1,
};

// Work of this length, a pipe that is made, or a byte that is read of it, which nobody writes.
fn line(place: usize, time: u64) -> Line {
    match place {
        0 => Line::Work(time),
        1 => Line::Call(Call::Pipe),
        _ => Line::Call(Call::Read {
            descriptor: Number::Value(0),
            count: Number::Value(1),
        }),
    }
}

// A script of the first of these lines, so many.
fn script(alloc: Global, length: usize, time: u64) -> Result<Script, AllocError> {
    let mut lines = Vec::new(alloc);
    for place in 0..length {
        lines.push(line(place, time))?;
    }
    if Script::accepts(&lines) {
        Ok(Script::of(lines))
    } else {
        Err(AllocError)
    }
}

// A run of threads, so many, each of which has the first lines, so
// many, and works so long; and whether a row is left of it.
#[derive(Clone, Copy)]
struct Filled {
    threads: usize,
    length: usize,
    time: u64,
    has_rows: bool,
}

// A clock is full when a step is asked, at the first attempt of a call, and at a
// later one of a call that is blocked. The fifteen others leave,
// which in the last two may be waiting for their turns.
const FILLED: &[Filled] = &[
    Filled {
        threads: 1,
        length: 1,
        time: TOO_LONG,
        has_rows: false,
    },
    Filled {
        threads: 1,
        length: 2,
        time: TOO_LONG - 1,
        has_rows: false,
    },
    Filled {
        threads: 16,
        length: 3,
        time: TOO_LONG,
        has_rows: false,
    },
    Filled {
        threads: 16,
        length: 3,
        time: TOO_LONG - 1,
        has_rows: false,
    },
    Filled {
        threads: 16,
        length: 3,
        time: TOO_LONG - 200,
        has_rows: true,
    },
];

fn actors(alloc: Global, filled: Filled) -> Result<Vec<BoxedActor>, AllocError> {
    let mut actors: Vec<BoxedActor> = Vec::new(alloc);
    for _ in 0..filled.threads {
        push_actor(
            &mut actors,
            alloc,
            script(alloc, filled.length, filled.time)?,
        )?;
    }
    Ok(actors)
}

fn has_filled(over: &Over, has_rows: bool) -> bool {
    over.stop == Some(Stop::ClockFull) && over.history.rows().is_empty() != has_rows
}

fn record_filled<R: Threads + Wait + Sync>(
    rt: &R,
    alloc: Global,
    filled: Filled,
) -> Result<Result<Over, NoRun>, AllocError> {
    let actors = actors(alloc, filled)?;
    let doors = doors(alloc, outcomes(alloc, filled.threads, &[])?)?;
    let sink = MemorySink::new(alloc, 100)?;
    Ok(run_recorded(rt, alloc, actors, doors, sink, SETTINGS))
}

// Whether the recorded run stops for a full clock.
fn fills_a_clock<R: Threads + Wait + Sync>(
    rt: &R,
    alloc: Global,
    filled: Filled,
) -> Result<bool, AllocError> {
    match record_filled(rt, alloc, filled)? {
        Ok(over) => Ok(has_filled(&over, filled.has_rows)),
        Err(_) => Ok(false),
    }
}

#[test]
fn a_clock_is_full(rt: HostRuntime) -> Result<(), Fail> {
    for (number, filled) in FILLED.iter().enumerate() {
        assert!(rt; fills_a_clock(&rt, rt.alloc(), *filled)?, "run {number}");
    }
    Ok(())
}
