use crate::hostile::runs::{
    GivenRun, LOG_WITH_CLOCKS, PATIENCE_ON_A_PIPE, PATIENCE_SEEN, READER_SEEN, READER_WAITS,
    SEEN_WITH_CLOCKS, SHORT_HOST_WRITE, SHORT_LOG, SHORT_SEEN, SHORT_WRITE_WITH_CLOCKS, WantedEnd,
};
use crate::hostile::ways::{
    Outturn, memory_if, plain, recorded, replayed, replayed_by_threads, whole_if,
};
use crate::record::scripts;
use input_log::{Header, LogFault, LogReader, LogText, LogWriter, MemorySink, decode};
use machine::Machine;
use posix_terms::Settings;
use replayer::{ReplayFault, upgrade};
use std::alloc::{AllocError, Global};
use std::sync::Wait;
use std::test::Fail;
use std::thread::Threads;
use thread_scripts::{Actor, Memory, ScriptActor, ScriptFault, Step, parse};

// Each test here makes its calls twice, and has to pass whichever allocation is
// refused, by `rt try --test --fail-alloc`: since that is one, each answer is
// whole or says that there is no memory, and one of two is whole. What a
// test itself wants memory for counts as such an answer. See
// tools/refused-allocations.

const RUNS: &[(GivenRun, WantedEnd)] = &[
    (PATIENCE_ON_A_PIPE, PATIENCE_SEEN),
    (SHORT_HOST_WRITE, SHORT_SEEN),
    (SHORT_WRITE_WITH_CLOCKS, SEEN_WITH_CLOCKS),
    (READER_WAITS, READER_SEEN),
];

// Whether of two answers none is wrong, and one at least is whole.
fn is_one_whole(first: Result<Outturn, AllocError>, second: Result<Outturn, AllocError>) -> bool {
    match (first, second) {
        (Ok(Outturn::Whole), Ok(told)) | (Ok(told), Ok(Outturn::Whole)) => told != Outturn::Wrong,
        (Ok(Outturn::Whole), Err(_)) | (Err(_), Ok(Outturn::Whole)) => true,
        _ => false,
    }
}

// ## Scripts

// What `parse` tells of a text of so many lines.
fn parsed(alloc: Global, text: &[u8], lines: usize) -> Outturn {
    match parse(alloc, text) {
        Ok(script) => whole_if(script.lines().len() == lines),
        Err(fault) => memory_if(fault == ScriptFault::Memory),
    }
}

// How many lines a text has, each of which has its end.
fn count(text: &[u8]) -> usize {
    text.iter().filter(|byte| **byte == b'\n').count()
}

#[test]
fn parse_is_whole_or_wants_memory(rt: HostRuntime) {
    let alloc = rt.alloc();
    for (run, _) in RUNS {
        for text in run.scripts {
            let lines = count(text);
            let (first, second) = (parsed(alloc, text, lines), parsed(alloc, text, lines));
            assert!(rt; is_one_whole(Ok(first), Ok(second)));
        }
    }
}

// The next step of an actor that hears no reply. Without memory it is as
// it was, and gives the same step when it is asked again.
fn next(actor: &mut ScriptActor) -> Result<Step, Memory> {
    match actor.next(None) {
        Ok(step) => Ok(step),
        Err(Memory) => actor.next(None),
    }
}

// Whether a step is that of this line.
fn is_step(step: &Step, line: &[u8]) -> bool {
    match step {
        Step::Work(_) => line.starts_with(b"work "),
        Step::Call(call) => line.starts_with(call.kind().word().as_bytes()),
        Step::End => line.is_empty(),
    }
}

// What an actor's steps tell, one for each line of its text; after the last is its end.
fn steps(alloc: Global, text: &[u8]) -> Result<Outturn, AllocError> {
    let Ok(script) = parse(alloc, text) else {
        return Err(AllocError);
    };
    let mut actor = ScriptActor::new(script);
    for line in text.split(|byte| *byte == b'\n') {
        match next(&mut actor) {
            Ok(step) if is_step(&step, line) => {}
            _ => return Ok(Outturn::Wrong),
        }
    }
    Ok(Outturn::Whole)
}

#[test]
fn next_is_whole_or_wants_memory(rt: HostRuntime) {
    for (run, _) in RUNS {
        for text in run.scripts {
            let first = steps(rt.alloc(), text);
            assert!(rt; is_one_whole(first, steps(rt.alloc(), text)));
        }
    }
}

// ## Logs

fn log(read: Result<LogText, LogFault>) -> Outturn {
    match read {
        Ok(log) => whole_if(log.closed && log.records.as_slice().len() == 3),
        Err(fault) => memory_if(fault == LogFault::Memory),
    }
}

#[test]
fn decode_is_whole_or_wants_memory(rt: HostRuntime) {
    let (first, second) = (
        log(decode(rt.alloc(), SHORT_LOG)),
        log(decode(rt.alloc(), SHORT_LOG)),
    );
    assert!(rt; is_one_whole(Ok(first), Ok(second)));
}

// What a reader tells that is fed pieces of this length. Once it wants memory it answers so again.
fn fed(alloc: Global, length: usize) -> Outturn {
    let mut reader = LogReader::new(alloc);
    let mut wants = false;
    for piece in SHORT_LOG.chunks(length.max(1)) {
        match reader.feed(piece) {
            Ok(()) if !wants => {}
            Err(LogFault::Memory) => wants = true,
            _ => return Outturn::Wrong,
        }
    }
    match reader.finish() {
        Err(LogFault::Memory) if wants => Outturn::Memory,
        _ if wants => Outturn::Wrong,
        read => log(read),
    }
}

#[test]
fn feed_is_whole_or_wants_memory(rt: HostRuntime) {
    let alloc = rt.alloc();
    for length in [1, 7, 19, 78] {
        let (first, second) = (fed(alloc, length), fed(alloc, length));
        assert!(rt; is_one_whole(Ok(first), Ok(second)), "{length}");
    }
}

// ## The machine

const HEADER: Header = Header {
    version: 1,
    threads: 2,
    patience: 1000,
    door_cost: 100,
};

const SETTINGS: Settings = Settings {
    patience: 1000,
    door_cost: 100,
    version: 1,
};

// What a new machine tells. Without memory the writer comes back, whose sink has the header.
#[tactic(auto, unfolding(input_log::specs::Grammar::in_range))]
fn started(alloc: Global) -> Result<Outturn, AllocError> {
    match LogWriter::begin(MemorySink::new(alloc, 21)?, HEADER) {
        Ok(log) => Ok(
            match Machine::<MemorySink, u8>::new(alloc, 2, SETTINGS, log) {
                Ok(machine) => whole_if(machine.len() == 2 && machine.history().is_empty()),
                Err(log) => memory_if(log.into_sink().bytes().len() == 16),
            },
        ),
        Err(_) => Ok(Outturn::Wrong),
    }
}

#[test]
fn a_new_machine_is_whole_or_wants_memory(rt: HostRuntime) {
    let first = started(rt.alloc());
    assert!(rt; is_one_whole(first, started(rt.alloc())));
}

// ## Runs and replays

#[test]
fn a_plain_run_is_whole_or_wants_memory(rt: HostRuntime) {
    for (run, wanted) in RUNS {
        let first = plain(rt.alloc(), *run, *wanted);
        assert!(rt; is_one_whole(first, plain(rt.alloc(), *run, *wanted)));
    }
}

#[test]
fn a_replay_is_whole_or_wants_memory(rt: HostRuntime) {
    for (run, wanted) in RUNS {
        let first = replayed(rt.alloc(), wanted.log, *run, *wanted);
        let second = replayed(rt.alloc(), wanted.log, *run, *wanted);
        assert!(rt; is_one_whole(first, second));
    }
}

// What the upgrade of the short host write's log tells.
fn upgraded(alloc: Global) -> Result<Outturn, AllocError> {
    let scripts = scripts(alloc, SHORT_HOST_WRITE.scripts)?;
    Ok(match upgrade(alloc, SHORT_LOG, scripts) {
        Ok(log) => whole_if(log.as_slice() == LOG_WITH_CLOCKS),
        Err(fault) => memory_if(matches!(fault, ReplayFault::Memory)),
    })
}

#[test]
fn an_upgrade_is_whole_or_wants_memory(rt: HostRuntime) {
    let first = upgraded(rt.alloc());
    assert!(rt; is_one_whole(first, upgraded(rt.alloc())));
}

fn is_recorded<R: Threads + Wait + Sync>(
    rt: &R,
    alloc: Global,
    run: GivenRun,
    wanted: WantedEnd,
) -> bool {
    let first = recorded(rt, alloc, run, 110, wanted);
    is_one_whole(first, recorded(rt, alloc, run, 110, wanted))
}

#[test]
fn a_recorded_run_is_whole_or_wants_memory(rt: HostRuntime) {
    for (run, wanted) in RUNS {
        assert!(rt; is_recorded(&rt, rt.alloc(), *run, *wanted));
    }
}

fn is_replayed_by_threads<R: Threads + Wait + Sync>(
    rt: &R,
    alloc: Global,
    run: GivenRun,
    wanted: WantedEnd,
) -> bool {
    let first = replayed_by_threads(rt, alloc, wanted.log, run, wanted);
    let second = replayed_by_threads(rt, alloc, wanted.log, run, wanted);
    is_one_whole(first, second)
}

#[test]
fn a_replay_by_threads_is_whole_or_wants_memory(rt: HostRuntime) {
    for (run, wanted) in RUNS {
        assert!(rt; is_replayed_by_threads(&rt, rt.alloc(), *run, *wanted));
    }
}
