use crate::outcomes::GivenOutcome;
use crate::record::{GivenRun, record};
use machine::Stop;
use posix_terms::OutKind;
use std::alloc::{AllocError, Global};
use std::sync::Wait;
use std::test::Fail;
use std::thread::Threads;

// Opens a file of the host, reads a byte of it, goes to its start and closes it.
const READER: &[u8] = b"host_open /h r\nread 0 1\nlseek 0 0 set\nclose 0\n";

const CAME: &[GivenOutcome] = &[
    GivenOutcome::Ok(OutKind::Open, 0, b""),
    GivenOutcome::Ok(OutKind::Read, 1, b"x"),
    GivenOutcome::Ok(OutKind::Seek, 0, b""),
    GivenOutcome::Ok(OutKind::Close, 0, b""),
];

// Reads a pipe that nobody writes to.
const WAITER: &[u8] = b"pipe\nread r0 1\n";

// Threads that wait at their pipes leave too where the first one stops the run.
const SCRIPTS: &[&[u8]] = &[
    READER, WAITER, WAITER, WAITER, WAITER, WAITER, WAITER, WAITER,
];

// Whether a recorded run of them stops so, where this comes for the first, and the log has so
// much room.
fn stops<R: Threads + Wait + Sync>(
    rt: &R,
    alloc: Global,
    came: &[GivenOutcome],
    room: usize,
    wanted: Stop,
) -> Result<bool, AllocError> {
    let run = GivenRun {
        scripts: SCRIPTS,
        came: &[came],
        patience: 1000,
        version: 1,
    };
    match record(rt, alloc, run, SCRIPTS.len(), room)? {
        Ok(over) => Ok(over.stop == Some(wanted)),
        Err(_) => Ok(false),
    }
}

// A thread whose outside has no more outcomes stops the run, at whichever call that is.
#[test]
fn outcomes_end(rt: HostRuntime) -> Result<(), Fail> {
    for count in 0..CAME.len() {
        let wanted = Stop::EndOfLog(0);
        assert!(rt;
            stops(&rt, rt.alloc(), &CAME[..count], 1000, wanted)?,
            "{count}"
        );
    }
    Ok(())
}

// What comes for the first, how much room the log has, and why the run stops.
const STOPPED: &[(&[GivenOutcome], usize, Stop)] = &[
    // the second outcome is of another kind, or answers more than was asked
    (
        &[
            GivenOutcome::Ok(OutKind::Open, 0, b""),
            GivenOutcome::Ok(OutKind::Seek, 0, b""),
        ],
        1000,
        Stop::Diverged(0, 1),
    ),
    (
        &[
            GivenOutcome::Ok(OutKind::Open, 0, b""),
            GivenOutcome::Ok(OutKind::Read, 2, b"xx"),
        ],
        1000,
        Stop::Diverged(0, 1),
    ),
    // it comes at the clock of the turn before
    (
        &[
            GivenOutcome::At(OutKind::Open, 1, 0),
            GivenOutcome::At(OutKind::Read, 1, 0),
        ],
        1000,
        Stop::Diverged(0, 1),
    ),
    // the log is full inside its header, after it, and inside the first record and the second
    (CAME, 0, Stop::Sink),
    (CAME, 15, Stop::Sink),
    (CAME, 16, Stop::Sink),
    (CAME, 34, Stop::Sink),
    (CAME, 42, Stop::Sink),
];

#[test]
fn outcomes_diverge_and_logs_are_full(rt: HostRuntime) -> Result<(), Fail> {
    for (number, (came, room, wanted)) in STOPPED.iter().enumerate() {
        assert!(rt;
            stops(&rt, rt.alloc(), came, *room, *wanted)?,
            "run {number}"
        );
    }
    Ok(())
}
