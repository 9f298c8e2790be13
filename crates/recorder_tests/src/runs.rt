use crate::outcomes::{GivenOutcome, outcomes};
use crate::record::{GivenRun, Over, record, scripts};
use crate::replay::is_replayed;
use call_machine::{Plain, plain_run};
use posix_terms::{Errno, OutKind, PackedRow};
use std::alloc::{AllocError, Global};
use std::sync::Wait;
use std::test::Fail;
use std::thread::Threads;

// Opens a file of the host and writes to it twice.
pub(crate) const SHORT_WRITE: &[u8] =
    b"host_open out w create\nwrite 0 x0001020304050607\nwrite 0 x0304\n";

// What comes for its open, for a short write, and for one that fails.
pub(crate) const WRITTEN: &[GivenOutcome] = &[
    GivenOutcome::Ok(OutKind::Open, 0, b""),
    GivenOutcome::Ok(OutKind::Write, 3, b""),
    GivenOutcome::Fail(OutKind::Write, Errno::EIO),
];

// Scripts for one thread, with what comes for it from outside, and the run's patience.
const ALONE: &[(&[u8], &[GivenOutcome], u32)] = &[
    // first file
    (
        b"open /a rw create\nwrite 0 x68656c6c6f\nlseek 0 0 set\nread 0 9\nclose 0\n",
        &[],
        1000,
    ),
    // empty script
    (b"", &[], 1000),
    // gap reads zero
    (
        b"open /a rw create\nlseek 0 10 set\nfstat 0\nwrite 0 xff\npread 0 11 0\n",
        &[],
        1000,
    ),
    // write at the limit
    (
        b"open /a rw create\nlseek 0 65530 set\nwrite 0 x00010203040506070809\nwrite 0 x00\nwrite 0 x\n",
        &[],
        1000,
    ),
    // dup2 from nothing
    (
        b"open /a rw create\nwrite 0 x61\ndup2 5 0\npread 0 1 0\ndup2 0 0\n",
        &[],
        1000,
    ),
    // full table
    (
        b"set r2 -32\nlabel more\nopen /a rw create\nadd r2 1\njzero r2 done\njump more\nlabel done\nopen /a r\nclose 31\npipe\nclose 7\npipe\n",
        &[],
        1000,
    ),
    // shared offset
    (
        b"open /a rw create\ndup 0\nwrite 0 x6162\nlseek 1 0 cur\ndup_from 0 5\ndup_from 0 32\nread 0 40000\n",
        &[],
        1000,
    ),
    // unlinked but open
    (
        b"open /a rw create\nwrite 0 x6162\nunlink /a\nfstat 0\npread 0 2 0\nclose 0\nopen /a r\n",
        &[],
        1000,
    ),
    // directory refusals
    (
        b"mkdir /d\nmkdir /d\nopen /d r\nopen /d/x rw create\nopen /d/x/y r\nrmdir /d\nunlink /d\nrmdir /\nlink /d/x /y\nunlink /d/x\nrmdir /d\nfstat 0\nopen /abcdefghijklmno r\nopen \"\" r\n",
        &[],
        1000,
    ),
    // full pipe
    (
        b"open /z rw create\nftruncate 0 32767\nread 0 32767\npipe\nsetfl 2 nonblock\nwrite 2 b0\nwrite 2 x00\nwrite 2 x00\nclose 1\nwrite 2 x00\nwrite 2 x\nshutdown 2 both\n",
        &[],
        1000,
    ),
    // half-closed pair
    (
        b"socketpair\nwrite 0 x6162\nshutdown 0 write\nwrite 0 x63\nread 1 9\nread 1 9\nwrite 1 x64\nread 0 1\nclose 1\nread 0 1\n",
        &[],
        1000,
    ),
    // positioned write and truncate
    (
        b"open /a w create append\nwrite 0 x616263\npwrite 0 x7a 0\nftruncate 0 5\nftruncate 0 65537\nftruncate 0 -1\nlseek 0 0 cur\npread 0 1 0\nopen /a r\npread 1 9 0\nlseek 1 -1 set\nlseek 1 9223372036854775807 end\n",
        &[],
        1000,
    ),
    // patience on a pipe
    (
        b"pipe\nread 0 4\nsetfl 0 nonblock\nread 0 4\nclose 1\nread 0 4\n",
        &[],
        3,
    ),
    // short host write
    (SHORT_WRITE, WRITTEN, 1000),
    // missing host file
    (
        b"host_open nofile r\nopen /b rw create\n",
        &[GivenOutcome::Fail(OutKind::Open, Errno::ENOENT)],
        1000,
    ),
];

const OPENER: &[u8] = b"open /a rw create\n";

// Scripts for threads together, which need nothing from outside, and the run's patience.
const TOGETHER: &[(&[&[u8]], u32)] = &[
    (&[OPENER; 2], 1000),
    (&[OPENER; 16], 1000),
    // shared append
    (
        &[
            b"open /a w create append\nwrite 0 x6161\n",
            b"open /a rw create append\nwrite 1 x62\npread 1 9 0\n",
        ],
        1000,
    ),
    // close and reopen
    (
        &[
            b"open /a rw create\nwrite 0 x61\n",
            b"work 6\nclose 0\nopen /a r\nread 0 1\n",
        ],
        1000,
    ),
    // reader waits for writer
    (READER_WAITS, 1000),
    (READER_WAITS, 5),
    (READER_WAITS, 6),
];

const READER_WAITS: &[&[u8]] = &[b"pipe\nwork 20\nwrite 1 x7a\n", b"work 5\nread 0 1\n"];

pub(crate) fn plain(alloc: Global, run: GivenRun<'_>) -> Result<Plain, AllocError> {
    let scripts = scripts(alloc, run.scripts)?;
    let outcomes = outcomes(alloc, run.scripts.len(), run.came)?;
    match plain_run(alloc, scripts, outcomes, run.settings()) {
        Ok(plain) => Ok(plain),
        Err(_) => Err(AllocError),
    }
}

fn are_same(ones: &[PackedRow], others: &[PackedRow]) -> bool {
    ones.len() == others.len()
        && ones
            .iter()
            .zip(others)
            .all(|(one, other)| one.is_same(other))
}

// Whether a recorded run says the same as the plain one: rows with their turns, and log; and
// nothing stopped it.
fn is_as_plain(plain: &Plain, over: &Over) -> bool {
    are_same(plain.history.rows(), over.history.rows())
        && plain.log.as_slice() == over.sink.bytes()
        && over.stop.is_none()
}

fn is_recorded_as<R: Threads + Wait + Sync>(
    rt: &R,
    alloc: Global,
    run: GivenRun<'_>,
    plain: &Plain,
) -> Result<bool, AllocError> {
    match record(rt, alloc, run, run.scripts.len(), 1000)? {
        Ok(over) => Ok(is_as_plain(plain, &over)),
        Err(_) => Ok(false),
    }
}

// Whether so many recorded runs tell the same as the plain one, and so many
// replays of their log, which is its own too, show what it did.
fn are_as_plain<R: Threads + Wait + Sync>(
    rt: &R,
    alloc: Global,
    run: GivenRun<'_>,
    times: usize,
    replays: usize,
) -> Result<bool, AllocError> {
    let plain = plain(alloc, run)?;
    for _ in 0..times {
        if !is_recorded_as(rt, alloc, run, &plain)? {
            return Ok(false);
        }
    }
    for _ in 0..replays {
        if !is_replayed(
            rt,
            alloc,
            run.scripts,
            &plain.transcripts,
            plain.log.as_slice(),
        )? {
            return Ok(false);
        }
    }
    Ok(true)
}

// Whether one run of this script tells the same, and one replay.
fn is_as_plain_alone<R: Threads + Wait + Sync>(
    rt: &R,
    alloc: Global,
    script: &[u8],
    came: &[GivenOutcome],
    patience: u32,
    version: u16,
) -> Result<bool, AllocError> {
    let run = GivenRun {
        scripts: &[script],
        came: &[came],
        patience,
        version,
    };
    are_as_plain(rt, alloc, run, 1, 1)
}

#[test]
fn one_thread(rt: HostRuntime) -> Result<(), Fail> {
    for (script, came, patience) in ALONE {
        for version in [1, 2] {
            assert!(rt; is_as_plain_alone(&rt, rt.alloc(), script, came, *patience, version)?);
        }
    }
    Ok(())
}

// The run of these scripts, which need nothing from outside.
fn run_of<'a>(scripts: &'a [&'a [u8]], patience: u32) -> GivenRun<'a> {
    GivenRun {
        scripts,
        came: &[],
        patience,
        version: 2,
    }
}

#[test]
fn threads_together(rt: HostRuntime) -> Result<(), Fail> {
    for (scripts, patience) in TOGETHER {
        assert!(rt; are_as_plain(&rt, rt.alloc(), run_of(scripts, *patience), 20, 20)?);
    }
    Ok(())
}

const APPENDER: &[u8] =
    b"open /a rw create append\nset r2 10\nlabel more\nwrite 0 x61\nadd r2 -1\njzero r2 done\njump more\nlabel done\npread 0 99 0\nclose 0\n";

const APPENDERS: &[&[u8]] = &[APPENDER; 16];

// Each thread opens one file, appends ten bytes at descriptor 0,
// reads what is there and closes it, so that all contend.
#[test]
fn sixteen_that_contend(rt: HostRuntime) -> Result<(), Fail> {
    assert!(rt; are_as_plain(&rt, rt.alloc(), run_of(APPENDERS, 1000), 300, 0)?);
    Ok(())
}
