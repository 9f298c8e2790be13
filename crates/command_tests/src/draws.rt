use crate::devices::{Device, Text, numbered, sources};
use crate::logs::{SHORT_WRITE, THREE_RECORDS, WITH_CLOCKS};
use crate::told::log_at;
use commands::DEFAULTS;
use compare_and_draw::{DrawOptions, Drawn, draw_log, draw_logs, draw_plain};
use posix_terms::Bytes;
use serde_json::{Error, Value};
use std::alloc::{AllocError, Global};
use std::test::Fail;

const PAGE: DrawOptions = DrawOptions {
    page: true,
    trace: false,
};

const BOTH: DrawOptions = DrawOptions {
    page: true,
    trace: true,
};

const LOG: Device = Device::Text(THREE_RECORDS);

const NO_LOG: Device = Device::Text(b"XIOL");

const OTHER_VERSION: Device = Device::Text(b"DIOL\0\x03");

const GOOD: Device = Device::Text(b"end\n");

const BAD: Device = Device::Text(b"x\n");

// The first fault counts: the number of scripts, the first log, a script that cannot be read, the second log, a script
// that is not one, what is wrong with the first log, with the second.
const FAULTS: &[(Device, Device, &[Device], u8, &str)] = &[
    (
        Device::Broken,
        Device::Broken,
        &[],
        2,
        "needs 1 to 16 scripts\n",
    ),
    (
        Device::Broken,
        Device::Broken,
        &[Device::Broken],
        4,
        "cannot read a.log\n",
    ),
    (
        NO_LOG,
        Device::Broken,
        &[BAD, Device::Broken],
        4,
        "cannot read 1\n",
    ),
    (NO_LOG, Device::Endless, &[BAD], 4, "cannot read b.log\n"),
    (NO_LOG, NO_LOG, &[GOOD, BAD], 3, "script 1: bad line 1\n"),
    (NO_LOG, OTHER_VERSION, &[GOOD], 3, "log: bad magic\n"),
    (LOG, OTHER_VERSION, &[GOOD], 3, "log: bad version\n"),
];

// Whether two logs are not drawn, and this is printed.
fn is_fault(
    alloc: Global,
    log: Device,
    other: Device,
    scripts: &[Device],
    status: u8,
    line: &str,
) -> Result<bool, AllocError> {
    let scripts = numbered(alloc, scripts)?;
    let log = log_at("a.log", Text::Device(log));
    let other = log_at("b.log", Text::Device(other));
    match draw_logs(alloc, PAGE, log, other, scripts)? {
        Drawn::Pictures { .. } => Ok(false),
        Drawn::Fault(printed) => {
            Ok(printed.status == status && printed.errors.as_slice() == line.as_bytes())
        }
    }
}

#[test]
fn faults_of_drawings(rt: HostRuntime) -> Result<(), Fail> {
    for (log, other, scripts, status, line) in FAULTS {
        assert!(rt;
            is_fault(rt.alloc(), *log, *other, scripts, *status, line)?,
            "{line}"
        );
    }
    Ok(())
}

// The page and the trace, which are not there where a fault is.
fn pictures(drawn: Drawn) -> (Option<Bytes>, Option<Bytes>) {
    match drawn {
        Drawn::Pictures { page, trace } => (page, trace),
        Drawn::Fault(_) => (None, None),
    }
}

// How many lines of a page begin so, if it was made.
fn lines_with(page: Option<Bytes>, front: &[u8]) -> usize {
    let Some(page) = page else {
        return 0;
    };
    page.as_slice()
        .split(|byte| *byte == b'\n')
        .filter(|line| line.starts_with(front))
        .count()
}

// Whether a trace was made, and has this value at its end.
fn has(alloc: Global, trace: Option<Bytes>, path: &str, value: &str) -> Result<bool, Error> {
    let Some(trace) = trace else {
        return Ok(false);
    };
    let value = Value::from_str(alloc, value)?;
    Ok(Value::from_slice(alloc, trace.as_slice())?.pointer(path) == Some(&value))
}

#[test]
fn each_row_of_a_replay_is_drawn(rt: HostRuntime) -> Result<(), Fail> {
    let alloc = rt.alloc();
    let log = log_at("a.log", Text::Script(WITH_CLOCKS));
    let drawn = draw_log(alloc, BOTH, log, sources(alloc, &[SHORT_WRITE])?)?;
    let (page, trace) = pictures(drawn);
    assert!(rt; lines_with(page, b"<tr class=\"outside\"") == 2);
    assert!(rt; has(alloc, trace, "/traceEvents/2/args/outcome", "2")?);
    Ok(())
}

#[test]
fn a_plain_run_is_drawn_alone(rt: HostRuntime) -> Result<(), Fail> {
    let alloc = rt.alloc();
    let scripts = sources(alloc, &["pipe\nclose 9\n", "dup 0\n"])?;
    let (page, trace) = pictures(draw_plain(alloc, DEFAULTS, PAGE, scripts)?);
    assert!(rt; trace.is_none());
    assert!(rt; lines_with(page, b"<tr class=\"failure\"") == 1);
    Ok(())
}
