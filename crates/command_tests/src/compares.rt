use crate::devices::{Device, Text, numbered};
use crate::logs::THREE_RECORDS;
use crate::told::compare;
use std::alloc::Global;
use std::io;
use std::test::Fail;

// Two threads that open a file each.
const ZERO_FIRST: &[u8] = b"DIOL\0\x01\0\x02\0\0\x03\xe8\0\0\0\x64\
    R\0\0\0\0\0\0\x01\0\0\0\0\0\0\0\0\0\0\0\
    R\0\x01\0\0\0\0\x01\0\0\0\0\0\0\0\0\0\0\0\
    E\0\0\0\x02";

const LOG: Device = Device::Text(THREE_RECORDS);

const TWO_THREADS: Device = Device::Text(ZERO_FIRST);

const NO_LOG: Device = Device::Text(b"XIOL");

const OTHER_VERSION: Device = Device::Text(b"DIOL\0\x03");

const GOOD: Device = Device::Text(b"end\n");

const BAD: Device = Device::Text(b"x\n");

// The first fault counts: the number of scripts, what cannot be read,
// with the logs before the scripts, a script, the first log,
// the second.
const FAULTS: &[(Device, Device, &[Device], u8, &str)] = &[
    (
        Device::Broken,
        Device::Broken,
        &[],
        2,
        "needs 1 to 16 scripts\n",
    ),
    (
        Device::Broken,
        Device::Broken,
        &[Device::Broken],
        4,
        "cannot read a.log\n",
    ),
    (
        NO_LOG,
        Device::Endless,
        &[Device::Broken],
        4,
        "cannot read b.log\n",
    ),
    (NO_LOG, NO_LOG, &[BAD, Device::Broken], 4, "cannot read 1\n"),
    (NO_LOG, NO_LOG, &[GOOD, BAD], 3, "script 1: bad line 1\n"),
    (NO_LOG, OTHER_VERSION, &[GOOD], 3, "log: bad magic\n"),
    (
        TWO_THREADS,
        NO_LOG,
        &[GOOD],
        3,
        "log has 2 threads, 1 scripts given\n",
    ),
    (LOG, NO_LOG, &[GOOD], 3, "log: bad magic\n"),
    (
        LOG,
        TWO_THREADS,
        &[GOOD],
        3,
        "log has 2 threads, 1 scripts given\n",
    ),
];

// Whether `compare` says this of what is on these devices, unless memory is wanted.
fn is_fault(
    alloc: Global,
    log: Device,
    other: Device,
    scripts: &[Device],
    status: u8,
    line: &str,
) -> io::Result<bool> {
    let scripts = numbered(alloc, scripts)?;
    let told = compare(alloc, Text::Device(log), Text::Device(other), scripts)?;
    Ok(told.may_be(status, "", line))
}

#[test]
fn faults_of_comparisons(rt: HostRuntime) -> Result<(), Fail> {
    for (log, other, scripts, status, line) in FAULTS {
        assert!(rt;
            is_fault(rt.alloc(), *log, *other, scripts, *status, line)?,
            "{line}"
        );
    }
    Ok(())
}
