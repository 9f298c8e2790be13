use crate::devices::{Device, Text, numbered};
use crate::logs::THREE_RECORDS;
use crate::told::replay;
use std::alloc::Global;
use std::io;
use std::test::Fail;

const LOG: Device = Device::Text(THREE_RECORDS);

const GOOD: Device = Device::Text(b"end\n");

const BAD: Device = Device::Text(b"x\n");

// The number of scripts is looked at first, then the log is read, then the scripts in their order.
const UNREADABLE: &[(Device, &[Device], u8, &str)] = &[
    (Device::Broken, &[], 2, "needs 1 to 16 scripts\n"),
    (
        Device::Broken,
        &[Device::Broken; 17],
        2,
        "needs 1 to 16 scripts\n",
    ),
    (Device::Broken, &[Device::Broken], 4, "cannot read a.log\n"),
    (Device::Endless, &[BAD], 4, "cannot read a.log\n"),
    (LOG, &[BAD, Device::Broken], 4, "cannot read 1\n"),
    (LOG, &[Device::Endless, GOOD], 4, "cannot read 0\n"),
];

// Whether `replay` says this of what is on these devices, unless memory is wanted.
fn tells(
    alloc: Global,
    log: Device,
    scripts: &[Device],
    status: u8,
    line: &str,
) -> io::Result<bool> {
    let scripts = numbered(alloc, scripts)?;
    Ok(replay(alloc, false, Text::Device(log), scripts)?.may_be(status, "", line))
}

#[test]
fn devices_of_replays(rt: HostRuntime) -> Result<(), Fail> {
    for (log, scripts, status, line) in UNREADABLE {
        assert!(rt; tells(rt.alloc(), *log, scripts, *status, line)?, "{line}");
    }
    Ok(())
}
