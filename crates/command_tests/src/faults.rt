use crate::devices::{Device, numbered, sources};
use crate::told::{Said, plain, with_turns};
use commands::{DEFAULTS, NoWatch, plain_over};
use posix_terms::Settings;
use std::alloc::Global;
use std::io;
use std::test::Fail;

const OUT_OF_RANGE: &[(u32, u32, u16)] = &[
    (0, 100, 2),
    (1_000_001, 100, 2),
    (1000, 0, 1),
    (1000, 1_000_001, 1),
    (1000, 100, 0),
    (1000, 100, 3),
];

const BAD_SCRIPT: Device = Device::Text(b"x\n");

const GOOD_SCRIPT: Device = Device::Text(b"end\n");

// Settings out of range are told last. The command line lets none through.
const REFUSED: &[(&[Device], u8, &str)] = &[
    (
        &[GOOD_SCRIPT],
        2,
        "patience and door cost are 1 to 1000000, and the version of the log is 1 or 2\n",
    ),
    (&[BAD_SCRIPT], 3, "script 0: bad line 1\n"),
    (&[], 2, "needs 1 to 16 scripts\n"),
];

// Whether `plain` tells just this of scripts on these devices, and prints nothing.
fn refuses(
    alloc: Global,
    settings: Settings,
    devices: &[Device],
    status: u8,
    line: &str,
) -> io::Result<bool> {
    Ok(plain(alloc, settings, false, numbered(alloc, devices)?)?.is(status, "", line))
}

// Whether that is told of each of these rows.
fn refuses_all(
    alloc: Global,
    settings: Settings,
    rows: &[(&[Device], u8, &str)],
) -> io::Result<bool> {
    for (devices, status, line) in rows {
        if !refuses(alloc, settings, devices, *status, line)? {
            return Ok(false);
        }
    }
    Ok(true)
}

#[test]
fn faults_of_settings(rt: HostRuntime) -> Result<(), Fail> {
    for (patience, door_cost, version) in OUT_OF_RANGE {
        let settings = Settings {
            patience: *patience,
            door_cost: *door_cost,
            version: *version,
        };
        assert!(rt;
            refuses_all(rt.alloc(), settings, REFUSED)?,
            "{patience} {door_cost} {version}"
        );
    }
    Ok(())
}

const UNREADABLE: &[(&[Device], u8, &str)] = &[
    // The number of scripts is looked at before anything is read.
    (&[], 2, "needs 1 to 16 scripts\n"),
    (&[Device::Broken; 17], 2, "needs 1 to 16 scripts\n"),
    // A script that cannot be read is told before the bad lines of others, and the first of two.
    (&[Device::Broken, GOOD_SCRIPT], 4, "cannot read 0\n"),
    (&[Device::Endless, BAD_SCRIPT], 4, "cannot read 0\n"),
    (&[BAD_SCRIPT, Device::Broken], 4, "cannot read 1\n"),
    (&[GOOD_SCRIPT, Device::Endless], 4, "cannot read 1\n"),
    (&[Device::Endless, Device::Broken], 4, "cannot read 0\n"),
];

#[test]
fn failing_readers(rt: HostRuntime) -> Result<(), Fail> {
    assert!(rt; refuses_all(rt.alloc(), DEFAULTS, UNREADABLE)?);
    Ok(())
}

// A file is read up to its greatest size.
const GREATEST: &[(&[Device], u8, &str)] = &[
    (&[Device::EmptyLines(16_777_216)], 3, "script 0: too long\n"),
    (&[Device::EmptyLines(16_777_217)], 4, "cannot read 0\n"),
];

#[test]
fn a_file_is_read_up_to_its_greatest_size(rt: HostRuntime) -> Result<(), Fail> {
    assert!(rt; refuses_all(rt.alloc(), DEFAULTS, GREATEST)?);
    Ok(())
}

// What `plain` tells where its output cannot be written.
fn plain_to_full_device(alloc: Global) -> io::Result<Said> {
    let scripts = sources(alloc, &["close 0"])?;
    let mut full = Device::Broken;
    let mut errors: Vec<u8> = Vec::new(alloc);
    let options = with_turns(false);
    let watch = &mut NoWatch;
    let status = plain_over(
        alloc,
        DEFAULTS,
        options,
        scripts,
        watch,
        &mut full,
        &mut errors,
    );
    Said::new(status, Vec::new(alloc), errors)
}

#[test]
fn full_device(rt: HostRuntime) -> Result<(), Fail> {
    assert!(rt; plain_to_full_device(rt.alloc())?.is(4, "", "cannot write -\n"));
    Ok(())
}
