use crate::recording::{NewLogFile, file_has, record_by_host};
use commands::DEFAULTS;
use posix_terms::Settings;
use std::fs::{self, remove_file};
use std::test::Fail;

// Scripts that are not run, and the line for their first fault.
const REFUSED: &[(&[&str], u8, &str)] = &[
    (&[], 2, "needs 1 to 16 scripts\n"),
    (&[""; 17], 2, "needs 1 to 16 scripts\n"),
    (&["close 0\n", "close\n"], 3, "script 1: bad line 1\n"),
];

// No fault of the scripts makes a log, or empties one that is there.
#[test]
fn faults_leave_the_log_as_it_was(rt: HostRuntime) -> Result<(), Fail> {
    let log = NewLogFile::at(rt, "/tmp/detio_record_faults");
    fs::write(&rt, log.path, b"as it was")?;
    for (scripts, status, line) in REFUSED {
        assert!(rt; record_by_host(&rt, DEFAULTS, log, scripts)?.is(*status, "", line));
    }
    assert!(rt; file_has(rt, log.path, b"as it was")?);
    remove_file(&rt, log.path)?;
    Ok(())
}

// Nor do settings that are out of range, or a script that is too long.
#[test]
fn later_faults_leave_the_log_as_it_was(rt: HostRuntime) -> Result<(), Fail> {
    let log = NewLogFile::at(rt, "/tmp/detio_record_later_faults");
    fs::write(&rt, log.path, b"as it was")?;
    let long = "\n".repeat(rt.alloc(), 1001)?;
    assert!(rt;
        record_by_host(&rt, DEFAULTS, log, &[long.as_str()])?.is(3, "", "script 0: too long\n")
    );
    let line = "patience and door cost are 1 to 1000000, and the version of the log is 1 or 2\n";
    assert!(rt; record_by_host(&rt, NO_PATIENCE, log, &["end"])?.is(2, "", line));
    assert!(rt; file_has(rt, log.path, b"as it was")?);
    remove_file(&rt, log.path)?;
    Ok(())
}

const NO_PATIENCE: Settings = Settings {
    patience: 0,
    door_cost: 100,
    version: 1,
};
