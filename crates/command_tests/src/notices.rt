//! Where a recorded run is said to stand.

use crate::devices::sources;
use crate::recording::{NewLogFile, free_path};
use crate::told::with_turns;
use commands::{LogTo, RecordOptions, record_over};
use posix_terms::Settings;
use recorder::hosts_waiting;
use std::fs::{self, File, remove_file};
use std::io;
use std::sync::Wait;
use std::test::Fail;
use std::thread::Threads;
use std::time::Duration;

// The first thread waits for a peer that never comes, and keeps the table. The second wants it.
const WAITING: &[&str] = &[
    "# a server without a client\n\ntcp_listen 0\ntcp_accept 0\n",
    "work 110\nopen /a rw create\n",
];

const STANDS: &str = "detio: for 300 ms no thread has come to a new step
  thread 0, line 4 of script 0: tcp_accept is outside
  thread 1, line 2 of script 1: open waits for the table, which thread 0 keeps
";

// The accept is answered EINTR at its first turn, after it has waited.
const PATIENCE: Settings = Settings {
    patience: 1,
    door_cost: 100,
    version: 2,
};

// The status of a run of these scripts that says where it stands in this file, after 300 ms. A call waits for a second.
fn run(rt: &(impl Threads + Wait + Sync), log: NewLogFile<'_>, notices: File) -> io::Result<u8> {
    let alloc = log.host.alloc();
    let options = RecordOptions {
        settings: PATIENCE,
        run: with_turns(false),
        in_turn: false,
        pause: Duration::from_millis(300),
        follow: false,
    };
    let mut output: Vec<u8> = Vec::new(alloc);
    let mut errors: Vec<u8> = Vec::new(alloc);
    let outsides = hosts_waiting(log.host, alloc, WAITING.len(), Duration::from_secs(1))?;
    let recorded = record_over(
        rt,
        alloc,
        options,
        LogTo { path: "a.log", log },
        outsides,
        sources(alloc, WAITING)?,
        notices,
        &mut output,
        &mut errors,
    );
    Ok(recorded?.status)
}

#[test]
fn a_run_that_stands_still_says_where_once(rt: HostRuntime) -> Result<(), Fail> {
    let log = free_path(rt, "stands")?;
    let said = free_path(rt, "stands_said")?;
    let notices = fs::create(&rt, said.as_str())?;
    assert!(rt; run(&rt, NewLogFile::at(rt, log.as_str()), notices)? == 0);
    assert!(rt; fs::read(&rt, said.as_str())?.as_slice() == STANDS.as_bytes());
    remove_file(&rt, log.as_str())?;
    remove_file(&rt, said.as_str())?;
    Ok(())
}
