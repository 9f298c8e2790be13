use crate::recording::{NewLogFile, free_path, record_by_host, replayed};
use crate::told::Said;
use commands::DEFAULTS;
use std::fs::{self, remove_file};
use std::io;
use std::sync::Wait;
use std::test::Fail;
use std::thread::Threads;

// Two threads that read a host file each, which differ, while the other reads too: each gets its own.
const READERS: &[&str] = &[
    "host_open /tmp/detio_record_left r\nread 0 9\nread 0 9\n",
    "host_open /tmp/detio_record_right r\nread 1 9\nread 1 9\n",
];

// Whether this says that each got its own.
fn have_their_own(told: &Said) -> bool {
    match str::from_utf8(told.output.as_slice()) {
        Ok(text) => {
            text.contains("read data 6c656674\n")
                && text.contains("read data 726967687421\n")
                && text.starts_with("0 0 1 host_open number 0\n0 1 105 read data 6c656674\n")
        }
        Err(_) => false,
    }
}

fn make_files(host: HostRuntime) -> io::Result<()> {
    fs::write(&host, "/tmp/detio_record_left", b"left")?;
    fs::write(&host, "/tmp/detio_record_right", b"right!")
}

fn remove_files(host: HostRuntime) -> io::Result<()> {
    remove_file(&host, "/tmp/detio_record_left")?;
    remove_file(&host, "/tmp/detio_record_right")
}

// Whether each gets its own, and gets it again from the log once both files are gone.
fn readers_are_replayed(
    rt: &(impl Threads + Wait + Sync),
    log: NewLogFile<'_>,
) -> io::Result<bool> {
    make_files(log.host)?;
    let told = record_by_host(rt, DEFAULTS, log, READERS)?;
    remove_files(log.host)?;
    Ok(have_their_own(&told) && replayed(log.host, log.path, READERS)?.is_as(&told))
}

#[test]
fn each_thread_reads_the_file_that_it_opened(rt: HostRuntime) -> Result<(), Fail> {
    let path = free_path(rt, "two_files")?;
    assert!(rt; readers_are_replayed(&rt, NewLogFile::at(rt, path.as_str()))?);
    remove_file(&rt, path.as_str())?;
    Ok(())
}
