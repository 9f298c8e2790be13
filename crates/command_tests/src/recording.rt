ghost use Rattle.std.specs.Prelude.{◌≡◌, ◌≢◌, All, length};
ghost use Rattle.commands.specs.declared.record.NotCreated.TheVariants as not_created;
ghost use Rattle.recorder.specs.Each.{IsUnused};

use crate::devices::{Sources, Text, sources};
use crate::told::{Said, replay, replay_by_threads, with_turns};
use commands::{LogTo, NewLog, NotCreated, RecordOptions, Recorded, record_over};
use host_doors::Outside;
use input_log::FileSink;
use posix_terms::Settings;
use recorder::hosts;
use std::alloc::Global;
use std::fs::{self, remove_file};
use std::sync::Wait;
use std::test::Fail;
use std::thread::Threads;
use std::time::Duration;
use std::{io, process};

/// Where the log of a run goes: to a new file at this path, which has so much room.
#[derive(Clone, Copy, Drop)]
pub(crate) struct NewLogFile<'a> {
    pub host: HostRuntime,
    pub path: &'a str,
    pub room: usize,
}

impl NewLogFile<'_> {
    /// One with room enough for a short run.
    pub(crate) fn at(host: HostRuntime, path: &str) -> NewLogFile<'_> {
        NewLogFile {
            host,
            path,
            room: 4_096,
        }
    }
}

impl NewLog<FileSink> for NewLogFile<'_> {
    ghost refuses = { λ _ reason. reason ≢ not_created.NotALog };

    fn create(self) -> Result<FileSink, NotCreated> {
        match fs::create(&self.host, self.path) {
            Ok(file) => {
                FileSink::new(self.host.alloc(), file, self.room).map_err(|_| NotCreated::Memory)
            }
            Err(_) => Err(NotCreated::Failed),
        }
    }
}

/// A path that no other process takes. What an earlier one of its number left there is removed.
pub(crate) fn free_path(rt: HostRuntime, name: &str) -> Result<String, Fail> {
    let id = process::id(rt.process());
    let path = format!(in rt.alloc(); "/tmp/detio_record_{name}_{id}")?;
    let _ = remove_file(&rt, path.as_str());
    Ok(path)
}

/// Whether these bytes are what the file at this path holds.
pub(crate) fn file_has(rt: HostRuntime, path: &str, bytes: &[u8]) -> io::Result<bool> {
    Ok(fs::read(&rt, path)?.as_slice() == bytes)
}

// With the clocks of the turns, and two seconds before it is said where a run stands.
fn options(settings: Settings) -> RecordOptions {
    RecordOptions {
        settings,
        run: with_turns(true),
        in_turn: false,
        pause: Duration::from_secs(2),
        follow: false,
    }
}

// The status of a recorded run.
fn status_of(recorded: io::Result<Recorded<FileSink>>) -> io::Result<u8> {
    Ok(recorded?.status)
}

/// What `record --turns` tells of scripts with these outsides. The log is "a.log".
pub(crate) fn record<O: Outside + Send + Drop>(
    rt: &(impl Threads + Wait + Sync),
    settings: Settings,
    log: NewLogFile<'_>,
    outsides: Vec<O>,
    scripts: Sources<'_>,
) -> io::Result<Said>
    requires one_each { length outsides.items ≡ length scripts.items }
    requires unused { All (IsUnused O.given O.failures) outsides.items }
{
    let alloc = log.host.alloc();
    let log = LogTo { path: "a.log", log };
    let mut output: Vec<u8> = Vec::new(alloc);
    let mut errors: Vec<u8> = Vec::new(alloc);
    let notices: Vec<u8> = Vec::new(alloc);
    let status = status_of(record_over(
        rt,
        alloc,
        options(settings),
        log,
        outsides,
        scripts,
        notices,
        &mut output,
        &mut errors,
    ));
    Said::new(status, output, errors)
}

/// The same over the host's own files and network.
pub(crate) fn record_by_host(
    rt: &(impl Threads + Wait + Sync),
    settings: Settings,
    log: NewLogFile<'_>,
    scripts: &[&str],
) -> io::Result<Said> {
    let alloc = log.host.alloc();
    let sources = sources(alloc, scripts)?;
    let outsides = hosts(log.host, alloc, scripts.len())?;
    record(rt, settings, log, outsides, sources)
}

/// What `replay --turns` tells of the log at this path, and of scripts.
pub(crate) fn replayed(rt: HostRuntime, path: &str, scripts: &[&str]) -> io::Result<Said> {
    let sources = sources(rt.alloc(), scripts)?;
    let log = Text::File(fs::open(&rt, path)?);
    replay(rt.alloc(), true, log, sources)
}

/// The same of `replay --threads --turns`.
fn replayed_by_threads(
    rt: &(impl Threads + Wait + Sync),
    host: HostRuntime,
    path: &str,
    scripts: &[&str],
) -> io::Result<Said> {
    let sources = sources(host.alloc(), scripts)?;
    let log = Text::File(fs::open(&host, path)?);
    replay_by_threads(rt, host.alloc(), log, sources)
}

/// Whether a run over the host comes to its end, and both replays of its log say the same.
pub(crate) fn is_replayed(
    rt: &(impl Threads + Wait + Sync),
    settings: Settings,
    log: NewLogFile<'_>,
    scripts: &[&str],
) -> io::Result<bool> {
    let told = record_by_host(rt, settings, log, scripts)?;
    Ok(
        told.status == 0
            && replayed(log.host, log.path, scripts)?.is_as(&told)
            && replayed_by_threads(rt, log.host, log.path, scripts)?.is_as(&told),
    )
}
