use crate::devices::{Sources, Text};
use commands::{
    NoWatch, RunOptions, Source, View, plain_over, replay_over, replay_threads_over, show_over,
};
use compare_and_draw::{CompareOptions, compare_over};
use posix_terms::Settings;
use std::alloc::Global;
use std::io;
use std::sync::Wait;
use std::thread::Threads;

/// What a command prints on standard output and on standard error, and its exit status.
#[derive(Drop)]
pub struct Said {
    pub status: u8,
    pub output: Vec<u8>,
    pub errors: Vec<u8>,
}

impl Said {
    /// Of a command that answered this, and wrote this.
    pub(crate) fn new(
        status: io::Result<u8>,
        output: Vec<u8>,
        errors: Vec<u8>,
    ) -> io::Result<Said> {
        Ok(Said {
            status: status?,
            output,
            errors,
        })
    }

    /// Whether just this was told.
    pub(crate) fn is(&self, status: u8, output: &str, errors: &str) -> bool {
        self.status == status
            && self.output.as_slice() == output.as_bytes()
            && self.errors.as_slice() == errors.as_bytes()
    }

    /// The same, or that memory is wanted.
    pub(crate) fn may_be(&self, status: u8, output: &str, errors: &str) -> bool {
        self.is(status, output, errors) || self.is(4, "", "no memory\n")
    }

    /// Whether another command told the same.
    pub(crate) fn is_as(&self, other: &Said) -> bool {
        self.status == other.status
            && self.output.as_slice() == other.output.as_slice()
            && self.errors.as_slice() == other.errors.as_slice()
    }

    /// How many lines were printed, where the status is 0.
    pub(crate) fn lines(&self) -> Option<usize> {
        if self.status != 0 {
            return None;
        }
        Some(self.output.iter().filter(|byte| **byte == b'\n').count())
    }
}

/// A run with the clocks of its turns, or without. What the replies are held to is in `examples/`.
pub(crate) fn with_turns(turns: bool) -> RunOptions {
    RunOptions {
        view: View {
            turns,
            ..View::default()
        },
        json: false,
        why: false,
        expect: false,
    }
}

/// What `plain` tells of scripts.
pub(crate) fn plain(
    alloc: Global,
    settings: Settings,
    turns: bool,
    scripts: Sources<'_>,
) -> io::Result<Said> {
    let mut output: Vec<u8> = Vec::new(alloc);
    let mut errors: Vec<u8> = Vec::new(alloc);
    let options = with_turns(turns);
    let watch = &mut NoWatch;
    let status = plain_over(
        alloc,
        settings,
        options,
        scripts,
        watch,
        &mut output,
        &mut errors,
    );
    Said::new(status, output, errors)
}

/// A log at this path.
pub(crate) fn log_at<'a>(path: &'static str, log: Text<'a>) -> Source<'static, Text<'a>> {
    Source { path, reader: log }
}

/// What `replay` tells of a log, which is "a.log", and of scripts.
pub(crate) fn replay<'a>(
    alloc: Global,
    turns: bool,
    log: Text<'a>,
    scripts: Sources<'a>,
) -> io::Result<Said> {
    let log = log_at("a.log", log);
    let mut output: Vec<u8> = Vec::new(alloc);
    let mut errors: Vec<u8> = Vec::new(alloc);
    let options = with_turns(turns);
    let watch = &mut NoWatch;
    let status = replay_over(
        alloc,
        options,
        log,
        scripts,
        watch,
        &mut output,
        &mut errors,
    );
    Said::new(status, output, errors)
}

/// What `replay --threads --turns` tells of them.
pub(crate) fn replay_by_threads<'a>(
    rt: &(impl Threads + Wait + Sync),
    alloc: Global,
    log: Text<'a>,
    scripts: Sources<'a>,
) -> io::Result<Said> {
    let log = log_at("a.log", log);
    let mut output: Vec<u8> = Vec::new(alloc);
    let mut errors: Vec<u8> = Vec::new(alloc);
    let options = with_turns(true);
    let status = replay_threads_over(rt, alloc, options, log, scripts, &mut output, &mut errors);
    Said::new(status, output, errors)
}

/// What `compare` tells of two logs, which are "a.log" and "b.log", and of scripts.
pub(crate) fn compare<'a>(
    alloc: Global,
    log: Text<'a>,
    other: Text<'a>,
    scripts: Sources<'a>,
) -> io::Result<Said> {
    let log = log_at("a.log", log);
    let other = log_at("b.log", other);
    let mut output: Vec<u8> = Vec::new(alloc);
    let mut errors: Vec<u8> = Vec::new(alloc);
    let options = CompareOptions::default();
    let status = compare_over(
        alloc,
        options,
        log,
        other,
        scripts,
        &mut output,
        &mut errors,
    );
    Said::new(status, output, errors)
}

/// What `show` tells of a log, which is "a.log".
pub(crate) fn show(alloc: Global, log: Text<'_>) -> io::Result<Said> {
    let mut output: Vec<u8> = Vec::new(alloc);
    let mut errors: Vec<u8> = Vec::new(alloc);
    let status = show_over(alloc, false, log_at("a.log", log), &mut output, &mut errors);
    Said::new(status, output, errors)
}
