use commands::{Phase, WatchesRun};
use explore_commands::{ReportsProgress, WatchesMinimising};
use posix_terms::PackedRow;
use std::fs;
use std::os::unix::fs::FileTypeExt;
use std::time::{Duration, Instant};

// Says on a terminal how far many runs have come, once a second, in one line.
#[derive(Drop)]
pub(crate) struct ProgressLine<'a> {
    rt: &'a HostRuntime,
    // When they began. None: standard error is not a terminal, and nothing is said.
    begun: Option<Instant>,
    // When the line was last printed.
    printed: Option<Instant>,
}

impl<'a> ProgressLine<'a> {
    pub(crate) fn new(rt: &'a HostRuntime) -> ProgressLine<'a> {
        let begun = if is_terminal(rt) {
            Instant::now(rt).ok()
        } else {
            None
        };
        ProgressLine {
            rt,
            begun,
            printed: None,
        }
    }

    // Where the line is to be printed now: how long ago they began.
    fn due(&mut self) -> Option<Duration> {
        let begun = self.begun?;
        let now = Instant::now(self.rt).ok()?;
        if now.duration_since(self.printed.unwrap_or(begun)) < Duration::from_secs(1) {
            return None;
        }
        self.printed = Some(now);
        Some(now.duration_since(begun))
    }

    // Takes the line away again, if it is there.
    fn clear(&mut self) {
        if self.printed.take().is_some() {
            let _ = eprint!(self.rt; "\r\u{1b}[K");
        }
    }
}

impl ReportsProgress for ProgressLine<'_> {
    fn made(&mut self, runs: u64, of: u64, groups: usize) {
        let Some(passed) = self.due() else {
            return;
        };
        let rate = runs / passed.as_secs().max(1);
        let _ = if groups == 0 {
            eprint!(self.rt; "\r{runs} of {of} runs, {rate} a second\u{1b}[K")
        } else {
            eprint!(self.rt; "\r{runs} of {of} runs, {groups} groups, {rate} a second\u{1b}[K")
        };
    }

    fn ended(&mut self) {
        self.clear();
    }
}

// Says on a terminal how many runs were made to minimise scripts, once a second, in one line.
#[derive(Drop)]
pub(crate) struct MinimiseLine<'a> {
    line: ProgressLine<'a>,
    runs: u64,
    // How many lines are left.
    lines: usize,
}

impl<'a> MinimiseLine<'a> {
    pub(crate) fn new(rt: &'a HostRuntime) -> MinimiseLine<'a> {
        MinimiseLine {
            line: ProgressLine::new(rt),
            runs: 0,
            lines: 0,
        }
    }
}

impl WatchesMinimising for MinimiseLine<'_> {
    fn ran(&mut self) {
        self.runs = self.runs.saturating_add(1);
        let Some(passed) = self.line.due() else {
            return;
        };
        let (runs, lines) = (self.runs, self.lines);
        let rate = runs / passed.as_secs().max(1);
        let _ = eprint!(self.line.rt; "\r{runs} runs, {lines} lines left, {rate} a second\u{1b}[K");
    }

    fn kept(&mut self, lines: usize) {
        self.lines = lines;
    }

    fn ended(&mut self) {
        self.line.clear();
    }
}

// Says on a terminal how far one run has come, once a second, in one line.
#[derive(Drop)]
pub(crate) struct RunLine<'a> {
    line: ProgressLine<'a>,
    // How many records the log has: 0 without a log.
    records: usize,
    // After how many more attempts the clock of the host is read.
    left: u32,
}

impl<'a> RunLine<'a> {
    pub(crate) fn new(rt: &'a HostRuntime) -> RunLine<'a> {
        RunLine {
            line: ProgressLine::new(rt),
            records: 0,
            left: ATTEMPTS,
        }
    }
}

// Some milliseconds.
const ATTEMPTS: u32 = 4096;

impl WatchesRun for RunLine<'_> {
    fn begins(&mut self, records: usize) {
        self.records = records;
    }

    fn attempts(&mut self, _thread: usize, _clock: u64) {}

    fn reached(&mut self, rows: &[PackedRow], came: u32) {
        self.left = self.left.saturating_sub(1);
        if self.left > 0 {
            return;
        }
        self.left = ATTEMPTS;
        if self.line.due().is_none() {
            return;
        }
        let (turns, of) = (rows.len(), self.records);
        let clock = rows.last().map(|row| row.turn().clock).unwrap_or(0);
        let _ = if of == 0 {
            eprint!(self.line.rt; "\r{turns} turns, clock {clock}\u{1b}[K")
        } else {
            eprint!(self.line.rt; "\r{turns} turns, clock {clock}, {came} of {of} records\u{1b}[K")
        };
    }

    fn moved(&mut self, _thread: usize, _phase: &Phase, _clock: u64) {}

    fn ended(&mut self) {
        self.line.clear();
    }
}

// Whether standard error is a device of characters, as a terminal is.
fn is_terminal(rt: &HostRuntime) -> bool {
    match fs::metadata(rt, "/dev/stderr") {
        Ok(found) => found.file_type().is_char_device(),
        Err(_) => false,
    }
}
