ghost use Rattle.std.specs.Prelude.{◌≡◌, IfOk, map};
ghost use Rattle.command_texts.specs.Printing.{Prints};
ghost use Rattle.command_texts.specs.Reading.{scripts_from};
ghost use Rattle.compare_and_draw.specs.Compares.{BothPrint, ComparePrints, LogCompares};
ghost use Rattle.compare_and_draw.specs.Compares.{LogsCompare, ScriptsCompare, SeenCompares};
ghost use Rattle.commands.specs.declared.told.Told.TheVariants as tells;

use crate::differences::{rows_printed, verdict_printed};
use crate::json_differences::{rows_json, verdict_json};
use call_machine::Stop;
use command_inputs::needs_scripts;
use command_texts::{
    Printed, ReadFault, Source, TextReader, Unread, cannot_read, fits, no_memory, print, read_all,
    read_text,
};
use commands::{Told, told_of};
use comparator::compare_by;
use posix_terms::{Bytes, Transcripts};
use std::alloc::{AllocError, Global};
use std::io;
use std::io::Write;

/// What is asked of a comparison. By default rows are compared whole, and the verdict alone is
/// printed.
#[derive(Clone, Copy, Debug, PartialEq, Eq)]
pub struct CompareOptions {
    /// Whether the rows at which the runs differ are printed, and how each replay ended.
    pub rows: bool,
    /// Whether the turns of rows count. Where they do, the rows are printed with their clocks.
    pub turns: bool,
    /// Whether each line that is printed is an object of JSON.
    pub json: bool,
}

impl Default for CompareOptions {
    fn default() -> CompareOptions {
        CompareOptions {
            rows: false,
            turns: true,
            json: false,
        }
    }
}

/// `detio compare`: replays two logs, each with the scripts, and prints `same` where their threads
/// saw the same, or else `differs` with the first thread and the first of its rows that differ,
/// counted from 0, with the rows themselves and how each replay ended if that is asked, and all of
/// that in JSON if it is; or one line for the first fault; the answer is the exit status. A replay
/// that stopped is compared as far as it came. Where there is no memory, a file cannot be read or
/// the output cannot be written, that is the fault. An error is one of the writer `errors`.
pub fn compare_over<R: TextReader + Drop, W: Write, E: Write>(
    alloc: Global,
    options: CompareOptions,
    log: Source<'_, R>,
    other: Source<'_, R>,
    sources: Vec<Source<'_, R>>,
    output: &mut W,
    errors: &mut E,
) -> io::Result<u8>
    ensures { IfOk result (λ status.
        Prints
        (ComparePrints options
        (log.entry.path.now, R.remaining log.entry.reader)
        (other.entry.path.now, R.remaining other.entry.reader)
        (map (λ s. (s.path.now, R.remaining s.reader)) sources.entry.items))
        status (W.contents output.old) (W.contents output.new)
        (E.contents errors.old) (E.contents errors.new)) }
{
    match compare_printed(alloc, options, log, other, sources) {
        Ok(printed) => print(&printed, output, errors),
        Err(AllocError) => no_memory(errors),
    }
}

// What is to be printed.
fn compare_printed<R: TextReader + Drop>(
    alloc: Global,
    options: CompareOptions,
    log: Source<'_, R>,
    other: Source<'_, R>,
    sources: Vec<Source<'_, R>>,
) -> Result<Printed, AllocError>
    ensures { IfOk result (
        ComparePrints options
        (log.entry.path.now, R.remaining log.entry.reader)
        (other.entry.path.now, R.remaining other.entry.reader)
        (map (λ s. (s.path.now, R.remaining s.reader)) sources.entry.items)) }
{
    if !fits(sources.len()) {
        return needs_scripts(alloc);
    }
    match read_text(alloc, log.reader) {
        Ok(text) => log_compared(alloc, options, &text, other, sources),
        Err(ReadFault::Failed) => cannot_read(alloc, log.path),
        Err(ReadFault::Memory) => Err(AllocError),
    }
}

// What is to be printed once the first log was read.
fn log_compared<R: TextReader + Drop>(
    alloc: Global,
    options: CompareOptions,
    log: &Bytes,
    other: Source<'_, R>,
    sources: Vec<Source<'_, R>>,
) -> Result<Printed, AllocError>
    ensures { IfOk result (
        LogCompares options
        log.now
        (other.entry.path.now, R.remaining other.entry.reader)
        (map (λ s. (s.path.now, R.remaining s.reader)) sources.entry.items)) }
{
    match read_text(alloc, other.reader) {
        Ok(text) => logs_compared(alloc, options, log, &text, sources),
        Err(ReadFault::Failed) => cannot_read(alloc, other.path),
        Err(ReadFault::Memory) => Err(AllocError),
    }
}

// What is to be printed once both logs were read.
fn logs_compared<R: TextReader + Drop>(
    alloc: Global,
    options: CompareOptions,
    log: &Bytes,
    other: &Bytes,
    sources: Vec<Source<'_, R>>,
) -> Result<Printed, AllocError>
    ensures { IfOk result (
        LogsCompare options log.now other.now
        (map (λ s. (s.path.now, R.remaining s.reader)) sources.entry.items)) }
{
    match read_all(alloc, sources) {
        Ok(texts) => texts_compared(alloc, options, log, other, &texts),
        Err(Unread::Script(path)) => cannot_read(alloc, path),
        Err(Unread::Memory) => Err(AllocError),
    }
}

// What is to be printed for texts that were read.
fn texts_compared(
    alloc: Global,
    options: CompareOptions,
    log: &Bytes,
    other: &Bytes,
    texts: &[Bytes],
) -> Result<Printed, AllocError>
    ensures { IfOk result (ScriptsCompare options log.now other.now (scripts_from 0 texts.now)) }
{
    match told_of(alloc, log, texts)? {
        Told::Run(transcripts, stop) => {
            seen_compared(alloc, options, &transcripts, stop, other, texts)
        },
        Told::Fault(printed) => Ok(printed),
    }
}

// What is to be printed where the threads saw this by the first log, and its replay ended so.
fn seen_compared(
    alloc: Global,
    options: CompareOptions,
    seen: &Transcripts,
    stop: Option<Stop>,
    other: &Bytes,
    texts: &[Bytes],
) -> Result<Printed, AllocError>
    ensures { IfOk result (
        SeenCompares options seen.now stop other.now (scripts_from 0 texts.now)) }
{
    match told_of(alloc, other, texts)? {
        Told::Run(transcripts, other_stop) => {
            run_compared(alloc, options, seen, stop, &transcripts, other_stop)
        }
        Told::Fault(printed) => Ok(printed),
    }
}

// What is to be printed where the threads saw this by the two logs, and the replays ended so.
fn run_compared(
    alloc: Global,
    options: CompareOptions,
    seen: &Transcripts,
    stop: Option<Stop>,
    others: &Transcripts,
    other_stop: Option<Stop>,
) -> Result<Printed, AllocError>
    ensures { IfOk result (
        BothPrint options seen.now stop (tells.Run others.now other_stop)) }
{
    let CompareOptions { rows, turns, json } = options;
    let verdict = compare_by(turns, seen, others);
    match (rows, json) {
        (false, false) => verdict_printed(alloc, verdict),
        (false, true) => verdict_json(alloc, verdict),
        (true, false) => rows_printed(alloc, turns, seen, stop, others, other_stop, verdict),
        (true, true) => rows_json(alloc, turns, seen, stop, others, other_stop, verdict),
    }
}
