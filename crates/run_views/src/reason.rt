ghost use Rattle.std.specs.Prelude.{◌≡◌, ℕ, List, ◌++◌, IfOk, OnOk, is_some, option_copied};
ghost use Rattle.std.specs.Prelude.{slice_get};
ghost use Rattle.run_views.specs.Found.{line_asked};
ghost use Rattle.run_views.specs.Reasons.{IsReason, IsStopReason, RecordSays, asked, asked_line};
ghost use Rattle.run_views.specs.Reasons.{blocked_words, end_words};
ghost use Rattle.std.specs.List.{flat_map};
ghost use Rattle.run_views.specs.Reasons.{found_words, known_line_words, line_words};
ghost use Rattle.run_views.specs.Reasons.{missing_line, no_record_words, record_words};
ghost use Rattle.run_views.specs.Reasons.{turn_words};

use crate::asked::push_asked;
use crate::found::{outcomes_of, record_of, unanswered};
use answered_calls::{BlockedLine, lines_blocked, next_call_line};
use call_machine::Stop;
use command_texts::{push_number, push_record, push_word};
use input_log::{LogFault, Record, decode_front};
use posix_terms::{Bytes, PackedRow, Transcripts};
use std::alloc::{AllocError, Global};

/// A run as far as it came.
#[derive(Clone, Copy)]
pub struct StoppedRun<'a> {
    /// The texts of its scripts, by thread.
    pub texts: &'a [Bytes],
    /// What each thread saw.
    pub transcripts: &'a Transcripts,
    /// The granted turns, in their order.
    pub rows: &'a [PackedRow],
    /// The bytes of the log from which its outcomes came, if they came from one.
    pub log: Option<&'a [u8]>,
}

/// The lines that say why this run stopped so, and which of its calls were blocked for good, each with
/// its line feed; none where it came to its end, or stopped for something else than an outcome, and
/// where no calls were. It fails only where there is no memory.
pub fn stop_reason(
    alloc: Global,
    run: StoppedRun<'_>,
    stop: Option<Stop>,
) -> Result<Vec<u8>, AllocError>
    ensures { IfOk result (λ lines.
        IsReason run.entry.texts.now run.entry.transcripts.now run.entry.rows.now
        (option_copied run.entry.log) stop lines.items) }
{
    let blocked = lines_blocked(alloc, run.texts, run.transcripts, run.rows)?;
    let mut lines = stop_lines(alloc, run, stop)?;
    push_blocked(&mut lines, &blocked)?;
    Ok(lines)
}

// Adds a line for each call that was blocked for good.
fn push_blocked(text: &mut Vec<u8>, blocked: &[BlockedLine]) -> Result<(), AllocError>
    ensures { OnOk result (text.new.items ≡ text.old.items ++ flat_map blocked_words blocked.now) }
{
    for line in blocked {
        push_blocked_line(text, *line)?;
    }
    Ok(())
}

fn push_blocked_line(text: &mut Vec<u8>, blocked: BlockedLine) -> Result<(), AllocError>
    ensures { OnOk result (text.new.items ≡ text.old.items ++ blocked_words blocked) }
{
    push_word(text, "line ")?;
    push_number(text, blocked.line as u64)?;
    push_word(text, " of script ")?;
    push_number(text, blocked.thread as u64)?;
    push_word(text, " was blocked for good\n")
}

// The lines that say why a run stopped so.
fn stop_lines(alloc: Global, run: StoppedRun<'_>, stop: Option<Stop>) -> Result<Vec<u8>, AllocError>
    ensures { IfOk result (λ lines.
        IsStopReason run.entry.texts.now run.entry.transcripts.now run.entry.rows.now
        (option_copied run.entry.log) stop lines.items) }
{
    match stop {
        Some(Stop::EndOfLog(thread)) => missing_reason(alloc, run, thread),
        Some(Stop::Diverged(thread, number)) => other_reason(alloc, run, thread, number as usize),
        _ => Ok(Vec::new(alloc)),
    }
}

// The lines where nothing came for what this thread asked.
fn missing_reason(alloc: Global, run: StoppedRun<'_>, thread: usize) -> Result<Vec<u8>, AllocError>
    ensures { IfOk result (λ lines.
        lines.items
        ≡ asked run.entry.texts.now run.entry.transcripts.now run.entry.rows.now thread
        ++ missing_line (is_some (option_copied run.entry.log)) run.entry.rows.now thread) }
{
    let mut text = asked_text(alloc, run, thread)?;
    push_missing(&mut text, run.log.is_some(), run.rows, thread)?;
    Ok(text)
}

// The lines where the log has something else for what this thread asked.
fn other_reason(
    alloc: Global,
    run: StoppedRun<'_>,
    thread: usize,
    number: usize,
) -> Result<Vec<u8>, AllocError>
    ensures { IfOk result (λ lines.
        (had : List ℕ) × RecordSays (option_copied run.entry.log) thread number had
        × (lines.items
        ≡ asked run.entry.texts.now run.entry.transcripts.now run.entry.rows.now thread ++ had)) }
{
    let mut text = asked_text(alloc, run, thread)?;
    let had = record_text(alloc, run.log, thread, number)?;
    text.extend_from_slice(&had)?;
    Ok(text)
}

// What this thread asked, and where.
fn asked_text(alloc: Global, run: StoppedRun<'_>, thread: usize) -> Result<Vec<u8>, AllocError>
    ensures { IfOk result (λ text.
        text.items
        ≡ asked run.entry.texts.now run.entry.transcripts.now run.entry.rows.now thread) }
{
    let line = line_asked(alloc, run.texts, run.transcripts, thread)?;
    let mut text = Vec::new(alloc);
    push_asked_line(&mut text, thread, line, unanswered(run.rows, thread))?;
    Ok(text)
}

// The line of the call that this thread makes next.
fn line_asked(
    alloc: Global,
    texts: &[Bytes],
    transcripts: &Transcripts,
    thread: usize,
) -> Result<Option<usize>, AllocError>
    ensures { IfOk result (λ line.
        line ≡ line_asked (slice_get texts.now thread) (slice_get transcripts.now thread)) }
{
    match (texts.get(thread), transcripts.threads().get(thread)) {
        (Some(text), Some(seen)) => next_call_line(alloc, text.as_slice(), seen.rows()),
        _ => Ok(None),
    }
}

// Adds what a thread asked, and where; or that it asked nothing more.
fn push_asked_line(
    text: &mut Vec<u8>,
    thread: usize,
    line: Option<usize>,
    row: Option<&PackedRow>,
) -> Result<(), AllocError>
    ensures { OnOk result (
        text.new.items ≡ text.old.items ++ asked_line thread line (option_copied row.entry)) }
{
    match row {
        Some(row) => {
            push_known_line(text, line)?;
            push_turn(text, thread, row)
        }
        None => push_end(text, thread),
    }
}

// Adds which line it is, where that is known.
fn push_known_line(text: &mut Vec<u8>, line: Option<usize>) -> Result<(), AllocError>
    ensures { OnOk result (text.new.items ≡ text.old.items ++ known_line_words line) }
{
    match line {
        Some(line) => push_line(text, line),
        None => Ok(()),
    }
}

#[tactic(auto, unfolding(crate::specs::Reasons::line_words))]
fn push_line(text: &mut Vec<u8>, line: usize) -> Result<(), AllocError>
    ensures { OnOk result (text.new.items ≡ text.old.items ++ line_words line) }
{
    push_word(text, "line ")?;
    push_number(text, line as u64)?;
    push_word(text, " of ")
}

#[tactic(auto, unfolding(crate::specs::Reasons::turn_words))]
fn push_turn(text: &mut Vec<u8>, thread: usize, row: &PackedRow) -> Result<(), AllocError>
    ensures { OnOk result (text.new.items ≡ text.old.items ++ turn_words thread row.now) }
{
    push_word(text, "script ")?;
    push_number(text, thread as u64)?;
    push_word(text, " asked at ")?;
    push_number(text, row.turn().clock)?;
    push_word(text, ": ")?;
    push_asked(text, row.call())?;
    push_word(text, "\n")
}

#[tactic(auto, unfolding(crate::specs::Reasons::end_words))]
fn push_end(text: &mut Vec<u8>, thread: usize) -> Result<(), AllocError>
    ensures { OnOk result (text.new.items ≡ text.old.items ++ end_words thread) }
{
    push_word(text, "script ")?;
    push_number(text, thread as u64)?;
    push_word(text, " came to its end\n")
}

// Adds that nothing came for what this thread asked.
fn push_missing(
    text: &mut Vec<u8>,
    has_log: bool,
    rows: &[PackedRow],
    thread: usize,
) -> Result<(), AllocError>
    ensures { OnOk result (
        text.new.items ≡ text.old.items ++ missing_line has_log rows.now thread) }
{
    if has_log {
        push_no_record(text, outcomes_of(rows, thread), thread)
    } else {
        push_word(text, "nothing comes from outside without a log\n")
    }
}

fn push_no_record(text: &mut Vec<u8>, count: usize, thread: usize) -> Result<(), AllocError>
    ensures { OnOk result (text.new.items ≡ text.old.items ++ no_record_words count thread) }
{
    push_word(text, "the log has no record ")?;
    push_number(text, count as u64)?;
    push_word(text, " of thread ")?;
    push_number(text, thread as u64)?;
    push_word(text, "\n")
}

// The line of this record of the log, if there is one.
fn record_text(
    alloc: Global,
    log: Option<&[u8]>,
    thread: usize,
    number: usize,
) -> Result<Vec<u8>, AllocError>
    ensures { IfOk result (λ had. RecordSays (option_copied log.entry) thread number had.items) }
{
    let mut text = Vec::new(alloc);
    let Some(bytes) = log else {
        return Ok(text);
    };
    match decode_front(alloc, bytes) {
        Ok(log) => {
            push_found(&mut text, record_of(log.records.as_slice(), thread, number))?;
            Ok(text)
        }
        Err(LogFault::Memory) => Err(AllocError),
        Err(_) => Ok(text),
    }
}

// Adds the line of a record, if it is there.
fn push_found(text: &mut Vec<u8>, found: Option<&Record>) -> Result<(), AllocError>
    ensures { OnOk result (
        text.new.items ≡ text.old.items ++ found_words (option_copied found.entry)) }
{
    match found {
        Some(found) => push_record_line(text, found),
        None => Ok(()),
    }
}

fn push_record_line(text: &mut Vec<u8>, found: &Record) -> Result<(), AllocError>
    ensures { OnOk result (text.new.items ≡ text.old.items ++ record_words found.now) }
{
    push_word(text, "the log has: ")?;
    push_record(text, found)
}
