// What is printed in JSON for a verdict on two replays: its line, the rows at which they differ, and
// how each ended.
ghost use Rattle.std.specs.Prelude.{◌≡◌, ◌++◌, IfOk, OnOk, slice_get};
ghost use Rattle.serde_json.specs.View.{view};
ghost use Rattle.json_views.specs.Sides.{side_row_line};
ghost use Rattle.compare_and_draw.specs.Json.{before_json, difference_json, ends_json};
ghost use Rattle.compare_and_draw.specs.Json.{rows_json, verdict_json, verdict_json_line};
ghost use Rattle.compare_and_draw.specs.Json.{verdict_row, verdict_thread, verdict_value};
ghost use Rattle.compare_and_draw.specs.Json.{verdict_word};

use crate::differences::{ROWS_BEFORE, rows_of, verdict_status};
use call_machine::Stop;
use command_texts::Printed;
use comparator::Verdict;
use json_views::{push_line, push_side_end, push_side_row, values_are_exact};
use posix_terms::{Bytes, Row, Transcripts};
use serde_json::{Value, json};
use std::alloc::{AllocError, Global};

/// What is to be printed in JSON for a verdict alone.
pub(crate) fn verdict_json(alloc: Global, verdict: Verdict) -> Result<Printed, AllocError>
    ensures { IfOk result (λ printed. printed ≡ verdict_json verdict) }
{
    let mut output = Vec::new(alloc);
    push_verdict(&mut output, verdict)?;
    Ok(Printed {
        status: verdict_status(verdict),
        output: Bytes::from_vec(output),
        errors: Bytes::from_vec(Vec::new(alloc)),
    })
}

/// What is to be printed in JSON for a verdict with the rows, where the threads saw this by the two
/// logs, and the replays ended so.
pub(crate) fn rows_json(
    alloc: Global,
    turns: bool,
    seen: &Transcripts,
    stop: Option<Stop>,
    others: &Transcripts,
    other_stop: Option<Stop>,
    verdict: Verdict,
) -> Result<Printed, AllocError>
    ensures { IfOk result (λ printed.
        printed ≡ rows_json turns seen.now stop others.now other_stop verdict) }
{
    let mut output = Vec::new(alloc);
    push_verdict(&mut output, verdict)?;
    push_difference(&mut output, turns, seen, others, verdict)?;
    push_ends(&mut output, stop, other_stop)?;
    Ok(Printed {
        status: verdict_status(verdict),
        output: Bytes::from_vec(output),
        errors: Bytes::from_vec(Vec::new(alloc)),
    })
}

#[tactic(auto, using(crate::proofs::ExactVerdicts::verdict_exact))]
fn push_verdict(text: &mut Vec<u8>, verdict: Verdict) -> Result<(), AllocError>
    ensures { OnOk result (text.new.items ≡ text.old.items ++ verdict_json_line verdict) }
{
    let value = verdict_value(*text.allocator(), verdict)?;
    values_are_exact();
    push_line(text, &value)
}

fn verdict_value(alloc: Global, verdict: Verdict) -> Result<Value, AllocError>
    ensures { IfOk result (λ value. view value ≡ verdict_value verdict) }
{
    json!(in alloc; {
        "verdict": verdict_word(verdict),
        "thread": verdict_thread(verdict),
        "row": verdict_row(verdict),
        "status": verdict_status(verdict)
    })
}

fn verdict_word(verdict: Verdict) -> &'static str
    ensures { result.now ≡ verdict_word verdict }
{
    match verdict {
        Verdict::Same => "same",
        Verdict::Differs { .. } => "differs",
    }
}

fn verdict_thread(verdict: Verdict) -> Option<usize>
    ensures { result ≡ verdict_thread verdict }
{
    match verdict {
        Verdict::Same => None,
        Verdict::Differs { thread, .. } => Some(thread),
    }
}

fn verdict_row(verdict: Verdict) -> Option<usize>
    ensures { result ≡ verdict_row verdict }
{
    match verdict {
        Verdict::Same => None,
        Verdict::Differs { row, .. } => Some(row),
    }
}

// Adds the rows before the one that differs, and then what each log has in its place.
fn push_difference(
    text: &mut Vec<u8>,
    turns: bool,
    seen: &Transcripts,
    others: &Transcripts,
    verdict: Verdict,
) -> Result<(), AllocError>
    ensures { OnOk result (
        text.new.items ≡ text.old.items ++ difference_json turns seen.now others.now verdict) }
{
    let Verdict::Differs { thread, row } = verdict else {
        return Ok(());
    };
    let (rows, other_rows) = (rows_of(seen, thread), rows_of(others, thread));
    push_before(text, turns, thread, row, rows)?;
    push_row_by(text, "log", turns, thread, row, rows)?;
    push_row_by(text, "with", turns, thread, row, other_rows)
}

// Adds the row of this number by this log, or that there is none.
fn push_row_by(
    text: &mut Vec<u8>,
    by: &str,
    turns: bool,
    thread: usize,
    number: usize,
    rows: &[Row],
) -> Result<(), AllocError>
    ensures { OnOk result (
        text.new.items
        ≡ text.old.items
        ++ side_row_line by.now turns thread number (slice_get rows.now number)) }
{
    push_side_row(text, by, turns, thread, number, rows.get(number))
}

// Adds the rows of a thread before this one, three at most: both logs have them.
#[tactic(auto, using(std::proofs::lemmas::Grind::common_steps, crate::proofs::RowsBefore::lines))]
fn push_before(
    text: &mut Vec<u8>,
    turns: bool,
    thread: usize,
    number: usize,
    rows: &[Row],
) -> Result<(), AllocError>
    ensures { OnOk result (
        text.new.items ≡ text.old.items ++ before_json turns thread number rows.now) }
{
    for before in number.saturating_sub(ROWS_BEFORE)..number {
        let Some(row) = rows.get(before) else {
            return Ok(());
        };
        push_side_row(text, "both", turns, thread, before, Some(row))?;
    }
    Ok(())
}

// Adds how the replays ended.
fn push_ends(
    text: &mut Vec<u8>,
    stop: Option<Stop>,
    other_stop: Option<Stop>,
) -> Result<(), AllocError>
    ensures { OnOk result (text.new.items ≡ text.old.items ++ ends_json stop other_stop) }
{
    push_side_end(text, "log", stop)?;
    push_side_end(text, "with", other_stop)
}
