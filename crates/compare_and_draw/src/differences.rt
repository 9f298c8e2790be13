// What is printed for a verdict on two replays: its line, the rows at which they differ, and how
// each ended.
ghost use Rattle.std.specs.Prelude.{◌≡◌, ◌++◌, IfOk, OnOk, slice_get, string_bytes};
ghost use Rattle.compare_and_draw.specs.Differences.{before_text, difference_text, ends_text};
ghost use Rattle.compare_and_draw.specs.Differences.{missing_row, row_or_none, rows_of};
ghost use Rattle.compare_and_draw.specs.Differences.{rows_printed};
ghost use Rattle.compare_and_draw.specs.Differences.{verdict_line, verdict_printed, verdict_status};

use call_machine::Stop;
use command_texts::{Printed, push_end, push_number, push_word};
use comparator::Verdict;
use posix_terms::{Bytes, Row, Transcripts};
use run_views::push_call_row;
use std::alloc::{AllocError, Global};

// How many rows are printed at most before the one that differs.
pub(crate) const ROWS_BEFORE: usize = 3;

// What is to be printed for a verdict alone.
pub fn verdict_printed(alloc: Global, verdict: Verdict) -> Result<Printed, AllocError>
    ensures { IfOk result (λ printed. printed ≡ verdict_printed verdict) }
{
    let line = verdict_line(alloc, verdict)?;
    Ok(Printed {
        status: verdict_status(verdict),
        output: Bytes::from_vec(line.into_bytes()),
        errors: Bytes::from_vec(Vec::new(alloc)),
    })
}

// What is to be printed for a verdict with the rows, where the threads saw this by the two logs,
// and the replays ended so.
pub fn rows_printed(
    alloc: Global,
    turns: bool,
    seen: &Transcripts,
    stop: Option<Stop>,
    others: &Transcripts,
    other_stop: Option<Stop>,
    verdict: Verdict,
) -> Result<Printed, AllocError>
    ensures { IfOk result (λ printed.
        printed ≡ rows_printed turns seen.now stop others.now other_stop verdict) }
{
    let mut output = verdict_line(alloc, verdict)?.into_bytes();
    push_difference(&mut output, turns, seen, others, verdict)?;
    push_ends(&mut output, stop, other_stop)?;
    Ok(Printed {
        status: verdict_status(verdict),
        output: Bytes::from_vec(output),
        errors: Bytes::from_vec(Vec::new(alloc)),
    })
}

#[tactic(auto, unfolding(crate::specs::Differences::verdict_line))]
fn verdict_line(alloc: Global, verdict: Verdict) -> Result<String, AllocError>
    ensures { IfOk result (λ line. string_bytes line ≡ verdict_line verdict) }
{
    match verdict {
        Verdict::Same => String::from_str(alloc, "same\n"),
        Verdict::Differs { thread, row } => format!(in alloc; "differs {thread} {row}\n"),
    }
}

// The exit status of a verdict.
pub(crate) fn verdict_status(verdict: Verdict) -> u8
    ensures { result ≡ verdict_status verdict }
{
    match verdict {
        Verdict::Same => 0,
        Verdict::Differs { .. } => 1,
    }
}

// Adds the rows before the one that differs, and then what each side has in its place.
#[tactic(auto, unfolding(crate::specs::Differences::difference_text))]
fn push_difference(
    text: &mut Vec<u8>,
    turns: bool,
    seen: &Transcripts,
    others: &Transcripts,
    verdict: Verdict,
) -> Result<(), AllocError>
    ensures { OnOk result (
        text.new.items ≡ text.old.items ++ difference_text turns seen.now others.now verdict) }
{
    let Verdict::Differs { thread, row } = verdict else {
        return Ok(());
    };
    let (rows, other_rows) = (rows_of(seen, thread), rows_of(others, thread));
    push_before(text, turns, thread, row, rows)?;
    push_word(text, "< ")?;
    push_row_or_none(text, turns, thread, row, rows)?;
    push_word(text, "> ")?;
    push_row_or_none(text, turns, thread, row, other_rows)
}

// What a thread saw: nothing, where it is not there.
pub(crate) fn rows_of(transcripts: &Transcripts, thread: usize) -> &[Row]
    ensures { result.now ≡ rows_of transcripts.now thread }
{
    match transcripts.threads().get(thread) {
        Some(transcript) => transcript.rows(),
        None => &[],
    }
}

// Adds the rows of a thread before this one, three at most.
#[tactic(auto, using(std::proofs::lemmas::Grind::common_steps, crate::proofs::RowsBefore::rows))]
fn push_before(
    text: &mut Vec<u8>,
    turns: bool,
    thread: usize,
    number: usize,
    rows: &[Row],
) -> Result<(), AllocError>
    ensures { OnOk result (
        text.new.items ≡ text.old.items ++ before_text turns thread number rows.now) }
{
    for before in number.saturating_sub(ROWS_BEFORE)..number {
        let Some(row) = rows.get(before) else {
            return Ok(());
        };
        push_word(text, "  ")?;
        push_call_row(text, turns, thread, before, row)?;
    }
    Ok(())
}

// Adds the row of this number; where there is none, `-` after the number.
fn push_row_or_none(
    text: &mut Vec<u8>,
    turns: bool,
    thread: usize,
    number: usize,
    rows: &[Row],
) -> Result<(), AllocError>
    ensures { OnOk result (
        text.new.items
        ≡ text.old.items ++ row_or_none turns thread number (slice_get rows.now number)) }
{
    match rows.get(number) {
        Some(row) => push_call_row(text, turns, thread, number, row),
        None => push_missing_row(text, thread, number),
    }
}

#[tactic(auto, unfolding(crate::specs::Differences::missing_row))]
fn push_missing_row(text: &mut Vec<u8>, thread: usize, number: usize) -> Result<(), AllocError>
    ensures { OnOk result (text.new.items ≡ text.old.items ++ missing_row thread number) }
{
    push_number(text, thread as u64)?;
    push_word(text, " ")?;
    push_number(text, number as u64)?;
    push_word(text, " -\n")
}

// Adds how the replays ended.
fn push_ends(
    text: &mut Vec<u8>,
    stop: Option<Stop>,
    other_stop: Option<Stop>,
) -> Result<(), AllocError>
    ensures { OnOk result (text.new.items ≡ text.old.items ++ ends_text stop other_stop) }
{
    push_word(text, "< ")?;
    push_end(text, stop)?;
    push_word(text, "\n> ")?;
    push_end(text, other_stop)?;
    push_word(text, "\n")
}
