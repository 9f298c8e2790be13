ghost use Rattle.std.specs.Prelude.{◌≡◌, All, IfOk, MatchOption, option_copied};
ghost use Rattle.std.specs.List.{zip};
ghost use Rattle.command_inputs.specs.Expects.{IsAsExpected, IsFirstUnmetLine, IsUnmet};
ghost use Rattle.command_inputs.specs.Expects.{IsUnmetLine, JsonShows, RunHeld, RunShows};
ghost use Rattle.command_inputs.specs.Expects.{ViewShows, without_feed};

use crate::settings::RunOptions;
use answered_calls::answered_calls;
use call_machine::Stop;
use command_texts::{Printed, unmet_line, with_unmet};
use expectations::{Unmet, expectations_of, first_unmet};
use json_views::run_json;
use posix_terms::{Bytes, PackedRow, Row, Transcript, Transcripts};
use run_views::{StoppedRun, run_viewed, stop_reason};
use std::alloc::{AllocError, Global};
use thread_scripts::parse;

/// The line of a reply that is not as expected.
#[derive(Debug, Drop)]
pub struct UnmetLine {
    /// The number of the thread, from 0.
    pub thread: usize,
    /// The number of the expectation's line in the text of the thread, from 1.
    pub line: usize,
    /// What is printed: thread, line of the call, what is wanted and what came, and a line feed.
    pub text: Bytes,
}

impl UnmetLine {
    /// The text without its line feed.
    pub fn without_feed(&self) -> &[u8]
        ensures { result.now ≡ without_feed self.now }
    {
        let text = self.text.as_slice();
        &text[..text.len().saturating_sub(1)]
    }
}

/// What is to be printed for a run of the scripts of these texts: its transcripts, in the view that
/// is asked, and how it ended and, if that is asked, the first reply that is not as they expect.
/// The rows are the granted turns of the run, in their order, and the log is that from which its
/// outcomes came.
pub fn run_shown(
    alloc: Global,
    options: RunOptions,
    texts: &[Bytes],
    transcripts: &Transcripts,
    rows: &[PackedRow],
    log: Option<&[u8]>,
    stop: Option<Stop>,
) -> Result<Printed, AllocError>
    ensures { IfOk result (
        RunShows options texts.now transcripts.now rows.now (option_copied log.entry) stop) }
{
    let shown = run_held(alloc, options, texts, transcripts, rows, stop)?;
    if !options.why {
        return Ok(shown);
    }
    let run = StoppedRun {
        texts,
        transcripts,
        rows,
        log,
    };
    let reason = stop_reason(alloc, run, stop)?;
    Ok(Printed {
        errors: Bytes::from_vec(reason),
        ..shown
    })
}

// What goes to standard output: the run, held to what the texts expect if that is asked.
fn run_held(
    alloc: Global,
    options: RunOptions,
    texts: &[Bytes],
    transcripts: &Transcripts,
    rows: &[PackedRow],
    stop: Option<Stop>,
) -> Result<Printed, AllocError>
    ensures { IfOk result (
        RunHeld options.json options texts.now transcripts.now rows.now stop) }
{
    if options.json {
        return json_held(alloc, options.expect, texts, transcripts, rows, stop);
    }
    view_held(alloc, options, texts, transcripts, stop)
}

// The run in the view that is asked.
fn view_held(
    alloc: Global,
    options: RunOptions,
    texts: &[Bytes],
    transcripts: &Transcripts,
    stop: Option<Stop>,
) -> Result<Printed, AllocError>
    ensures { IfOk result (ViewShows options texts.now transcripts.now stop) }
{
    let run = run_viewed(alloc, options.view, transcripts, stop)?;
    if !options.expect {
        return Ok(run);
    }
    match first_unmet_line(alloc, texts, transcripts.threads())? {
        Some(line) => with_unmet(run, &line.text),
        None => Ok(run),
    }
}

// The run in JSON.
fn json_held(
    alloc: Global,
    expect: bool,
    texts: &[Bytes],
    transcripts: &Transcripts,
    rows: &[PackedRow],
    stop: Option<Stop>,
) -> Result<Printed, AllocError>
    ensures { IfOk result (JsonShows expect texts.now transcripts.now rows.now stop) }
{
    let calls = answered_calls(alloc, texts, transcripts, rows)?;
    match unmet_if_asked(alloc, expect, texts, transcripts)? {
        Some(line) => run_json(alloc, &calls, stop, Some(line.without_feed())),
        None => run_json(alloc, &calls, stop, None),
    }
}

// The line of the first reply that is not as the texts expect, if that is asked.
fn unmet_if_asked(
    alloc: Global,
    expect: bool,
    texts: &[Bytes],
    transcripts: &Transcripts,
) -> Result<Option<UnmetLine>, AllocError>
    ensures { IfOk result (IsUnmet expect (zip texts.now transcripts.now)) }
{
    if !expect {
        return Ok(None);
    }
    first_unmet_line(alloc, texts, transcripts.threads())
}

/// The line of the first thread that saw something else than its text expects, if there is one.
pub fn first_unmet_line(
    alloc: Global,
    texts: &[Bytes],
    transcripts: &[Transcript],
) -> Result<Option<UnmetLine>, AllocError>
    ensures { IfOk result (λ line.
        MatchOption line
        (All IsAsExpected (zip texts.now transcripts.now))
        (IsFirstUnmetLine (zip texts.now transcripts.now))) }
{
    for (thread, text) in texts.iter().enumerate() {
        let Some(transcript) = transcripts.get(thread) else {
            return Ok(None);
        };
        let unmet = thread_unmet_line(alloc, thread, text.as_slice(), transcript.rows())?;
        if let Some(line) = unmet {
            return Ok(Some(line));
        }
    }
    Ok(None)
}

// The line of the first reply that the script of this text had and that is not as the text expects.
fn thread_unmet_line(
    alloc: Global,
    thread: usize,
    text: &[u8],
    rows: &[Row],
) -> Result<Option<UnmetLine>, AllocError>
    ensures { IfOk result (λ line.
        MatchOption line
        (IsAsExpected (text.now, rows.now))
        (IsUnmetLine thread (text.now, rows.now))) }
{
    // The text is a script, and its expectations are good: what is refused here wants memory.
    let Ok(script) = parse(alloc, text) else {
        return Err(AllocError);
    };
    let Ok(expectations) = expectations_of(alloc, text) else {
        return Err(AllocError);
    };
    let Ok(first) = first_unmet(script, &expectations, rows) else {
        return Err(AllocError);
    };
    let Some(Unmet { row, expectation }) = first else {
        return Ok(None);
    };
    let expectation = &expectations[expectation];
    let text = unmet_line(alloc, thread, expectation, &rows[row].reply)?;
    Ok(Some(UnmetLine {
        thread,
        line: expectation.line,
        text,
    }))
}
