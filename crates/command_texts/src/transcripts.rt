ghost use Rattle.std.specs.Prelude.{◌≡◌, ◌++◌, IfOk, OnOk, codes};
ghost use Rattle.std.specs.Fmt.{decimal};
ghost use Rattle.command_texts.specs.Printing.{run_printed};
ghost use Rattle.command_texts.specs.Transcripts.{call_text, end_status, end_words, reply_text};
ghost use Rattle.command_texts.specs.Transcripts.{row_text, rows_text, transcripts_text};

use crate::printed::Printed;
use crate::text_parts::{push_data, push_number, push_place, push_signed, push_word};
use call_machine::Stop;
use posix_terms::{Bytes, Reply, Row, Transcript, Transcripts, errno_name};
use std::alloc::{AllocError, Global};

// What is to be printed for a run that ended so: the transcripts, and the line of its end.
pub fn run_printed(
    alloc: Global,
    turns: bool,
    transcripts: &Transcripts,
    stop: Option<Stop>,
) -> Result<Printed, AllocError>
    ensures { IfOk result (λ printed. printed ≡ run_printed turns transcripts.now stop) }
{
    let mut output = Vec::new(alloc);
    push_transcripts(&mut output, turns, transcripts.threads())?;
    push_end(&mut output, stop)?;
    push_word(&mut output, "\n")?;
    Ok(Printed {
        status: end_status(stop),
        output: Bytes::from_vec(output),
        errors: Bytes::from_vec(Vec::new(alloc)),
    })
}

// Adds all transcripts, by thread, with the clocks of the turns if that is asked.
fn push_transcripts(
    text: &mut Vec<u8>,
    turns: bool,
    transcripts: &[Transcript],
) -> Result<(), AllocError>
    ensures { OnOk result (
        text.new.items ≡ text.old.items ++ transcripts_text turns 0 transcripts.now) }
{
    for (thread, transcript) in transcripts.iter().enumerate() {
        push_rows(text, turns, thread, transcript.rows())?;
    }
    Ok(())
}

// Adds one thread's rows.
fn push_rows(text: &mut Vec<u8>, turns: bool, thread: usize, rows: &[Row]) -> Result<(), AllocError>
    ensures { OnOk result (
        text.new.items ≡ text.old.items ++ rows_text turns thread 0 rows.now) }
{
    for (number, row) in rows.iter().enumerate() {
        push_row(text, turns, thread, number, row)?;
    }
    Ok(())
}

/// Adds the line of a row, with the clock of its turn if that is asked: the thread, the number of the
/// row, the call and its reply.
#[tactic(auto, unfolding(crate::specs::Transcripts::row_text))]
pub fn push_row(
    text: &mut Vec<u8>,
    turns: bool,
    thread: usize,
    number: usize,
    row: &Row,
) -> Result<(), AllocError>
    ensures { OnOk result (
        text.new.items ≡ text.old.items ++ row_text turns thread number row.now) }
{
    push_place(text, thread as u64, number as u64)?;
    if turns {
        push_number(text, row.turn.clock)?;
        push_word(text, " ")?;
    }
    push_call(text, row)?;
    push_word(text, "\n")
}

/// Adds a call and its reply, in the words of a row.
pub fn push_call(text: &mut Vec<u8>, row: &Row) -> Result<(), AllocError>
    ensures { OnOk result (text.new.items ≡ text.old.items ++ call_text row.now) }
{
    push_word(text, row.call.kind().word())?;
    push_word(text, " ")?;
    push_reply(text, &row.reply)
}

/// Adds a reply, in the words of a row.
#[tactic(auto, unfolding(crate::specs::Transcripts::reply_text))]
pub fn push_reply(text: &mut Vec<u8>, reply: &Reply) -> Result<(), AllocError>
    ensures { OnOk result (text.new.items ≡ text.old.items ++ reply_text reply.now) }
{
    match reply {
        Reply::Count(count) => {
            push_word(text, "count ")?;
            push_number(text, *count)
        }
        Reply::Data(bytes) => {
            push_word(text, "data ")?;
            push_data(text, bytes.as_slice())
        }
        Reply::Number(number) => {
            push_word(text, "number ")?;
            push_signed(text, *number)
        }
        Reply::Pair(first, second) => {
            push_word(text, "pair ")?;
            push_signed(text, *first)?;
            push_word(text, " ")?;
            push_signed(text, *second)
        }
        Reply::Stat {
            kind,
            number,
            links,
        } => {
            push_word(text, "stat ")?;
            push_number(text, u64::from(kind.code()))?;
            push_word(text, " ")?;
            push_number(text, *number)?;
            push_word(text, " ")?;
            push_number(text, *links)
        }
        Reply::Done => push_word(text, "done"),
        Reply::Fail(error) => {
            push_word(text, "fail ")?;
            push_word(text, errno_name(*error))
        }
    }
}

/// Adds how a run ended, in the words of its last line.
#[tactic(auto, unfolding(crate::specs::Transcripts::end_words))]
pub fn push_end(text: &mut Vec<u8>, stop: Option<Stop>) -> Result<(), AllocError>
    ensures { OnOk result (text.new.items ≡ text.old.items ++ end_words stop) }
{
    match stop {
        None => push_word(text, "end"),
        Some(Stop::Memory) => push_word(text, "stop memory"),
        Some(Stop::Sink) => push_word(text, "stop sink"),
        Some(Stop::ClockFull) => push_word(text, "stop clock full"),
        Some(Stop::Strayed) => push_word(text, "stop strayed"),
        Some(Stop::EndOfLog(thread)) => push_end_of_log(text, thread),
        Some(Stop::Diverged(thread, number)) => push_diverged(text, thread, number),
    }
}

fn push_end_of_log(text: &mut Vec<u8>, thread: usize) -> Result<(), AllocError>
    ensures { OnOk result (
        text.new.items ≡ text.old.items ++ codes "stop end of log " ++ decimal thread) }
{
    push_word(text, "stop end of log ")?;
    push_number(text, thread as u64)
}

fn push_diverged(text: &mut Vec<u8>, thread: usize, number: u32) -> Result<(), AllocError>
    ensures { OnOk result (
        text.new.items
        ≡ text.old.items
        ++ codes "stop diverged " ++ decimal thread ++ codes " " ++ decimal number) }
{
    push_word(text, "stop diverged ")?;
    push_number(text, thread as u64)?;
    push_word(text, " ")?;
    push_number(text, u64::from(number))
}

/// The exit status of a run that ended so.
pub fn end_status(stop: Option<Stop>) -> u8
    ensures { result ≡ end_status stop }
{
    match stop {
        None => 0,
        Some(Stop::EndOfLog(_)) | Some(Stop::Diverged(_, _)) => 1,
        Some(Stop::Memory) | Some(Stop::Sink) | Some(Stop::ClockFull) | Some(Stop::Strayed) => 4,
    }
}
