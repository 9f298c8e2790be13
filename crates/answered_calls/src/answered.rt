ghost use Rattle.std.specs.Prelude.{◌≡◌, ◌++◌, IfOk, OnOk, map, slice_index_or, []};
ghost use Rattle.answered_calls.specs.Answered.{answered_calls, answered_from, answered_of};
ghost use Rattle.answered_calls.specs.Seen.{seen};

use crate::lines::lines_of_calls;
use crate::ways::{CallWay, ways_of};
use posix_terms::{Bytes, PackedRow, Row, Transcripts};
use std::alloc::{AllocError, Global};

/// A call of a run that was answered, and how it came to its answer.
#[derive(Clone, Copy, Debug)]
pub struct AnsweredCall<'a> {
    /// The thread that made it.
    pub thread: usize,
    /// The number of its row among those of its thread, from 0.
    pub number: usize,
    /// The number of the line that has it, from 1, in the text of its thread's script.
    pub line: usize,
    /// The call, the turn at which it was answered, and the reply.
    pub row: &'a Row,
    /// The clock of its first granted turn.
    pub granted: u64,
    /// At how many granted turns it was blocked.
    pub blocked: usize,
    /// The number, among those of its thread from 0, of the last outcome that came for it from
    /// outside.
    pub outcome: Option<usize>,
}

/// The calls of a run that were answered, thread by thread, each thread's in the order of its rows.
///
/// The texts are those of the threads' scripts, the transcripts are what the threads saw, and the
/// history has all granted turns in their order. The three are of one run. Where they are not, a
/// call whose line is not found has the line 0: its text is not a script, or has no such call. One
/// without turns in the history counts as granted at its row's own turn.
pub fn answered_calls<'a>(
    alloc: Global,
    texts: &[Bytes],
    transcripts: &'a Transcripts,
    history: &[PackedRow],
) -> Result<Vec<AnsweredCall<'a>>, AllocError>
    ensures { IfOk result (λ calls.
        map seen calls.items ≡ answered_calls 0 texts.now history.now transcripts.now) }
{
    let mut calls = Vec::new(alloc);
    for (thread, transcript) in transcripts.threads().iter().enumerate() {
        let text = text_of(texts, thread);
        push_thread(&mut calls, thread, text, history, transcript.rows())?;
    }
    Ok(calls)
}

// The text of a thread's script; it is empty where the thread has none.
pub(crate) fn text_of(texts: &[Bytes], thread: usize) -> &[u8]
    ensures { result.now ≡ slice_index_or texts.now thread [] }
{
    match texts.get(thread) {
        Some(text) => text.as_slice(),
        None => &[],
    }
}

// Adds the calls of a thread.
fn push_thread<'a>(
    calls: &mut Vec<AnsweredCall<'a>>,
    thread: usize,
    text: &[u8],
    history: &[PackedRow],
    rows: &'a [Row],
) -> Result<(), AllocError>
    ensures { OnOk result (
        map seen calls.new.items
        ≡ map seen calls.old.items ++ answered_of thread text.now history.now rows.now) }
{
    let alloc = *calls.allocator();
    let lines = lines_of_calls(alloc, text, rows)?;
    let ways = ways_of(alloc, thread, history)?;
    push_rows(calls, thread, &lines, &ways, rows)
}

// Adds the calls of a thread's rows, whose lines and ways these are.
fn push_rows<'a>(
    calls: &mut Vec<AnsweredCall<'a>>,
    thread: usize,
    lines: &[usize],
    ways: &[CallWay],
    rows: &'a [Row],
) -> Result<(), AllocError>
    ensures { OnOk result (
        map seen calls.new.items
        ≡ map seen calls.old.items ++ answered_from thread 0 lines.now ways.now rows.now) }
{
    for (number, row) in rows.iter().enumerate() {
        let way = ways.get(number).copied().unwrap_or(CallWay::unknown());
        calls.push(AnsweredCall {
            thread,
            number,
            line: lines.get(number).copied().unwrap_or(0),
            row,
            granted: way.granted.unwrap_or(row.turn.clock),
            blocked: way.blocked,
            outcome: way.outcome,
        })?;
    }
    Ok(())
}
