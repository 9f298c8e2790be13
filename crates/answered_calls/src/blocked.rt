ghost use Rattle.std.specs.Prelude.{◌≡◌, [], IfOk, map, slice_index_or};
ghost use Rattle.answered_calls.specs.Blocked.{blocked_line, blocked_lines, lines_blocked};
ghost use Rattle.answered_calls.specs.Blocked.{threads_done};

use crate::answered::text_of;
use crate::lines::next_call_line;
use deadlocks::{BlockedCall, blocked_for_good};
use posix_terms::{Bytes, PackedRow, Row, Transcripts};
use std::alloc::{AllocError, Global};

/// Where a call stands that is blocked for good.
#[derive(Clone, Copy, Debug, PartialEq, Eq)]
pub struct BlockedLine {
    /// The thread that made it.
    pub thread: usize,
    /// The number of its line, from 1, in the text of the thread's script; 0 where that is not found.
    pub line: usize,
}

/// Where these calls stand, in their order. The texts are those of the threads' scripts, and the
/// transcripts are what the threads saw.
pub fn blocked_lines(
    alloc: Global,
    texts: &[Bytes],
    transcripts: &Transcripts,
    calls: &[BlockedCall],
) -> Result<Vec<BlockedLine>, AllocError>
    ensures { IfOk result (λ lines.
        lines.items ≡ blocked_lines texts.now transcripts.now calls.now) }
{
    let mut lines = Vec::with_capacity(alloc, calls.len())?;
    for call in calls {
        lines.push(blocked_line(alloc, texts, transcripts, *call)?)?;
    }
    Ok(lines)
}

/// Where the calls stand that were blocked for good in a run, when first all were; none where there was no
/// such moment. A thread has ended where its script makes no call after those that were answered.
pub fn lines_blocked(
    alloc: Global,
    texts: &[Bytes],
    transcripts: &Transcripts,
    history: &[PackedRow],
) -> Result<Vec<BlockedLine>, AllocError>
    ensures { IfOk result (λ lines.
        lines.items ≡ lines_blocked texts.now transcripts.now history.now) }
{
    let ended = threads_done(alloc, texts, transcripts)?;
    let calls = blocked_for_good(alloc, &ended, history)?;
    blocked_lines(alloc, texts, transcripts, calls.as_slice())
}

// Of each thread, whether it makes no call after those that were answered.
fn threads_done(
    alloc: Global,
    texts: &[Bytes],
    transcripts: &Transcripts,
) -> Result<Vec<bool>, AllocError>
    ensures { IfOk result (λ done. done.items ≡ threads_done texts.now transcripts.now) }
{
    let mut done = Vec::with_capacity(alloc, texts.len())?;
    for (thread, text) in texts.iter().enumerate() {
        let next = next_call_line(alloc, text.as_slice(), rows_of(transcripts, thread))?;
        done.push(next.is_none())?;
    }
    Ok(done)
}

// Where a call stands.
fn blocked_line(
    alloc: Global,
    texts: &[Bytes],
    transcripts: &Transcripts,
    call: BlockedCall,
) -> Result<BlockedLine, AllocError>
    ensures { IfOk result (λ line. line ≡ blocked_line texts.now transcripts.now call) }
{
    let rows = rows_of(transcripts, call.thread);
    let before = &rows[..call.row.min(rows.len())];
    let line = next_call_line(alloc, text_of(texts, call.thread), before)?;
    Ok(BlockedLine {
        thread: call.thread,
        line: line.unwrap_or(0),
    })
}

// What a thread saw; nothing where there is no such thread.
fn rows_of(transcripts: &Transcripts, thread: usize) -> &[Row]
    ensures { result.now ≡ slice_index_or transcripts.now thread [] }
{
    match transcripts.threads().get(thread) {
        Some(transcript) => transcript.rows(),
        None => &[],
    }
}
