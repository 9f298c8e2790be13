ghost use Rattle.std.specs.Prelude.{◌≡◌, ◌≤◌, ◌↔◌, ◌&&◌, [], IsTrue, OnOk, OnErr, is_ok};
ghost use Rattle.std.specs.Prelude.{vec_capacity};
ghost use Rattle.machine.specs.History.{transcript_of};
ghost use Rattle.recorder.specs.Recorded.{AreBeginnings, IsCutShort, IsWhole, transcripts_of};

use posix_terms::{PackedRow, Row, Transcript, Transcripts};
use std::alloc::{AllocError, Global};

// What the threads of a run saw, and whether that is all: where there is no memory it is a
// beginning.
#[derive(Drop)]
pub struct SeenRows {
    pub transcripts: Transcripts,
    pub whole: bool,
}

// What each of the first threads saw, as far as there is memory for it.
pub fn seen_by(alloc: Global, threads: usize, rows: &[PackedRow], room: Vec<Transcript>) -> SeenRows
    requires none { room.items ≡ [] }
    requires room { threads ≤ vec_capacity room }
    ensures begin { AreBeginnings result.transcripts (transcripts_of threads rows.now) }
    ensures whole { IsTrue result.whole ↔ IsWhole threads rows.now result.transcripts }
{
    let mut transcripts = room;
    let mut whole = true;
    for thread in 0..threads {
        let mut transcript = Transcript::new(alloc);
        let filled = fill(&mut transcript, thread, rows);
        whole = still(whole, &filled);
        transcripts.push_reserved(transcript);
    }
    SeenRows {
        transcripts: Transcripts::from_vec(transcripts),
        whole,
    }
}

// Whether all is whole, with what was filled in for one thread more.
fn still(whole: bool, filled: &Result<(), AllocError>) -> bool
    ensures { result ≡ (whole && is_ok filled.now) }
{
    whole && filled.is_ok()
}

// Fills in what one thread saw; where there is no memory, a beginning of it.
fn fill(transcript: &mut Transcript, thread: usize, rows: &[PackedRow]) -> Result<(), AllocError>
    requires { transcript.old ≡ [] }
    ensures ok { OnOk result (transcript.new ≡ transcript_of thread rows.now) }
    ensures err { OnErr result (IsCutShort transcript.new (transcript_of thread rows.now)) }
{
    for row in rows {
        if row.turn().thread == thread && row.has_reply() {
            if let Some(reply) = row.reply()? {
                transcript.push(Row {
                    call: row.call().try_clone()?,
                    turn: row.turn(),
                    reply,
                })?;
            }
        }
    }
    Ok(())
}
