ghost use Rattle.std.specs.Prelude.{◌≡◌, ◌↔◌, IfOk, IsTrue, map};
ghost use Rattle.explorer.specs.Observations.{EndAlike, clockless, observed, seen_of};

use crate::ended::EndedThreads;
use call_machine::{Plain, Stop};
use comparator::{Verdict, compare};
use deadlocks::{BlockedCalls, blocked_for_good};
use posix_terms::{Row, Transcript, Transcripts, Turn};
use std::alloc::{AllocError, Global};

/// What the threads of a run saw, which of them had ended, why it stopped, if it did before all of
/// them had, and which calls were blocked for good.
#[derive(Debug, Drop)]
pub struct Observation {
    /// Their calls and replies. The clock of each turn is 0.
    pub seen: Transcripts,
    pub ended: EndedThreads,
    pub stop: Option<Stop>,
    /// The calls that were blocked for good when first all were.
    pub blocked: BlockedCalls,
}

impl Observation {
    /// What is seen in a run. An error means out of memory.
    pub fn new(alloc: Global, plain: &Plain) -> Result<Observation, AllocError>
        ensures { IfOk result (λ observation. observation ≡ observed plain.now) }
    {
        let ended = EndedThreads::new(alloc, plain.history.asked())?;
        let blocked = blocked_for_good(alloc, ended.as_slice(), plain.history.rows())?;
        Ok(Observation {
            seen: seen(alloc, plain.transcripts.threads())?,
            ended,
            stop: plain.stop,
            blocked,
        })
    }

    /// Whether two runs ended alike: the same threads had ended, they stopped for the same reason, or
    /// neither stopped, and the same calls were blocked for good, or none in both.
    pub fn ends_alike(&self, other: &Observation) -> bool
        ensures { IsTrue result ↔ EndAlike self.now other.now }
    {
        self.stop == other.stop
            && self.ended.is_same(&other.ended)
            && self.blocked.is_same(&other.blocked)
    }

    /// Whether two runs ended alike, and their threads saw the same.
    pub fn is_same(&self, other: &Observation) -> bool
        ensures { IsTrue result ↔ (self.now ≡ other.now) }
    {
        self.ends_alike(other) && matches!(compare(&self.seen, &other.seen), Verdict::Same)
    }
}

// What threads saw, without the clocks.
fn seen(alloc: Global, transcripts: &[Transcript]) -> Result<Transcripts, AllocError>
    ensures { IfOk result (λ seen. seen ≡ seen_of transcripts.now) }
{
    let mut threads = Vec::with_capacity(alloc, transcripts.len())?;
    for transcript in transcripts {
        threads.push(seen_by(alloc, transcript.rows())?)?;
    }
    Ok(Transcripts::from_vec(threads))
}

// What one thread saw, without the clocks.
fn seen_by(alloc: Global, rows: &[Row]) -> Result<Transcript, AllocError>
    ensures { IfOk result (λ seen. seen ≡ map clockless rows.now) }
{
    let mut seen = Vec::with_capacity(alloc, rows.len())?;
    for row in rows {
        seen.push(Row {
            call: row.call.try_clone()?,
            turn: Turn {
                clock: 0,
                thread: row.turn.thread,
            },
            reply: row.reply.try_clone()?,
        })?;
    }
    Ok(Transcript::from_vec(seen))
}
