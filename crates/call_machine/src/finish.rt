ghost use Rattle.std.specs.Prelude.{◌≡◌, IfOk};
ghost use Rattle.call_machine.specs.History.{transcript_of, transcripts_of};
ghost use Rattle.call_machine.specs.Starting.{stop_told, stuck_for, told};
ghost use Rattle.lock_machine.specs.Whole.{thread_at};

use crate::driver::Driver;
use crate::history::History;
use crate::plain::Plain;
use lock_machine::{Phase, SpareStore};
use machine::Stop;
use posix_terms::{PackedRow, Row, Transcript, Transcripts};
use std::alloc::{AllocError, Global};

impl Driver {
    // What is reported of a run that has come to its end, or diverged at this thread. Its store is spare then.
    pub fn finish(
        self,
        alloc: Global,
        spare: &mut SpareStore,
        diverged: Option<usize>,
    ) -> Result<Plain, AllocError>
        ensures { IfOk result (λ plain. plain ≡ told diverged self.machine self.log) }
    {
        let stop = self.stop(diverged);
        let ended = self.machine.have_ended();
        let threads = self.machine.len();
        let Driver { machine, log, .. } = self;
        let left = machine.finish_into(spare);
        let transcripts = transcripts(alloc, threads, left.rows.as_slice())?;
        Ok(Plain {
            transcripts: Transcripts::from_vec(transcripts),
            history: History::new(left.rows, left.asked),
            log: log.finish(ended)?,
            stop,
        })
    }

    // Why a run stopped that diverged at this thread, or not: nobody has the turn once all threads have ended.
    fn stop(&self, diverged: Option<usize>) -> Option<Stop>
        ensures { result ≡ stop_told self.now.machine.threads diverged }
    {
        if let Some(i) = diverged {
            return Some(Stop::Diverged(i, self.came(i)));
        }
        let i = self.machine.turn_holder()?;
        Some(stuck_for(self.machine.phase(i), i))
    }

    // How many outcomes came for thread i.
    fn came(&self, i: usize) -> u32
        ensures { result ≡ (thread_at self.now.machine i).came }
    {
        if i < self.machine.len() {
            self.machine.came(i)
        } else {
            0
        }
    }
}

// What thread i is stuck for, which has the turn.
fn stuck_for(phase: &Phase, i: usize) -> Stop
    ensures { result ≡ stuck_for phase.now i }
{
    match phase {
        Phase::Outside(_) => Stop::EndOfLog(i),
        _ => Stop::ClockFull,
    }
}

// What each of the first threads saw.
fn transcripts(
    alloc: Global,
    threads: usize,
    rows: &[PackedRow],
) -> Result<Vec<Transcript>, AllocError>
    ensures { IfOk result (λ transcripts. transcripts.items ≡ transcripts_of threads rows.now) }
{
    let mut transcripts = Vec::new(alloc);
    for thread in 0..threads {
        transcripts.push(transcript(alloc, thread, rows)?)?;
    }
    Ok(transcripts)
}

// What one thread saw.
fn transcript(alloc: Global, thread: usize, rows: &[PackedRow]) -> Result<Transcript, AllocError>
    ensures { IfOk result (λ transcript. transcript ≡ transcript_of thread rows.now) }
{
    let mut own = Vec::with_capacity(alloc, replies(thread, rows))?;
    for row in rows {
        if row.turn().thread == thread
            && let Some(reply) = row.reply()?
        {
            own.push(Row {
                call: row.call().try_clone()?,
                turn: row.turn(),
                reply,
            })?;
        }
    }
    Ok(Transcript::from_vec(own))
}

// How many replies one thread got.
fn replies(thread: usize, rows: &[PackedRow]) -> usize {
    rows.iter()
        .filter(|row| row.turn().thread == thread && row.has_reply())
        .count()
}
