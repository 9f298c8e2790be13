// The clocks of the calls of a run, noted while it goes on. No contract speaks of them.
ghost use Rattle.std.specs.Prelude.{◌≡◌, IfOk};
ghost use Rattle.run_pictures.specs.Drawn.{calls_of};

use answered_calls::AnsweredCall;
use call_machine::{Phase, WatchesRun};
use posix_terms::{Limits, PackedRow};
use run_pictures::{CallClocks, DrawnCall};
use std::alloc::{AllocError, Global};

/// Notes the clocks of each call that is answered.
#[derive(Debug, Drop)]
pub struct NotedClocks {
    threads: Vec<ThreadClocks>,
    // Whether there was no memory for some.
    lacking: bool,
}

// Those of a thread.
#[derive(Debug, Drop)]
struct ThreadClocks {
    // When it asked for the call that it is in, if it is in one.
    asked: Option<u64>,
    // When it made its last attempt.
    attempted: u64,
    // Of the calls that were answered.
    calls: Vec<CallClocks>,
}

impl NotedClocks {
    /// Of no calls.
    pub fn new(alloc: Global) -> Result<NotedClocks, AllocError> {
        let mut threads = Vec::new(alloc);
        for _ in 0..Limits::THREADS {
            threads.push(ThreadClocks {
                asked: None,
                attempted: 0,
                calls: Vec::new(alloc),
            })?;
        }
        Ok(NotedClocks {
            threads,
            lacking: false,
        })
    }

    // Those of a call. Where none were noted they are those of its turns.
    fn of(&self, call: &AnsweredCall<'_>) -> CallClocks {
        let turn = call.row.turn.clock;
        let noted = match self.threads.get(call.thread) {
            Some(thread) => thread.calls.get(call.number).copied(),
            None => None,
        };
        noted.unwrap_or(CallClocks {
            asked: call.granted,
            locked: turn,
            answered: turn,
        })
    }
}

impl ThreadClocks {
    // It asks for a call at this clock, or again for the one that it is in.
    fn asks(&mut self, clock: u64) {
        self.asked = Some(self.asked.unwrap_or(clock));
    }

    // It is in no call at this clock: the one in which it was has its reply.
    fn works(&mut self, clock: u64) -> Result<(), AllocError> {
        let Some(asked) = self.asked.take() else {
            return Ok(());
        };
        self.calls.push(CallClocks {
            asked,
            locked: self.attempted,
            answered: clock,
        })?;
        Ok(())
    }
}

impl WatchesRun for NotedClocks {
    fn begins(&mut self, _records: usize) {}

    fn attempts(&mut self, thread: usize, clock: u64) {
        if let Some(noted) = self.threads.get_mut(thread) {
            noted.attempted = clock;
        }
    }

    fn reached(&mut self, _rows: &[PackedRow], _came: u32) {}

    fn moved(&mut self, thread: usize, phase: &Phase, clock: u64) {
        let Some(noted) = self.threads.get_mut(thread) else {
            return;
        };
        match phase {
            Phase::WantsTable { .. } => noted.asks(clock),
            Phase::Working => {
                if noted.works(clock).is_err() {
                    self.lacking = true;
                }
            }
            _ => {}
        }
    }

    fn ended(&mut self) {}
}

/// These calls as they are drawn, with the clocks that were noted while their run went on.
pub fn drawn_calls<'a>(
    alloc: Global,
    calls: &[AnsweredCall<'a>],
    clocks: &NotedClocks,
) -> Result<Vec<DrawnCall<'a>>, AllocError>
    ensures { IfOk result (λ drawn. calls_of drawn.items ≡ calls.now) }
{
    if clocks.lacking {
        return Err(AllocError);
    }
    let mut drawn = Vec::new(alloc);
    for call in calls {
        drawn.push(DrawnCall {
            call: *call,
            clocks: clocks.of(call),
        })?;
    }
    Ok(drawn)
}
