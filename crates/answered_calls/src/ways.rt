ghost use Rattle.std.specs.Prelude.{◌≡◌, ◌+◌, ◌<◌, ◌^◌, ◌==◌, IfOk, is_some};
ghost use Rattle.answered_calls.specs.Answered.{unknown_way};
ghost use Rattle.answered_calls.specs.Steps.{outcomes_with, way_with};
ghost use Rattle.answered_calls.specs.Ways.{is_again, ways_of};

use posix_terms::PackedRow;
use std::alloc::{AllocError, Global};

// How a call came to its answer, by its turns.
#[derive(Clone, Copy, Debug)]
pub(crate) struct CallWay {
    // The clock of its first turn, if it had one.
    pub granted: Option<u64>,
    // At how many turns it was blocked.
    pub blocked: usize,
    // The number of the last outcome that came for it.
    pub outcome: Option<usize>,
}

/// How the calls of a thread came to their answers, those that have one. It walks the history once.
pub(crate) fn ways_of(
    alloc: Global,
    thread: usize,
    history: &[PackedRow],
) -> Result<Vec<CallWay>, AllocError>
    ensures { IfOk result (λ ways. ways.items ≡ ways_of thread history.now) }
{
    let mut ways = Vec::new(alloc);
    let mut way = CallWay::unknown();
    let mut outcomes = 0usize;
    for i in 0..history.len() {
        let turn = &history[i];
        if !is_of(turn, thread) {
            continue;
        }
        way = way.with_turn(turn, outcomes);
        outcomes = outcomes_with(outcomes, turn);
        if !turn.has_reply() {
            continue;
        }
        ways.push(way)?;
        way = CallWay::unknown();
    }
    Ok(ways)
}

impl CallWay {
    /// That of a call of which no turn is known.
    pub fn unknown() -> CallWay
        ensures { result ≡ unknown_way }
    {
        CallWay {
            granted: None,
            blocked: 0,
            outcome: None,
        }
    }

    // The way with one more turn, where so many outcomes of the thread had come before it.
    fn with_turn(self, turn: &PackedRow, outcomes: usize) -> CallWay
        requires { self.blocked + 1 < 2 ^ 64 }
        ensures { result ≡ way_with self outcomes turn.now }
    {
        CallWay {
            granted: Some(self.granted.unwrap_or(turn.turn().clock)),
            blocked: if is_again(turn) {
                self.blocked + 1
            } else {
                self.blocked
            },
            outcome: if has_come(turn) {
                Some(outcomes)
            } else {
                self.outcome
            },
        }
    }
}

// How many outcomes of the thread have come after this turn, if so many had before it.
fn outcomes_with(outcomes: usize, turn: &PackedRow) -> usize
    requires { outcomes + 1 < 2 ^ 64 }
    ensures { result ≡ outcomes_with outcomes turn.now }
{
    if has_come(turn) {
        outcomes + 1
    } else {
        outcomes
    }
}

fn is_of(turn: &PackedRow, thread: usize) -> bool
    ensures { result ≡ (turn.now.turn.thread == thread) }
{
    turn.turn().thread == thread
}

// Whether the call was blocked at this turn.
#[tactic(auto, using(crate::proofs::Turns::again_is))]
fn is_again(turn: &PackedRow) -> bool
    ensures { result ≡ is_again turn.now.answer }
{
    turn.is_answered() && !turn.has_reply()
}

// Whether an outcome came at this turn.
fn has_come(turn: &PackedRow) -> bool
    ensures { result ≡ is_some turn.now.outcome }
{
    turn.outcome().is_some()
}
