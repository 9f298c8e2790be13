ghost use Rattle.std.specs.Prelude.{◌≡◌, ◌+◌, ◌<◌, ◌^◌, ◌∷◌, ◌||◌, ℕ, All, IfOk, List, []};
ghost use Rattle.std.specs.Prelude.{count_by, length};
ghost use Rattle.std.specs.Prelude.{nat_lt, not};
ghost use Rattle.deadlocks.specs.Blocked.{are_stuck, is_blocked, is_of, may_move, since_reply};
ghost use Rattle.deadlocks.specs.Blocked.{waiting_calls};
ghost use Rattle.deadlocks.specs.Places.{ArePlaces, place_after};
ghost use Rattle.deadlocks.specs.declared.places.ThreadPlace.{ThreadPlace};
ghost use Rattle.posix_terms.specs.declared.transcript.HistoryRow.{HistoryRow};

use crate::blocked::BlockedCall;
use posix_terms::{CallKind, PackedRow};
use std::alloc::{AllocError, Global};

// What is known of a thread between two turns of a history.
#[derive(Clone, Copy, Debug)]
struct ThreadPlace {
    // How many turns it has still to come.
    left: usize,
    // Whether it was blocked since a call last went on.
    since_reply: bool,
    // Whether it was blocked since something may have changed.
    still: bool,
    // How many of its calls were answered.
    replies: usize,
}

impl ThreadPlace {
    // Whether the thread has turns to come or, in the end, has not ended.
    fn is_live(&self, has_ended: bool) -> bool
        ensures { result ≡ (not has_ended || nat_lt 0 self.now.left) }
    {
        !has_ended || self.left > 0
    }

    // The place after a turn of this thread or another.
    fn after(self, own: bool, row: &PackedRow, moves: bool) -> ThreadPlace
        requires { self.replies + 1 < 2 ^ 64 }
        ensures { result ≡ place_after self own row.now moves }
    {
        let blocked = is_blocked(row);
        ThreadPlace {
            left: if own {
                self.left.saturating_sub(1)
            } else {
                self.left
            },
            since_reply: blocked && (own || self.since_reply),
            still: blocked && !moves && (own || self.still),
            replies: if own && row.has_reply() {
                self.replies + 1
            } else {
                self.replies
            },
        }
    }
}

// What is known of each thread between two turns of a history.
#[derive(Debug, Drop)]
pub(crate) struct ThreadPlaces {
    threads: Vec<ThreadPlace>,
}

impl ThreadPlaces {
    // The places of so many threads before all turns.
    pub fn before(
        alloc: Global,
        threads: usize,
        history: &[PackedRow],
    ) -> Result<ThreadPlaces, AllocError>
        ensures { IfOk result (λ places. ArePlaces threads [] history.now places.threads.items) }
    {
        let mut places = Vec::with_capacity(alloc, threads)?;
        for thread in 0..threads {
            places.push(ThreadPlace {
                left: turns_of(thread, history),
                since_reply: false,
                still: false,
                replies: 0,
            })?;
        }
        Ok(ThreadPlaces { threads: places })
    }

    // Follows one more turn.
    pub fn pass(&mut self, row: &PackedRow)
        requires { All (λ (p : ThreadPlace). p.replies + 1 < 2 ^ 64) self.old.threads.items }
        ensures { (threads : ℕ) (past later : List HistoryRow)
            → ArePlaces threads past (row.now ∷ later) self.old.threads.items
            → row.now.turn.thread < threads
            → ArePlaces threads (row.now ∷ past) later self.new.threads.items }
    {
        let thread = row.turn().thread;
        let moves = self.may_move(row);
        for i in 0..self.threads.len() {
            self.threads[i] = self.threads[i].after(thread == i, row, moves);
        }
    }

    // Whether the call may move bytes at its next turn, which this is.
    fn may_move(&self, row: &PackedRow) -> bool
        ensures { (threads : ℕ) (past later : List HistoryRow)
            → ArePlaces threads past later self.now.threads.items
            → row.now.turn.thread < threads
            → result ≡ may_move row.now (since_reply past) }
    {
        let thread = row.turn().thread;
        let was_blocked = thread < self.threads.len() && self.threads[thread].since_reply;
        row.call().kind() == CallKind::Write && !was_blocked
    }

    // Whether there is a live thread, and each was blocked since something may have changed.
    pub fn are_stuck(&self, ended: &[bool]) -> bool
        requires { length self.now.threads.items ≡ length ended.now }
        ensures { (past later : List HistoryRow)
            → ArePlaces (length ended.now) past later self.now.threads.items
            → result ≡ are_stuck (waiting_calls 0 ended.now past later) past }
    {
        let mut live = false;
        for thread in 0..ended.len() {
            let place = self.threads[thread];
            if place.is_live(ended[thread]) {
                if !place.still {
                    return false;
                }
                live = true;
            }
        }
        live
    }

    // The calls that the live threads make next, or wait with.
    pub fn waiting_calls(
        &self,
        alloc: Global,
        ended: &[bool],
    ) -> Result<Vec<BlockedCall>, AllocError>
        requires { length self.now.threads.items ≡ length ended.now }
        ensures { IfOk result (λ calls. (past later : List HistoryRow)
            → ArePlaces (length ended.now) past later self.now.threads.items
            → calls.items ≡ waiting_calls 0 ended.now past later) }
    {
        let mut calls = Vec::new(alloc);
        for thread in 0..ended.len() {
            let place = self.threads[thread];
            if place.is_live(ended[thread]) {
                calls.push(BlockedCall {
                    thread,
                    row: place.replies,
                })?;
            }
        }
        Ok(calls)
    }
}

// How many of these turns are of this thread.
fn turns_of(thread: usize, history: &[PackedRow]) -> usize
    ensures { result ≡ count_by (is_of thread) history.now }
{
    history
        .iter()
        .filter(|row| row.turn().thread == thread)
        .count()
}

// Whether the call could not go on at this turn, and nothing outside has to do with it.
fn is_blocked(row: &PackedRow) -> bool
    ensures { result ≡ is_blocked row.now }
{
    row.is_answered() && !row.has_reply() && row.outcome().is_none()
}
