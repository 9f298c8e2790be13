ghost use Rattle.std.specs.Prelude.{◌≡◌, ◌↔◌, [], IfOk, IsTrue};
ghost use Rattle.deadlocks.specs.Blocked.{are_within, blocked_in};

use crate::places::ThreadPlaces;
use posix_terms::PackedRow;
use std::alloc::{AllocError, Global};
use std::marker::Model;

/// A call that is blocked for good.
#[derive(Clone, Copy, Debug, PartialEq, Eq)]
pub struct BlockedCall {
    /// The thread that made it.
    pub thread: usize,
    /// How many calls of the thread were answered before it: the number that its row will have.
    pub row: usize,
}

/// Calls that are blocked for good, by thread. Contracts see the list of them.
#[derive(Debug, Drop)]
pub struct BlockedCalls {
    calls: Vec<BlockedCall>,
}

impl Model for BlockedCalls {
    ghost use Rattle.std.specs.Prelude.{List};
    ghost use Rattle.deadlocks.specs.declared.blocked.BlockedCall.{BlockedCall};

    ghost Value = { List BlockedCall };

    ghost view = { λ c. c.calls.items };
}

impl BlockedCalls {
    /// None. It takes no memory.
    pub fn none(alloc: Global) -> BlockedCalls
        ensures { result ≡ [] }
    {
        BlockedCalls {
            calls: Vec::new(alloc),
        }
    }

    /// The calls, in order.
    pub fn as_slice(&self) -> &[BlockedCall]
        ensures { result.now ≡ self.now }
    {
        self.calls.as_slice()
    }

    /// Whether these are the same calls.
    pub fn is_same(&self, other: &BlockedCalls) -> bool
        ensures { IsTrue result ↔ (self.now ≡ other.now) }
    {
        self.calls.as_slice() == other.calls.as_slice()
    }
}

/// The calls that are blocked for good at the first moment at which all calls are that are not
/// answered yet, by thread; none where there is no such moment. The history has all turns of a run
/// in their order, and `ended` says of each of its threads whether it had ended when the run was
/// over. An error means out of memory.
pub fn blocked_for_good(
    alloc: Global,
    ended: &[bool],
    history: &[PackedRow],
) -> Result<BlockedCalls, AllocError>
    ensures { IfOk result (λ calls. calls ≡ blocked_in ended.now history.now) }
{
    if !are_within(history, ended.len()) {
        return Ok(BlockedCalls::none(alloc));
    }
    let mut places = ThreadPlaces::before(alloc, ended.len(), history)?;
    for row in history {
        places.pass(row);
        if places.are_stuck(ended) {
            let calls = places.waiting_calls(alloc, ended)?;
            return Ok(BlockedCalls { calls });
        }
    }
    Ok(BlockedCalls::none(alloc))
}

// Whether all turns are of threads of these, so many.
fn are_within(history: &[PackedRow], threads: usize) -> bool
    ensures { result ≡ are_within threads history.now }
{
    for row in history {
        if row.turn().thread >= threads {
            return false;
        }
    }
    true
}
