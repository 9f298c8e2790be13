ghost use Rattle.std.specs.Prelude.{◌≡◌};
ghost use Rattle.lock_machine.specs.Rooms.{HasSpace};

use crate::steps::Steps;
use call_turns::{Room, TurnEnd};
use descriptor_table::Errand;
use posix_terms::{Call, Carried};

/// A call that goes outside: the row of the history that it has, the object whose lock it holds, what it carries from
/// its blocked turns, what it asks, and whether it keeps the table to its answer.
#[derive(Clone, Copy)]
pub struct Outing {
    pub row: usize,
    pub object: Option<usize>,
    pub carried: Carried,
    pub errand: Errand,
    pub keeps_table: bool,
}

/// Where a thread is between its events.
#[derive(Drop)]
pub enum Phase {
    Working,
    /// wants the table, for a call that carries this
    WantsTable {
        call: Call,
        carried: Carried,
    },
    /// holds the table, which it took at this clock, and wants the lock of the object with this number
    WantsObject {
        call: Call,
        carried: Carried,
        clock: u64,
        object: usize,
    },
    /// in a call that has this row of the history, and whose turn ended so; it holds the lock of its object or, without
    /// one, the table
    Granted {
        row: usize,
        object: Option<usize>,
        ends: TurnEnd,
    },
    /// in a call that was granted and has still to go outside
    ToOutside(Outing),
    /// outside, where its outcome is awaited
    Outside(Outing),
    /// its outcome came and stands in the log
    Recorded(Outing),
    /// in a call that is blocked and carries this, which it makes again: the one that it asked last
    Blocked {
        carried: Carried,
    },
    Ended,
}

impl Phase {
    ghost use Rattle.lock_machine.specs.Refusals.{is_blocked, wants_lock, wants_object};
    ghost use Rattle.lock_machine.specs.Refusals.{wants_table, works};

    pub(crate) fn is_working(&self) -> bool
        ensures { result ≡ works self.now }
    {
        matches!(self, Phase::Working)
    }

    pub(crate) fn wants_table(&self) -> bool
        ensures { result ≡ wants_table self.now }
    {
        matches!(self, Phase::WantsTable { .. })
    }

    pub(crate) fn wants_object(&self) -> bool
        ensures { result ≡ wants_object self.now }
    {
        matches!(self, Phase::WantsObject { .. })
    }

    pub(crate) fn wants_lock(&self) -> bool
        ensures { result ≡ wants_lock self.now }
    {
        matches!(self, Phase::WantsTable { .. } | Phase::WantsObject { .. })
    }

    pub(crate) fn is_blocked(&self) -> bool
        ensures { result ≡ is_blocked self.now }
    {
        matches!(self, Phase::Blocked { .. })
    }
}

// A thread of a run: the steps that it asked, how many outcomes came for it from outside, and the memory for its reply.
#[derive(Drop)]
pub struct Thread {
    pub phase: Phase,
    pub asked: Steps,
    pub came: u32,
    pub room: Room,

    // there is room for what its call may bring
    ghost roomy: { HasSpace phase room },
}
