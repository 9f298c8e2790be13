ghost use Rattle.std.specs.Prelude.{◌≡◌, ◌*◌, ◌<◌, ◌≤◌, IfSome, length, map};
ghost use Rattle.posix_terms.specs.declared.limits.TheConstants.Limits as limit;
ghost use Rattle.logical_clocks.specs.TurnOrder.{has_turn, turn_holder};
ghost use Rattle.lock_machine.specs.Births.{BornWithin, time_of};
ghost use Rattle.lock_machine.specs.Lives.{Agree};
ghost use Rattle.lock_machine.specs.Threads.{Thread as Seen, have_ended};
ghost use Rattle.lock_machine.specs.Views.{clocks_of};
ghost use Rattle.lock_machine.specs.Wanted.{AllHaveDecided};
ghost use Rattle.lock_machine.specs.Waiting.{HasRoom, waiting};
ghost use Rattle.lock_machine.specs.Shows.{logged_clock};
ghost use Rattle.lock_machine.specs.Whole.{settings_in, thread_at};

use crate::asked::Asked;
use crate::spare::SpareStore;
use crate::thread::{Phase, Thread};
use call_turns::{Locking, Store};
use det_mutex::DetLock;
use logical_clocks::Clocks;
use posix_terms::{PackedRow, Settings, Step};
use std::marker::Model;

// The table with its lock and the bodies of the objects, and the rows of what was granted so far.
#[derive(Drop)]
pub struct Shared {
    pub lock: DetLock,
    pub store: Box<Store>,
    pub rows: Vec<PackedRow>,
    // what was decided of the last call that was to lock an object: it
    // holds as long as that call's thread keeps the table
    pub wanted: Option<Locking>,
}

/// Threads that share one table of descriptors, by locks that they take at
/// their turns: the lock machine of `lock_model`, made run. It
/// knows no actor: it is handed each step and each outcome. Contracts see the
/// threads with their clocks, the locks, the table and the rows.
#[derive(Drop)]
pub struct LockMachine {
    pub(crate) settings: Settings,
    pub(crate) threads: Vec<Thread>,
    pub(crate) clocks: Clocks,
    pub(crate) shared: Shared,
    // a number that is used again keeps its lock
    pub(crate) objects: Vec<DetLock>,

    // a thread is live in its clock exactly until its phase is that it has ended
    ghost agree: { Agree threads.items clocks },
    ghost few: { length threads.items ≤ limit.THREADS },
    // each grant and each answer moves a clock, and makes two at most
    ghost births: { BornWithin (2 * time_of clocks) shared.store.value },
    // a call that waits for a lock finds room for its row
    ghost room: { HasRoom (waiting threads.items) shared.rows },
    // what was decided of a call holds until it is granted, or answered where it keeps the table
    ghost wanted: { AllHaveDecided threads.items shared.lock shared.rows.items shared.store.value
        shared.wanted },
}

impl Model for LockMachine {
    ghost use Rattle.lock_machine.specs.Threads.{joined};
    ghost use Rattle.lock_machine.specs.Whole.{Whole};
    ghost use Rattle.call_turns.specs.StoreCode.{stored_code};
    ghost use Rattle.std.specs.Coded.{codes};

    ghost Value = { Whole };

    ghost coded = { Prim.hlevel (codes, stored_code) };

    ghost view = { λ m. record {
      settings = m.settings;
      threads = joined m.threads.items m.clocks;
      lock = m.shared.lock;
      objects = m.objects.items;
      table = m.shared.store.value;
      rows = m.shared.rows.items;
    } };
}

/// What a machine leaves that is over: the rows of its history, and the steps that each thread asked.
#[derive(Drop)]
pub struct Left {
    pub rows: Vec<PackedRow>,
    pub asked: Asked,
}

impl LockMachine {
    /// How many threads there are.
    pub fn len(&self) -> usize
        ensures count { result ≡ length self.now.threads }
        ensures within_limit { result ≤ limit.THREADS }
    {
        self.threads.len()
    }

    /// Where thread i is between its events.
    pub fn phase(&self, i: usize) -> &Phase
        requires { i < length self.now.threads }
        ensures { result.now ≡ (thread_at self.now i).phase }
    {
        &self.threads[i].phase
    }

    /// How many outcomes came for thread i.
    pub fn came(&self, i: usize) -> u32
        requires { i < length self.now.threads }
        ensures { result ≡ (thread_at self.now i).came }
    {
        self.threads[i].came
    }

    /// The clock of thread i. That of a thread that has ended is the one at which it did.
    pub fn clock(&self, i: usize) -> u64
        requires { i < length self.now.threads }
        ensures { result ≡ (thread_at self.now i).clock }
    {
        self.clocks.clock(i)
    }

    /// The thread that has the turn: nobody has, once all threads have ended.
    pub fn turn_holder(&self) -> Option<usize>
        ensures holder { result ≡ turn_holder (clocks_of self.now.threads) }
        ensures inside { IfSome result (λ i. i < length self.now.threads) }
    {
        self.clocks.turn_holder()
    }

    /// Whether thread i has the turn. An attempt without it is refused.
    pub fn has_turn(&self, i: usize) -> bool
        requires { i < length self.now.threads }
        ensures { result ≡ has_turn (clocks_of self.now.threads) i }
    {
        self.clocks.is_turn(i)
    }

    /// Whether all threads have ended.
    pub fn have_ended(&self) -> bool
        ensures { result ≡ have_ended self.now.threads }
    {
        for i in 0..self.len() {
            if !matches!(self.phase(i), Phase::Ended) {
                return false;
            }
        }
        true
    }

    /// The settings that it was made with.
    pub fn settings(&self) -> Settings
        ensures { result ≡ settings_in self.now }
    {
        self.settings
    }

    /// The clock that a log of the version of these settings has of the next outcome of thread i, which is
    /// outside: that of its call's turn in version 2, and none in version 1.
    pub fn logged_clock(&self, i: usize) -> Option<u64>
        requires { i < length self.now.threads }
        ensures { result ≡ logged_clock self.now i }
    {
        if self.settings.version != 2 {
            return None;
        }
        let Phase::Outside(outing) = self.phase(i) else {
            return None;
        };
        let row = self.shared.rows.get(outing.row)?;
        Some(row.turn().clock)
    }

    /// The rows of what was granted so far.
    pub fn rows(&self) -> &[PackedRow]
        ensures { result.now ≡ self.now.rows }
    {
        self.shared.rows.as_slice()
    }

    /// The steps that thread i asked so far.
    pub fn asked(&self, i: usize) -> &[Step]
        requires { i < length self.now.threads }
        ensures { result.now ≡ (thread_at self.now i).asked }
    {
        self.threads[i].asked.as_slice()
    }

    /// What is left of the machine when it is over. It takes no memory.
    pub fn finish(self) -> Left
        ensures rows { result.rows.items ≡ self.rows }
        ensures asked { result.asked ≡ map (λ (t : Seen). t.asked) self.threads }
    {
        self.finish_into(&mut SpareStore::new())
    }

    /// What is left of the machine when it is over, and its store for the next one. It takes no memory.
    pub fn finish_into(self, spare: &mut SpareStore) -> Left
        ensures rows { result.rows.items ≡ self.rows }
        ensures asked { result.asked ≡ map (λ (t : Seen). t.asked) self.threads }
    {
        let LockMachine {
            threads,
            shared,
            ..
        } = self;
        let Shared { store, rows, .. } = shared;
        spare.put(store);
        Left {
            rows,
            asked: Asked::new(threads),
        }
    }
}
