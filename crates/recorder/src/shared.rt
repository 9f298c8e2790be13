ghost use Rattle.std.specs.Prelude.{◌≡◌, ◌↔◌, All, IsTrue, None, Some, false, replicate, true};
ghost use Rattle.std.specs.Prelude.{slice_index_or, slice_set};
ghost use Rattle.posix_terms.specs.declared.limits.TheConstants.Limits as limit;

use crate::pulse::Pulse;
use input_log::LogSink;
use machine::Machine;
use posix_terms::{Limits, Reply};
use std::mem;
use std::sync::{Condvar, Mutex, MutexGuard, Wait};

// The machine, and what its workers have not seen of it yet.
#[derive(Drop)]
pub struct Guarded<S: LogSink, D: Drop> {
    pub machine: Machine<S, D>,
    // by thread the reply that its call was given, until its worker takes it
    pub told: Vec<Option<Reply>>,
    pub wakes: Wakes,
}

impl<S: LogSink, D: Drop> Guarded<S, D> {
    // The reply that the call of thread i was given, if its worker has not taken it yet.
    pub fn take_reply(&mut self, i: usize) -> Option<Reply>
        ensures reply { result ≡ slice_index_or self.old.told.items i None }
        ensures taken { self.new.told.items ≡ slice_set self.old.told.items i None }
        ensures machine { self.new.machine ≡ self.old.machine }
        ensures wakes { self.new.wakes ≡ self.old.wakes }
    {
        self.told.get_mut(i)?.take()
    }

    // The call of thread i has this reply: its worker is to be woken.
    pub fn tell(&mut self, i: usize, reply: Reply)
        ensures told { self.new.told.items ≡ slice_set self.old.told.items i (Some reply) }
        ensures machine { self.new.machine ≡ self.old.machine }
        ensures wakes { self.new.wakes.of ≡ slice_set self.old.wakes.of i true }
    {
        if let Some(told) = self.told.get_mut(i) {
            *told = Some(reply);
        }
        self.wakes.add(i);
    }
}

// The workers that are to be woken once the machine is let go.
#[derive(Clone, Copy)]
pub struct Wakes {
    // by thread whether its worker is among them
    of: [bool; Limits::THREADS],
}

impl Wakes {
    pub fn none() -> Wakes
        ensures { result.of ≡ replicate limit.THREADS false }
    {
        Wakes {
            of: [false; Limits::THREADS],
        }
    }

    pub fn all() -> Wakes
        ensures { result.of ≡ replicate limit.THREADS true }
    {
        Wakes {
            of: [true; Limits::THREADS],
        }
    }

    pub fn add(&mut self, i: usize)
        ensures { self.new.of ≡ slice_set self.old.of i true }
    {
        self.set(i, true);
    }

    pub fn remove(&mut self, i: usize)
        ensures { self.new.of ≡ slice_set self.old.of i false }
    {
        self.set(i, false);
    }

    fn set(&mut self, i: usize, is_woken: bool)
        ensures { self.new.of ≡ slice_set self.old.of i is_woken }
    {
        if i < self.of.len() {
            self.of[i] = is_woken;
        }
    }

    fn is_empty(&self) -> bool
        ensures { IsTrue result ↔ All (λ is_woken. is_woken ≡ false) self.now.of }
    {
        !self.of.contains(&true)
    }
}

// What the workers of a run share: the one machine, and for each worker a place to wait for its own
// next event.
#[derive(Drop)]
pub struct SharedRun<S: LogSink, D: Drop> {
    pub held: Mutex<Guarded<S, D>>,
    pub turns: Vec<Condvar>,
    // whether calls go outside in the order of the turns
    pub in_turn: bool,
    pub pulse: Pulse,
}

impl<S: LogSink, D: Drop> SharedRun<S, D> {
    // Lets the machine go, and then wakes who is to be woken.
    pub fn let_go(&self, held: MutexGuard<'_, Guarded<S, D>>) {
        let mut held = held;
        let wakes = mem::replace(&mut held.wakes, Wakes::none());
        drop(held);
        for (turn, wakes) in self.turns.iter().zip(wakes.of) {
            if wakes {
                turn.notify_all();
            }
        }
    }

    // Worker i waits until it is woken. Where others are to be woken it lets the machine go for
    // that, and does not wait: what it waits for may have come meanwhile.
    pub fn rest<'a, R: Wait>(
        &'a self,
        rt: &R,
        held: MutexGuard<'a, Guarded<S, D>>,
        i: usize,
    ) -> MutexGuard<'a, Guarded<S, D>> {
        if !held.wakes.is_empty() {
            self.let_go(held);
            return self.held.lock(rt);
        }
        match self.turns.get(i) {
            Some(turn) => turn.wait(rt, held),
            None => held,
        }
    }
}
