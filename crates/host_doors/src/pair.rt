ghost use Rattle.std.specs.Prelude.{◌≡◌, ◌≢◌, false, IfOk};
ghost use Rattle.host_doors.specs.declared.pair.HeldOutcome.{HeldOutcome};
ghost use Rattle.host_doors.specs.Gates.{MayAnswer};

use crate::gate::Gate;
use std::alloc::{AllocError, Global};
use std::marker::Model;
use std::sync::Arc;
use std::sync::atomic::{AtomicU64, Ordering};
use std::thread::sleep;
use std::time::{Clock, Duration};

/// Where an outcome stands: a thread, and the number of the outcome among those of the thread.
#[derive(Clone, Copy, Debug, PartialEq, Eq, Hash)]
pub struct OutcomePlace {
    pub thread: usize,
    pub number: u64,
}

/// The outcome that a gate holds, and whether it refused a call for it.
#[derive(Clone, Copy, Debug, PartialEq, Eq, Hash)]
pub(crate) struct HeldOutcome {
    pub(crate) place: OutcomePlace,
    pub(crate) missed: bool,
}

/// How often a gate looks whether the other call has entered, a millisecond apart.
const POLLS: u32 = 10_000;

/// The bits of the two outcomes, where both have entered.
const BOTH: u64 = 3;

/// One of two gates, each for a thread of its own, which hold an outcome each until the calls for both have
/// entered. A call whose other does not come within 10,000 polls, a millisecond apart, is refused. Every other
/// outcome passes. Contracts see the place of the outcome and whether a call for it was refused; that calls
/// are held, and for how long, is tested.
#[derive(Drop)]
pub struct PairGate<C> {
    held: HeldOutcome,
    bit: u64,
    entered: Arc<AtomicU64, Global>,
    clock: C,
}

impl<C> Model for PairGate<C> {
    ghost Value = { HeldOutcome };

    ghost view = { λ g. g.held };
}

impl<C: Clock + Clone + Drop> PairGate<C> {
    /// The gate for the thread of `first`, and the one for the thread of `second`. They share a word in
    /// memory, and sleep by the clock.
    pub fn new(
        alloc: Global,
        clock: C,
        first: OutcomePlace,
        second: OutcomePlace,
    ) -> Result<(PairGate<C>, PairGate<C>), AllocError>
        requires { first.thread ≢ second.thread }
        ensures first { IfOk result (λ gates. gates.0 ≡ record { place = first; missed = false }) }
        ensures second { IfOk result (λ both. both.1 ≡ record { place = second; missed = false }) }
    {
        let entered = Arc::new(alloc, AtomicU64::new(0))?;
        let there = Arc::try_clone(&entered)?;
        let other_clock = clock.clone()?;
        Ok((
            PairGate::holding(first, 1, entered, clock),
            PairGate::holding(second, 2, there, other_clock),
        ))
    }
}

impl<C> PairGate<C> {
    fn holding(
        place: OutcomePlace,
        bit: u64,
        entered: Arc<AtomicU64, Global>,
        clock: C,
    ) -> PairGate<C>
        ensures { result ≡ record { place = place; missed = false } }
    {
        PairGate {
            held: HeldOutcome {
                place,
                missed: false,
            },
            bit,
            entered,
            clock,
        }
    }
}

impl<C: Clock> PairGate<C> {
    /// Waits until both calls have entered. False where the other has not.
    fn meets(&self) -> bool {
        for _ in 0..POLLS {
            if self.entered.load(Ordering::SeqCst) == BOTH {
                return true;
            }
            sleep(&self.clock, Duration::from_millis(1));
        }
        false
    }
}

impl<C: Clock> Gate for PairGate<C> {
    ghost may_answer = { MayAnswer };

    fn enter(&mut self, thread: usize, number: u64) -> bool {
        if (OutcomePlace { thread, number }) != self.held.place {
            return true;
        }
        self.entered.fetch_or(self.bit, Ordering::SeqCst);
        let met = self.meets();
        if !met {
            self.held.missed = true;
        }
        met
    }
}
