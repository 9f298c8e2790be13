ghost use Rattle.std.specs.Prelude.{◌≡◌, ◌+◌, ◌<◌, ◌≤◌, ◌↔◌, length, max, IsErr, IfOk, OnOk, OnErr};
ghost use Rattle.logical_clocks.specs.ThreadClocks.{AreWithinLimit, first_clocks, clock_at};
ghost use Rattle.logical_clocks.specs.ThreadClocks.{with_clock, with_end, live_clocks};
ghost use Rattle.logical_clocks.specs.TurnOrder.{has_turn, turn_holder};

use posix_terms::Limits;
use std::alloc::{AllocError, Global};
use std::marker::Model;

/// The logical clock of one thread, and whether the thread still takes part in turns.
#[derive(Clone, Copy, Debug, PartialEq, Eq)]
pub struct ThreadClock {
    /// The clock. A thread that has ended keeps the one that it had.
    pub clock: u64,
    /// Whether the thread has not ended.
    pub live: bool,
}

/// What was to be added has no room on the thread's clock.
#[derive(Clone, Copy, Debug, PartialEq, Eq)]
pub struct ClockFull;

/// The logical clocks of all threads. Contracts see the list of them, by the threads' numbers. No clock
/// passes `Limits::CLOCK`.
#[derive(Debug, Drop)]
pub struct Clocks {
    threads: Vec<ThreadClock>,
}

impl Model for Clocks {
    ghost use Rattle.std.specs.Prelude.{List};
    ghost use Rattle.logical_clocks.specs.declared.clocks.ThreadClock.{ThreadClock};

    ghost Value = { List ThreadClock };

    ghost use Rattle.logical_clocks.specs.ThreadClocks.{AreWithinLimit};

    ghost view = { λ c. c.threads.items };

    ghost invariant = { λ c. AreWithinLimit c.threads.items };
}

impl Clocks {
    /// So many threads, each at clock 1. This takes all the memory that they need.
    pub fn new(alloc: Global, threads: usize) -> Result<Clocks, AllocError>
        requires some { 1 ≤ threads }
        requires within_limit { threads ≤ Limits.THREADS }
        ensures { IfOk result (λ clocks. clocks ≡ first_clocks threads) }
    {
        let first = ThreadClock {
            clock: 1,
            live: true,
        };
        Ok(Clocks {
            threads: vec![in alloc; first; threads]?,
        })
    }

    /// Adds to the clock of a thread, exactly this much. Where that would take the clock past its limit
    /// it is refused, and nothing changes.
    pub fn add(&mut self, i: usize, n: u64) -> Result<(), ClockFull>
        requires { i < length self.old }
        ensures ok { OnOk result (self.new ≡ with_clock self.old i (clock_at self.old i + n)) }
        ensures full { IsErr result ↔ (Limits.CLOCK < clock_at self.old i + n) }
        ensures err { OnErr result (self.new ≡ self.old) }
    {
        let thread = &mut self.threads[i];
        if n > Limits::CLOCK - thread.clock {
            return Err(ClockFull);
        }
        thread.clock += n;
        Ok(())
    }

    /// Moves the clock of a thread on to this one, unless it is there or past it.
    #[inline(always)]
    pub fn raise(&mut self, i: usize, clock: u64)
        requires inside { i < length self.old }
        requires within_limit { clock ≤ Limits.CLOCK }
        ensures { self.new ≡ with_clock self.old i (max (clock_at self.old i) clock) }
    {
        let thread = &mut self.threads[i];
        thread.clock = thread.clock.max(clock);
    }

    /// Whether a thread has the turn: it has not ended, and each other thread that has not ended has a
    /// greater clock, or the same and a greater number.
    pub fn is_turn(&self, i: usize) -> bool
        requires { i < length self.now }
        ensures { result ≡ has_turn (live_clocks self.now) i }
    {
        match self.turn_holder() {
            Some(holder) => holder == i,
            None => false,
        }
    }

    /// The thread that has the turn; there is one unless all threads have ended.
    pub fn turn_holder(&self) -> Option<usize>
        ensures { result ≡ turn_holder (live_clocks self.now) }
    {
        let mut holder = None;
        let mut least = u64::MAX;
        for i in 0..self.threads.len() {
            let thread = self.threads[i];
            if thread.live && thread.clock < least {
                least = thread.clock;
                holder = Some(i);
            }
        }
        holder
    }

    /// Takes a thread out of all turns to come. It keeps its clock.
    pub fn end(&mut self, i: usize)
        requires { i < length self.old }
        ensures { self.new ≡ with_end self.old i }
    {
        self.threads[i].live = false;
    }

    /// The clock of a thread; of one that has ended the clock that it had. With
    /// it comes what holds of all clocks (`all_within_limit`).
    pub fn clock(&self, i: usize) -> u64
        requires { i < length self.now }
        ensures value { result ≡ clock_at self.now i }
        ensures within_limit { result ≤ Limits.CLOCK }
        ensures all_within_limit { AreWithinLimit self.now }
    {
        self.threads[i].clock
    }
}
