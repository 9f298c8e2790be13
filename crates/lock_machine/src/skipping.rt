ghost use Rattle.std.specs.Prelude.{◌≡◌, ◌<◌, ◌≤◌, ℕ, IfSome, false, length};
ghost use Rattle.logical_clocks.specs.ThreadClocks.{clock_at};
ghost use Rattle.logical_clocks.specs.TurnOrder.{is_before, turn_holder};
ghost use Rattle.lock_machine.specs.Refusals.{wants_lock};
ghost use Rattle.lock_machine.specs.Skipping.{ArePassed, FailsUntil, IsDue, NeedNotFail, Opens};
ghost use Rattle.lock_machine.specs.Skipping.{OpensAt};
ghost use Rattle.lock_machine.specs.Skipping.{SkipsFailures, phase_of};
ghost use Rattle.lock_machine.specs.Views.{clocks_of};
ghost use Rattle.lock_machine.specs.Whole.{settings_in};
ghost use Rattle.lock_model.specs.Skipping.{StaysShut, first_from, turn_at};
ghost use Rattle.posix_terms.specs.declared.limits.TheConstants.Limits as limit;
ghost use Rattle.posix_terms.specs.declared.transcript.Turn.{Turn as Moment};

use crate::machine::LockMachine;
use crate::thread::{Phase, Thread};
use det_mutex::DetLock;
use lock_model::{failing_attempts, turn_order};
use logical_clocks::Clocks;
use posix_terms::{Limits, Turn};

impl LockMachine {
    /// Skips the attempts that must fail: the clocks of the threads that wait for a lock are then
    /// what those before the next one that need not fail leave, each by the thread with the turn.
    /// Returns the thread that has the turn then: nobody has it, once all threads have ended. Among
    /// others it need not fail, unless its clock is at the limit. A thread alone waits for nobody.
    #[inline(always)]
    pub fn skip_failures(&mut self) -> Option<usize>
        ensures event { SkipsFailures self.old self.new }
        ensures holder { result ≡ turn_holder (clocks_of self.new.threads) }
        ensures inside { IfSome result (λ i. i < length self.new.threads) }
        ensures next { 2 ≤ length self.old.threads → IfSome result (NeedNotFail self.new) }
        ensures count { length self.new.threads ≡ length self.old.threads }
        ensures settings { settings_in self.new ≡ settings_in self.old }
        ensures table { self.new.table ≡ self.old.table }
    {
        failing_attempts();
        turn_order();
        if self.len() < 2 {
            return self.turn_holder();
        }
        let turn = next_opening(
            self.threads.as_slice(),
            &self.clocks,
            self.shared.lock,
            self.objects.as_slice(),
        );
        pass(turn, self.threads.as_slice(), &mut self.clocks);
        if turn.clock < Limits::CLOCK {
            return Some(turn.thread);
        }
        self.turn_holder()
    }
}

// The least turn that is for more than an attempt that fails; or, where there is none within the
// limit of clocks, the first that is not.
fn next_opening(threads: &[Thread], clocks: &Clocks, table: DetLock, objects: &[DetLock]) -> Turn
    requires { length threads.now ≤ length clocks.now }
    ensures within { (j : ℕ) → first_from result j ≤ limit.CLOCK }
    ensures fails { (j : ℕ) → j < length threads.now
        → FailsUntil table objects.now result j (clock_at clocks.now j) (phase_of threads.now j) }
    ensures due { result.clock < limit.CLOCK
        → IsDue table objects.now threads.now clocks.now result }
{
    let mut turn = Turn {
        clock: Limits::CLOCK,
        thread: 0,
    };
    for i in 0..threads.len() {
        if let Some(clock) = opening(&threads[i].phase, clocks.clock(i), table, objects) {
            if clock < turn.clock {
                turn = Turn { clock, thread: i };
            }
        }
    }
    turn
}

// From which clock on a thread may do more than attempts that fail.
#[inline(always)]
fn opening(phase: &Phase, clock: u64, table: DetLock, objects: &[DetLock]) -> Option<u64>
    ensures fails { (turn : Moment) (j : ℕ) → turn.clock ≤ limit.CLOCK
        → IfSome result (λ opens. is_before (turn_at j opens) turn ≡ false)
        → FailsUntil table objects.now turn j clock phase.now }
    ensures opens { IfSome result (λ opens. Opens table objects.now clock opens phase.now) }
{
    match phase {
        Phase::Ended => None,
        Phase::WantsTable { .. } => opened(table, clock),
        Phase::WantsObject { object, .. } => match objects.get(*object) {
            Some(lock) => opened(*lock, clock),
            None => opened(DetLock::new(), clock),
        },
        _ => Some(clock),
    }
}

// From which clock on, of those from this one on, a lock opens.
#[inline(always)]
fn opened(lock: DetLock, clock: u64) -> Option<u64>
    ensures shut { (turn : Moment) (j : ℕ) → turn.clock ≤ limit.CLOCK
        → IfSome result (λ opens. is_before (turn_at j opens) turn ≡ false)
        → StaysShut lock turn j clock }
    ensures opens { IfSome result (λ opens. OpensAt lock clock opens) }
{
    match lock.opens() {
        Some(opens) => Some(opens.max(clock)),
        None => None,
    }
}

// Moves the clocks of the threads that wait for a lock on to where they do not come before this
// turn.
fn pass(turn: Turn, threads: &[Thread], clocks: &mut Clocks)
    requires inside { length threads.now ≤ length clocks.old }
    requires within { (j : ℕ) → first_from turn j ≤ limit.CLOCK }
    ensures { ArePassed turn threads.now clocks.old clocks.new }
{
    for i in 0..threads.len() {
        if threads[i].phase.wants_lock() {
            clocks.raise(i, first_from(turn, i));
        }
    }
}

// The least clock with which thread j does not come before this turn.
fn first_from(turn: Turn, j: usize) -> u64
    requires { first_from turn j ≤ limit.CLOCK }
    ensures { result ≡ first_from turn j }
{
    if j < turn.thread {
        turn.clock + 1
    } else {
        turn.clock
    }
}
