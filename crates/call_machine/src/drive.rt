ghost use Rattle.std.specs.Prelude.{◌≡◌, ◌<◌, ◌≤◌, ℕ, true, IfOk, is_some, length, if◌then◌else◌};
ghost use Rattle.posix_terms.specs.declared.limits.TheConstants.Limits as limit;
ghost use Rattle.call_machine.specs.Driven.{AttemptsNext, Begins, Ends, GoesOn, IsTold, RestsBut};
ghost use Rattle.call_machine.specs.Playing.{Attempted, Makes, played_of};
ghost use Rattle.call_machine.specs.Setup.{Inputs};
ghost use Rattle.lock_machine.specs.Refusals.{Comes, has_answer, is_outside, phase_at, works};
ghost use Rattle.lock_machine.specs.Shows.{AsksFor, ClocksShown};
ghost use Rattle.lock_machine.specs.Views.{clocks_of};
ghost use Rattle.lock_model.specs.Events.{EventLaws};
ghost use Rattle.lock_model.specs.Laws.{ArisesAtStart, ArisesByEvent, HolderHasTurn};
ghost use Rattle.logical_clocks.specs.TurnOrder.{LeastIsFound, has_turn};
ghost use Rattle.thread_scripts.specs.Laws.{RunsEnd};
ghost use Rattle.call_machine.specs.Starting.{first_played};
ghost use Rattle.lock_machine.specs.declared.outside.Progress.TheVariants as progress;

use crate::driver::Driver;
use crate::log::Log;
use crate::players::first_players;
use crate::watch::WatchesRun;
use input_log::{Header, Record};
use lock_machine::{LockMachine, LockRefused, Phase, Progress, SpareStore, machines_show};
use lock_model::{arising_states, one_event, turn_order};
use logical_clocks::least_is_found;
use posix_terms::{Given, Outcomes};
use std::alloc::{AllocError, Global};
use thread_scripts::{Script, Step, runs_end};

impl Driver {
    // A thread for each script, with its outcomes, over a spare store. The header's settings are the
    // run's.
    pub fn new(
        alloc: Global,
        spare: &mut SpareStore,
        scripts: Vec<Script>,
        outcomes: Vec<Outcomes>,
        header: Header,
    ) -> Result<Driver, AllocError>
        requires some { 1 ≤ length scripts.items }
        requires within_limit { length scripts.items ≤ limit.THREADS }
        ensures { IfOk result (λ driver. played_of driver
            ≡ first_played header scripts.items outcomes.items) }
    {
        Ok(Driver {
            machine: LockMachine::new_from(alloc, spare, scripts.len(), header.settings())?,
            players: first_players(alloc, scripts)?,
            outcomes,
            log: Log::new(alloc, header)?,
        })
    }

    // Makes the events of the plain schedule, to its end, or until the outcome of a thread does not
    // answer, which is returned. Once each thread has gone on as far as it can, only one that made an
    // attempt can go on again. `watch` is shown each event
    // but the attempts that fail.
    pub fn run<W: WatchesRun>(
        &mut self,
        alloc: Global,
        watch: &mut W,
    ) -> Result<Option<usize>, AllocError>
        requires { (input : Inputs) × Begins input (played_of self.old) }
        ensures { IfOk result (λ diverged. (input : Inputs) → Begins input (played_of self.old)
            → Ends input diverged (played_of self.new)) }
    {
        laws();
        for i in 0..self.players.len() {
            if self.go_on(alloc, i, watch)? {
                return Ok(Some(i));
            }
        }
        loop {
            let Some(i) = self.attempt_next(watch)? else {
                return Ok(None);
            };
            watch.reached(self.machine.rows(), self.log.records());
            if self.go_on(alloc, i, watch)? {
                return Ok(Some(i));
            }
        }
    }

    // Thread i makes its events that need no turn, as far as it can, and returns whether it
    // diverges then. The threads before it can make none.
    fn go_on<W: WatchesRun>(
        &mut self,
        alloc: Global,
        i: usize,
        watch: &mut W,
    ) -> Result<bool, AllocError>
        requires inside { i < length self.old.players.items }
        requires rests { (input : Inputs) × (n : ℕ) × (i ≤ n)
            × RestsBut input n i (played_of self.old) }
        ensures event { IfOk result (λ diverges. GoesOn diverges i (played_of self.old)
            (played_of self.new)) }
        ensures count { length self.new.players.items ≡ length self.old.players.items }
    {
        laws();
        loop {
            match self.advance(alloc, i)? {
                Progress::Moves => watch.moved(i, self.machine.phase(i), self.machine.clock(i)),
                Progress::Diverges => return Ok(true),
                Progress::Stays => return Ok(false),
            }
        }
    }

    // Where no thread can go on without the turn: the attempts that fail are skipped, and the next
    // one is made by the thread that has the turn then. Returns that thread, if there is one and it
    // could.
    #[inline(always)]
    fn attempt_next<W: WatchesRun>(&mut self, watch: &mut W) -> Result<Option<usize>, AllocError>
        ensures event { IfOk result (λ made. AttemptsNext made (played_of self.old)
            (played_of self.new)) }
        ensures count { length self.new.players.items ≡ length self.old.players.items }
    {
        laws();
        let Some(i) = self.machine.skip_failures() else {
            return Ok(None);
        };
        watch.attempts(i, self.machine.clock(i));
        if self.attempt(i)? {
            Ok(Some(i))
        } else {
            Ok(None)
        }
    }

    // Thread i makes its event that needs no turn, where it can.
    fn advance(&mut self, alloc: Global, i: usize) -> Result<Progress, AllocError>
        requires { i < length self.old.players.items }
        ensures event { IfOk result (λ m. Makes m i (played_of self.old) (played_of self.new)) }
        ensures count { length self.new.players.items ≡ length self.old.players.items }
    {
        laws();
        match self.machine.phase(i) {
            Phase::Working => self.ask(i),
            Phase::Granted { .. } => Ok(self.answer(i)),
            Phase::ToOutside(_) => {
                let begun = told(self.machine.begin_outside(i))?;
                Ok(progress(begun.is_some()))
            }
            Phase::Outside(_) => self.record(alloc, i),
            Phase::Recorded(_) => Ok(self.answer(i)),
            Phase::Blocked { .. } => {
                let wanted = told(self.machine.again(i))?;
                Ok(progress(wanted.is_some()))
            }
            _ => Ok(Progress::Stays),
        }
    }

    // The script of thread i, which works, is asked for its next step, unless it is stuck.
    fn ask(&mut self, i: usize) -> Result<Progress, AllocError>
        requires inside { i < length self.old.players.items }
        requires working { works (phase_at self.old.machine i) ≡ true }
        ensures event { IfOk result (λ m. Makes m i (played_of self.old) (played_of self.new)) }
        ensures count { length self.new.players.items ≡ length self.old.players.items }
    {
        laws();
        if self.players[i].stuck {
            return Ok(Progress::Stays);
        }
        let step = self.players[i].next()?;
        let moved = told(ask(&mut self.machine, i, step))?.is_some();
        self.players[i].stuck = !moved;
        Ok(progress(moved))
    }

    // The next outcome of thread i, which is outside, comes: it goes into the log, and then to the machine.
    fn record(&mut self, alloc: Global, i: usize) -> Result<Progress, AllocError>
        requires inside { i < length self.old.players.items }
        requires outside { is_outside (phase_at self.old.machine i) ≡ true }
        ensures event { IfOk result (λ m. Makes m i (played_of self.old) (played_of self.new)) }
        ensures count { length self.new.players.items ≡ length self.old.players.items }
    {
        laws();
        let number = self.machine.came(i);
        let Some(outcomes) = self.outcomes.get(i) else {
            return Ok(Progress::Stays);
        };
        let Some(given) = outcomes.as_slice().get(number as usize) else {
            return Ok(Progress::Stays);
        };
        match self.machine.outlook(i, given) {
            Progress::Moves => {}
            other => return Ok(other),
        }
        // No machine has more threads than a record can name.
        let _ = self.machine.len();
        let item = Record {
            thread: i as u16,
            number,
            clock: self.machine.logged_clock(i),
            kind: given.kind,
            outcome: given.outcome.try_clone()?,
        };
        self.log.append(alloc, &item)?;
        let came = Given {
            kind: given.kind,
            clock: given.clock,
            outcome: item.outcome,
        };
        let made = told(self.machine.record(i, came))?;
        Ok(made.unwrap_or(Progress::Stays))
    }

    // Thread i, which has the turn, attempts the lock that it wants. Returns whether it could.
    fn attempt(&mut self, i: usize) -> Result<bool, AllocError>
        requires inside { i < length self.old.players.items }
        requires turn { has_turn (clocks_of self.old.machine.threads) i ≡ true }
        ensures event { IfOk result (λ made. Attempted made i (played_of self.old)
            (played_of self.new)) }
        ensures count { length self.new.players.items ≡ length self.old.players.items }
    {
        laws();
        Ok(told(self.machine.attempt(i))?.is_some())
    }

    // The call of thread i has its answer, and the script hears it.
    fn answer(&mut self, i: usize) -> Progress
        requires inside { i < length self.old.players.items }
        requires answered { has_answer (phase_at self.old.machine i) ≡ true }
        ensures event { Makes result i (played_of self.old) (played_of self.new) }
        ensures count { length self.new.players.items ≡ length self.old.players.items }
    {
        laws();
        match self.machine.answer(i) {
            Ok(told) => {
                self.players[i].hear(told);
                Progress::Moves
            }
            // It takes no memory: the thread's clock is full.
            Err(_) => Progress::Stays,
        }
    }
}

// Thread i, which works, asks this step, or ends.
fn ask(machine: &mut LockMachine, i: usize, step: Step) -> Result<(), LockRefused>
    requires { i < length machine.old.threads }
    ensures event { Comes (works (phase_at machine.old i)) result machine.old machine.new
        (λ o. AsksFor (is_some o) i step machine.old machine.new) }
    ensures count { length machine.new.threads ≡ length machine.old.threads }
{
    match step {
        Step::End => machine.end(i),
        step => machine.ask(i, step),
    }
}

// What an event gave, if it was made.
fn told<T>(given: Result<T, LockRefused>) -> Result<Option<T>, AllocError>
    ensures { IfOk result (λ o. IsTold given o) }
{
    match given {
        Ok(value) => Ok(Some(value)),
        Err(LockRefused::Memory) => Err(AllocError),
        Err(_) => Ok(None),
    }
}

// Whether an event was made, as its progress.
fn progress(moved: bool) -> Progress
    ensures { result ≡ (if moved then progress.Moves else progress.Stays) }
{
    if moved {
        Progress::Moves
    } else {
        Progress::Stays
    }
}

// What each event keeps to, and a run of events.
fn laws()
    ensures events { EventLaws }
    ensures scripts { RunsEnd }
    ensures least { LeastIsFound }
    ensures clocks { ClocksShown }
    ensures starts { ArisesAtStart }
    ensures arises { ArisesByEvent }
    ensures holder { HolderHasTurn }
{
    one_event();
    runs_end();
    least_is_found();
    machines_show();
    arising_states();
    turn_order();
}
