ghost use Rattle.std.specs.Prelude.{◌≡◌, ◌<◌, true, IfOk, OnErr, is_some, length};
ghost use Rattle.logical_clocks.specs.TurnOrder.{has_turn};
ghost use Rattle.lock_machine.specs.Shows.{AdvancesQuietly, AsksFor, Attempts, IsAt, IsBlockedAt};
ghost use Rattle.lock_machine.specs.Shows.{IsGrantedAt, MayAdvance, MayAsk, RecordsGiven, Tells};
ghost use Rattle.lock_machine.specs.Shows.{WantsAt, has_moved};
ghost use Rattle.lock_machine.specs.Refusals.{Rests, outlook, wants_table};
ghost use Rattle.lock_machine.specs.DoorMoves.{AnswersDoors, PlansDoors, StartsDoors};
ghost use Rattle.lock_machine.specs.Views.{clocks_of};
ghost use Rattle.lock_machine.specs.Whole.{settings_in, thread_at};
ghost use Rattle.lock_machine.specs.declared.thread.Phase.TheVariants as phase;
ghost use Rattle.posix_terms.specs.declared.step.Step.TheVariants as step;

use crate::ask::reserve_rows;
use crate::events::{answer, try_object, try_table};
use crate::laws::requests_asked;
use crate::machine::LockMachine;
use crate::outside::{Progress, answer_outside, begin_outside, record};
use crate::thread::Outing;
use call_turns::locks_and_doors;
use lock_model::arising_states;
use posix_terms::{Answer, Given, Step};
use sequential_object::calls_outside;
use std::alloc::AllocError;

// Where a row, the lock of an object or an outcome is not there, an event answers that it was not made. No run comes
// to that: the contracts say of each state that arises whether the event can be made, and then it is.
impl LockMachine {
    // Thread i, which works, asks this step; and returns whether its clock has room for that.
    pub(crate) fn ask_working(&mut self, i: usize, step: Step) -> Result<bool, AllocError>
        requires inside { i < length self.old.threads }
        requires working { IsAt self.old i phase.Working }
        ensures event { IfOk result (λ moved. AsksFor moved i step self.old self.new) }
        ensures rests { IfOk result (λ moved. Rests moved self.old self.new) }
        ensures err { OnErr result (self.new ≡ self.old) }
        ensures memory { OnErr result (MayAsk i step self.old) }
        ensures count { length self.new.threads ≡ length self.old.threads }
        ensures settings { settings_in self.new ≡ settings_in self.old }
        ensures table { self.new.table ≡ self.old.table }
    {
        arising_states();
        reserve_rows(&step, self.threads.len(), &mut self.shared.rows)?;
        self.threads[i].ask(&mut self.clocks, i, step)
    }

    // Thread i, which works, ends; and returns whether it could.
    pub(crate) fn end_working(&mut self, i: usize) -> bool
        requires inside { i < length self.old.threads }
        requires working { IsAt self.old i phase.Working }
        ensures event { AsksFor result i step.End self.old self.new }
        ensures rests { Rests result self.old self.new }
        ensures count { length self.new.threads ≡ length self.old.threads }
        ensures settings { settings_in self.new ≡ settings_in self.old }
        ensures table { self.new.table ≡ self.old.table }
    {
        arising_states();
        self.threads[i].end(&mut self.clocks, i)
    }

    // Thread i, which was granted a call that it goes outside with, does so; and returns whether it could.
    pub(crate) fn go_outside(&mut self, i: usize, outing: Outing) -> bool
        requires inside { i < length self.old.threads }
        requires granted { IsAt self.old i (phase.ToOutside outing) }
        ensures event { AdvancesQuietly result i self.old self.new }
        ensures rests { Rests result self.old self.new }
        ensures count { length self.new.threads ≡ length self.old.threads }
        ensures settings { settings_in self.new ≡ settings_in self.old }
        ensures table { self.new.table ≡ self.old.table }
    {
        begin_outside(
            i,
            outing,
            self.settings.door_cost,
            &mut self.threads[i],
            &mut self.clocks,
        )
    }

    // Thread i, which is blocked, makes its call again; and returns whether it could.
    pub(crate) fn go_again(&mut self, i: usize) -> Result<bool, AllocError>
        requires inside { i < length self.old.threads }
        requires blocked { IsBlockedAt self.old i }
        ensures event { IfOk result (λ moved. AdvancesQuietly moved i self.old self.new) }
        ensures rests { IfOk result (λ moved. Rests moved self.old self.new) }
        ensures err { OnErr result (self.new ≡ self.old) }
        ensures memory { OnErr result (MayAdvance i self.old) }
        ensures count { length self.new.threads ≡ length self.old.threads }
        ensures settings { settings_in self.new ≡ settings_in self.old }
        ensures table { self.new.table ≡ self.old.table }
    {
        arising_states();
        self.shared.rows.reserve(self.threads.len())?;
        self.threads[i].again()
    }

    // This outcome comes for thread i, which is outside.
    pub(crate) fn take_outcome(&mut self, i: usize, outing: Outing, given: Given) -> Progress
        requires inside { i < length self.old.threads }
        requires outside { IsAt self.old i (phase.Outside outing) }
        ensures event { RecordsGiven result i given self.old self.new }
        ensures rests { Rests (has_moved result) self.old self.new }
        ensures outlook { result ≡ outlook self.old i given }
        ensures count { length self.new.threads ≡ length self.old.threads }
        ensures settings { settings_in self.new ≡ settings_in self.old }
        ensures table { self.new.table ≡ self.old.table }
    {
        arising_states();
        requests_asked();
        record(outing, given, &mut self.threads[i], &mut self.shared.rows)
    }

    // The call of thread i, whose outcome came, has its answer; this is returned, where it could be given.
    pub(crate) fn answer_recorded(&mut self, i: usize, outing: Outing) -> Option<Answer>
        requires inside { i < length self.old.threads }
        requires recorded { IsAt self.old i (phase.Recorded outing) }
        ensures event { Tells result i self.old self.new }
        ensures rests { Rests (is_some result) self.old self.new }
        ensures count { length self.new.threads ≡ length self.old.threads }
        ensures settings { settings_in self.new ≡ settings_in self.old }
        ensures doors { AnswersDoors result outing self.old.rows self.old.table self.new.table }
    {
        arising_states();
        let Some(object) = outing.object else {
            return None;
        };
        let Some(lock) = self.objects.get_mut(object) else {
            return None;
        };
        answer_outside(
            i,
            outing,
            self.settings.patience,
            &mut self.threads[i],
            &mut self.clocks,
            lock,
            &mut self.shared,
        )
    }

    // The call of thread i, which was granted with this object and asks nothing outside, has its answer; this is
    // returned, where it could be given.
    pub(crate) fn answer_granted(
        &mut self,
        i: usize,
        row: usize,
        object: Option<usize>,
    ) -> Option<Answer>
        requires inside { i < length self.old.threads }
        requires granted { IsGrantedAt self.old i row object }
        ensures event { Tells result i self.old self.new }
        ensures rests { Rests (is_some result) self.old self.new }
        ensures count { length self.new.threads ≡ length self.old.threads }
        ensures settings { settings_in self.new ≡ settings_in self.old }
        ensures table { self.new.table ≡ self.old.table }
    {
        arising_states();
        match object {
            None => answer(
                i,
                &mut self.threads[i],
                &mut self.clocks,
                row,
                &mut self.shared.lock,
                &mut self.shared.rows,
            ),
            Some(object) => {
                let Some(lock) = self.objects.get_mut(object) else {
                    return None;
                };
                answer(
                    i,
                    &mut self.threads[i],
                    &mut self.clocks,
                    row,
                    lock,
                    &mut self.shared.rows,
                )
            }
        }
    }

    // Thread i, which wants the table and has the turn, attempts its lock, and returns whether it could.
    pub(crate) fn attempt_table(&mut self, i: usize) -> bool
        requires inside { i < length self.old.threads }
        requires turn { has_turn (clocks_of self.old.threads) i ≡ true }
        requires wants { wants_table (thread_at self.old i).phase ≡ true }
        ensures event { Attempts result i self.old self.new }
        ensures rests { Rests result self.old self.new }
        ensures count { length self.new.threads ≡ length self.old.threads }
        ensures settings { settings_in self.new ≡ settings_in self.old }
        ensures doors { PlansDoors (thread_at self.new i).phase self.old.table self.new.table }
    {
        calls_outside();
        locks_and_doors();
        try_table(
            self.settings.patience,
            i,
            &mut self.threads[i],
            &mut self.clocks,
            &mut self.shared,
        )
    }

    // Thread i, which wants this object and has the turn, attempts its lock, and returns whether it could.
    pub(crate) fn attempt_object(&mut self, i: usize, object: usize) -> bool
        requires inside { i < length self.old.threads }
        requires turn { has_turn (clocks_of self.old.threads) i ≡ true }
        requires wants { WantsAt self.old i object }
        ensures event { Attempts result i self.old self.new }
        ensures rests { Rests result self.old self.new }
        ensures count { length self.new.threads ≡ length self.old.threads }
        ensures settings { settings_in self.new ≡ settings_in self.old }
        ensures doors { StartsDoors (thread_at self.new i).phase self.old.table self.new.table }
    {
        arising_states();
        calls_outside();
        let Some(lock) = self.objects.get_mut(object) else {
            return false;
        };
        try_object(
            self.settings.patience,
            i,
            &mut self.threads[i],
            &mut self.clocks,
            lock,
            &mut self.shared,
        )
    }
}
