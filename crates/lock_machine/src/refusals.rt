ghost use Rattle.std.specs.Prelude.{◌≡◌, ◌<◌, ◌&&◌, not, true, false, Ok, Err, IfErr, IfOk, OnErr};
ghost use Rattle.std.specs.Prelude.{is_ok, is_some, length, unwrap_or};
ghost use Rattle.logical_clocks.specs.TurnOrder.{has_turn};
ghost use Rattle.lock_machine.specs.DoorMoves.{AnswersAt, PlansDoors, StartsDoors};
ghost use Rattle.lock_machine.specs.Refusals.{Comes, OnMemory, Rests, Tried, WantsNone, attempted};
ghost use Rattle.lock_machine.specs.Refusals.{goes_outside, has_answer, is_blocked, is_end};
ghost use Rattle.lock_machine.specs.Refusals.{is_outside, outlook, phase_at, recorded_as};
ghost use Rattle.lock_machine.specs.Refusals.{still_wants, wants_lock, wants_object, wants_table};
ghost use Rattle.lock_machine.specs.Refusals.{works};
ghost use Rattle.lock_machine.specs.Shows.{AdvancesQuietly, AsksFor, Attempts, MayAdvance, MayAsk};
ghost use Rattle.lock_machine.specs.Shows.{RecordsGiven, Tells};
ghost use Rattle.lock_machine.specs.Shows.{WantsAt, has_moved};
ghost use Rattle.lock_machine.specs.Views.{clocks_of};
ghost use Rattle.lock_machine.specs.Whole.{settings_in};
ghost use Rattle.lock_machine.specs.declared.outside.Progress.TheVariants as progress;
ghost use Rattle.lock_machine.specs.declared.refused.LockRefused.TheVariants as refused;
ghost use Rattle.posix_terms.specs.declared.step.Step.TheVariants as step;

use crate::laws::requests_asked;
use crate::machine::LockMachine;
use crate::outside::{Progress, outlook};
use crate::refused::{Attempt, LockRefused};
use crate::thread::Phase;
use lock_model::arising_states;
use posix_terms::{Answer, Given, Step};

// The events as a driver makes them: each looks at the phase of its
// thread first, and is refused where that is not its own.
impl LockMachine {
    /// Thread i, which works, asks this step: it works on for so long, or
    /// wants a call made. Its end is [`LockMachine::end`].
    #[inline(always)]
    pub fn ask(&mut self, i: usize, step: Step) -> Result<(), LockRefused>
        requires { i < length self.old.threads }
        ensures event { Comes (works (phase_at self.old i) && not (is_end step)) result self.old
            self.new (λ o. AsksFor (is_some o) i step self.old self.new) }
        ensures memory { OnMemory result (MayAsk i step self.old) }
        ensures err { OnErr result (self.new ≡ self.old) }
        ensures count { length self.new.threads ≡ length self.old.threads }
        ensures settings { settings_in self.new ≡ settings_in self.old }
        ensures table { self.new.table ≡ self.old.table }
    {
        if !self.phase(i).is_working() || matches!(step, Step::End) {
            return Err(LockRefused::WrongPhase);
        }
        moved(self.ask_working(i, step)?)
    }

    /// Thread i, which works, ends.
    pub fn end(&mut self, i: usize) -> Result<(), LockRefused>
        requires { i < length self.old.threads }
        ensures event { Comes (works (phase_at self.old i)) result self.old self.new
            (λ o. AsksFor (is_some o) i step.End self.old self.new) }
        ensures memory { WantsNone result }
        ensures err { OnErr result (self.new ≡ self.old) }
        ensures count { length self.new.threads ≡ length self.old.threads }
        ensures settings { settings_in self.new ≡ settings_in self.old }
        ensures table { self.new.table ≡ self.old.table }
    {
        if !self.phase(i).is_working() {
            return Err(LockRefused::WrongPhase);
        }
        moved(self.end_working(i))
    }

    /// Thread i, which wants the table and has the turn, attempts its lock. It costs 1 either way.
    pub fn try_table(&mut self, i: usize) -> Result<Attempt, LockRefused>
        requires { i < length self.old.threads }
        ensures event { Comes (wants_table (phase_at self.old i) && has_turn
            (clocks_of self.old.threads) i) result self.old self.new
            (λ o. Attempts (is_some o) i self.old self.new) }
        ensures got { IfOk result (λ a. a ≡ attempted (wants_table (phase_at self.new i))) }
        ensures memory { WantsNone result }
        ensures count { length self.new.threads ≡ length self.old.threads }
        ensures settings { settings_in self.new ≡ settings_in self.old }
        ensures doors { IfOk result (λ a. PlansDoors (phase_at self.new i) self.old.table
            self.new.table) }
    {
        if !self.phase(i).wants_table() || !self.has_turn(i) {
            return Err(LockRefused::WrongPhase);
        }
        self.take_table(i)
    }

    /// Thread i, which wants an object and has the turn, attempts its
    /// lock. It costs 1 either way, and 1 more where it has
    /// it and frees the table.
    pub fn try_node(&mut self, i: usize) -> Result<Attempt, LockRefused>
        requires { i < length self.old.threads }
        ensures event { Comes (wants_object (phase_at self.old i) && has_turn
            (clocks_of self.old.threads) i) result self.old self.new
            (λ o. Attempts (is_some o) i self.old self.new) }
        ensures got { IfOk result (λ a. a ≡ attempted (wants_object (phase_at self.new i))) }
        ensures memory { WantsNone result }
        ensures count { length self.new.threads ≡ length self.old.threads }
        ensures settings { settings_in self.new ≡ settings_in self.old }
        ensures doors { IfOk result (λ a. StartsDoors (phase_at self.new i) self.old.table
            self.new.table) }
    {
        let Phase::WantsObject { object, .. } = *self.phase(i) else {
            return Err(LockRefused::WrongPhase);
        };
        if !self.has_turn(i) {
            return Err(LockRefused::WrongPhase);
        }
        self.take_object(i, object)
    }

    /// Thread i, which has the turn, attempts the lock that it wants, that of the table or that of an
    /// object. It is refused where it wants none, and changes nothing then.
    pub fn attempt(&mut self, i: usize) -> Result<Attempt, LockRefused>
        requires inside { i < length self.old.threads }
        requires turn { has_turn (clocks_of self.old.threads) i ≡ true }
        ensures event { Tried result (λ made. Attempts made i self.old self.new) }
        ensures refused { Comes (wants_lock (phase_at self.old i)) result self.old self.new
            (λ o. Attempts (is_some o) i self.old self.new) }
        ensures got { IfOk result (λ a.
            a ≡ attempted (still_wants (phase_at self.old i) (phase_at self.new i))) }
        ensures memory { WantsNone result }
        ensures count { length self.new.threads ≡ length self.old.threads }
        ensures settings { settings_in self.new ≡ settings_in self.old }
    {
        match *self.phase(i) {
            Phase::WantsTable { .. } => self.take_table(i),
            Phase::WantsObject { object, .. } => self.take_object(i, object),
            _ => Err(LockRefused::WrongPhase),
        }
    }

    /// Thread i, which was granted a call that it goes outside with, does so.
    pub fn begin_outside(&mut self, i: usize) -> Result<(), LockRefused>
        requires { i < length self.old.threads }
        ensures event { Comes (goes_outside (phase_at self.old i)) result self.old self.new
            (λ o. AdvancesQuietly (is_some o) i self.old self.new) }
        ensures memory { WantsNone result }
        ensures err { OnErr result (self.new ≡ self.old) }
        ensures count { length self.new.threads ≡ length self.old.threads }
        ensures settings { settings_in self.new ≡ settings_in self.old }
        ensures table { self.new.table ≡ self.old.table }
    {
        let Phase::ToOutside(outing) = *self.phase(i) else {
            return Err(LockRefused::WrongPhase);
        };
        moved(self.go_outside(i, outing))
    }

    /// What would come of this outcome for thread i: it would be taken, or
    /// does not answer what was asked, or none can be taken.
    pub fn outlook(&self, i: usize, given: &Given) -> Progress
        requires { i < length self.now.threads }
        ensures value { result ≡ outlook self.now i given.now }
        ensures event { is_outside (phase_at self.now i) ≡ true → has_moved result ≡ false
            → RecordsGiven result i given.now self.now self.now }
    {
        arising_states();
        requests_asked();
        let Phase::Outside(outing) = *self.phase(i) else {
            return Progress::Stays;
        };
        outlook(outing, given, self.came(i), self.shared.rows.as_slice())
    }

    /// This outcome comes for thread i, which is outside. Where it does not answer what was asked, that
    /// is reported, and nothing changes (`rests`): [`LockMachine::outlook`] reports it before.
    pub fn record(&mut self, i: usize, given: Given) -> Result<Progress, LockRefused>
        requires { i < length self.old.threads }
        ensures event { Comes (is_outside (phase_at self.old i)) result self.old self.new
            (λ o. RecordsGiven (unwrap_or o progress.Stays) i given self.old self.new) }
        ensures value { result ≡ recorded_as (is_outside (phase_at self.old i))
            (outlook self.old i given) }
        ensures rests { IfOk result (λ made. Rests (has_moved made) self.old self.new) }
        ensures count { length self.new.threads ≡ length self.old.threads }
        ensures settings { settings_in self.new ≡ settings_in self.old }
        ensures table { self.new.table ≡ self.old.table }
    {
        let Phase::Outside(outing) = *self.phase(i) else {
            return Err(LockRefused::WrongPhase);
        };
        match self.take_outcome(i, outing, given) {
            Progress::Stays => Err(LockRefused::ClockFull),
            made => Ok(made),
        }
    }

    /// The call of thread i, which was granted or whose outcome came, has its answer.
    #[inline(always)]
    pub fn answer(&mut self, i: usize) -> Result<Answer, LockRefused>
        requires { i < length self.old.threads }
        ensures event { Comes (has_answer (phase_at self.old i)) result self.old self.new
            (λ told. Tells told i self.old self.new) }
        ensures memory { WantsNone result }
        ensures err { OnErr result (self.new ≡ self.old) }
        ensures count { length self.new.threads ≡ length self.old.threads }
        ensures settings { settings_in self.new ≡ settings_in self.old }
        ensures doors { AnswersAt (phase_at self.old i) result self.old self.new }
    {
        match *self.phase(i) {
            Phase::Granted { row, object, .. } => self
                .answer_granted(i, row, object)
                .ok_or(LockRefused::ClockFull),
            Phase::Recorded(outing) => self
                .answer_recorded(i, outing)
                .ok_or(LockRefused::ClockFull),
            _ => Err(LockRefused::WrongPhase),
        }
    }

    /// Thread i, which is blocked, makes its call again.
    pub fn again(&mut self, i: usize) -> Result<(), LockRefused>
        requires { i < length self.old.threads }
        ensures event { Comes (is_blocked (phase_at self.old i)) result self.old self.new
            (λ o. AdvancesQuietly (is_some o) i self.old self.new) }
        ensures memory { OnMemory result (MayAdvance i self.old) }
        ensures err { OnErr result (self.new ≡ self.old) }
        ensures count { length self.new.threads ≡ length self.old.threads }
        ensures settings { settings_in self.new ≡ settings_in self.old }
        ensures table { self.new.table ≡ self.old.table }
    {
        if !self.phase(i).is_blocked() {
            return Err(LockRefused::WrongPhase);
        }
        moved(self.go_again(i)?)
    }

    // The attempt of thread i, which wants the table and has the turn.
    fn take_table(&mut self, i: usize) -> Result<Attempt, LockRefused>
        requires inside { i < length self.old.threads }
        requires turn { has_turn (clocks_of self.old.threads) i ≡ true }
        requires wants { wants_table (phase_at self.old i) ≡ true }
        ensures event { Comes true result self.old self.new
            (λ o. Attempts (is_some o) i self.old self.new) }
        ensures got { IfOk result (λ a. a ≡ attempted (wants_table (phase_at self.new i))) }
        ensures memory { WantsNone result }
        ensures count { length self.new.threads ≡ length self.old.threads }
        ensures settings { settings_in self.new ≡ settings_in self.old }
        ensures doors { IfOk result (λ a. PlansDoors (phase_at self.new i) self.old.table
            self.new.table) }
    {
        if !self.attempt_table(i) {
            return Err(LockRefused::ClockFull);
        }
        Ok(attempted(self.phase(i).wants_table()))
    }

    // The attempt of thread i, which wants this object and has the turn.
    fn take_object(&mut self, i: usize, object: usize) -> Result<Attempt, LockRefused>
        requires inside { i < length self.old.threads }
        requires turn { has_turn (clocks_of self.old.threads) i ≡ true }
        requires wants { WantsAt self.old i object }
        ensures event { Comes true result self.old self.new
            (λ o. Attempts (is_some o) i self.old self.new) }
        ensures got { IfOk result (λ a. a ≡ attempted (wants_object (phase_at self.new i))) }
        ensures memory { WantsNone result }
        ensures count { length self.new.threads ≡ length self.old.threads }
        ensures settings { settings_in self.new ≡ settings_in self.old }
        ensures doors { IfOk result (λ a. StartsDoors (phase_at self.new i) self.old.table
            self.new.table) }
    {
        if !self.attempt_object(i, object) {
            return Err(LockRefused::ClockFull);
        }
        Ok(attempted(self.phase(i).wants_object()))
    }
}

// An event that has its phase, and was made or not.
fn moved(moved: bool) -> Result<(), LockRefused>
    ensures memory { WantsNone result }
    ensures made { is_ok result ≡ moved }
    ensures full { IfErr result (λ e. e ≡ refused.ClockFull) }
{
    if moved {
        Ok(())
    } else {
        Err(LockRefused::ClockFull)
    }
}

// What came of an attempt, by whether the lock is still wanted.
fn attempted(wanted: bool) -> Attempt
    ensures { result ≡ attempted wanted }
{
    if wanted {
        Attempt::Failed
    } else {
        Attempt::Got
    }
}
