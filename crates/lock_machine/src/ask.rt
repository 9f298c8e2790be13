ghost use Rattle.std.specs.Prelude.{◌≡◌, ◌+◌, ◌<◌, ◌≤◌, ◌^◌, ℕ, List, true, false, IfOk, OnErr};
ghost use Rattle.std.specs.Prelude.{length};
ghost use Rattle.logical_clocks.specs.ThreadClocks.{clock_at};
ghost use Rattle.lock_model.specs.Held.{last_call};
ghost use Rattle.lock_machine.specs.Asking.{Asks, Ends, GoesAgain, HasTime, Works, after_want};
ghost use Rattle.lock_machine.specs.Lives.{is_live};
ghost use Rattle.lock_machine.specs.Wanted.{BringsNoCall};
ghost use Rattle.posix_terms.specs.declared.transcript.HistoryRow.{HistoryRow as SeenRow};
ghost use Rattle.lock_machine.specs.Threads.{KeepsOthers, timed};
ghost use Rattle.lock_machine.specs.Waiting.{HasRoom, KeepsRoom, is_call, rows_due};

use crate::growth::make_room;
use crate::thread::{Phase, Thread};
use logical_clocks::Clocks;
use posix_terms::{Call, Carried, Limits, PackedRow, Step};
use std::alloc::AllocError;

impl Thread {
    // Thread i, which works, asks this step; and returns whether its clock has room for that.
    pub fn ask(&mut self, clocks: &mut Clocks, i: usize, step: Step) -> Result<bool, AllocError>
        requires inside { i < length clocks.old }
        requires live { is_live self.old.phase ≡ true }
        ensures event { IfOk result (λ moved. Asks moved step
            (timed self.old (clock_at clocks.old i)) (timed self.new (clock_at clocks.new i))) }
        ensures err { OnErr result ((self.new ≡ self.old) × (clocks.new ≡ clocks.old)) }
        ensures time { OnErr result (HasTime step (timed self.old (clock_at clocks.old i))) }
        ensures others { KeepsOthers i self.old clocks.old self.new clocks.new }
        ensures due { is_call step ≡ false → rows_due self.new.phase ≤ rows_due self.old.phase }
        ensures brings { (rows : List SeenRow)
            → BringsNoCall self.old.phase rows self.new.phase rows }
    {
        match step {
            Step::Work(amount) => self.work(clocks, i, amount),
            Step::Call(call) => self.want(call),
            Step::End => Ok(self.end(clocks, i)),
        }
    }

    fn work(&mut self, clocks: &mut Clocks, i: usize, amount: u64) -> Result<bool, AllocError>
        requires inside { i < length clocks.old }
        requires live { is_live self.old.phase ≡ true }
        ensures event { IfOk result (λ moved. Works moved amount
            (timed self.old (clock_at clocks.old i)) (timed self.new (clock_at clocks.new i))) }
        ensures err { OnErr result ((self.new ≡ self.old) × (clocks.new ≡ clocks.old)) }
        ensures time { OnErr result (clock_at clocks.old i + amount ≤ 2 ^ 62) }
        ensures others { KeepsOthers i self.old clocks.old self.new clocks.new }
        ensures due { self.new.phase ≡ self.old.phase }
    {
        if amount > Limits::CLOCK - clocks.clock(i) {
            return Ok(false);
        }
        self.asked.push(Step::Work(amount))?;
        clocks.add(i, amount).unwrap();
        Ok(true)
    }

    fn want(&mut self, call: Call) -> Result<bool, AllocError>
        ensures event { IfOk result (λ moved. (moved ≡ true)
            × ((clock : ℕ) → timed self.new clock ≡ after_want call (timed self.old clock))) }
        ensures err { OnErr result (self.new ≡ self.old) }
        ensures live { is_live self.old.phase ≡ true → is_live self.new.phase ≡ true }
        ensures brings { (rows : List SeenRow)
            → BringsNoCall self.old.phase rows self.new.phase rows }
    {
        let room = self.room.for_call(&call)?;
        self.asked.push(Step::Call(call.try_clone()?))?;
        self.room.change(room);
        self.phase = Phase::WantsTable {
            call,
            carried: Carried::NOTHING,
        };
        Ok(true)
    }

    // Thread i, which works, ends; and returns whether it had not asked its end before.
    pub fn end(&mut self, clocks: &mut Clocks, i: usize) -> bool
        requires inside { i < length clocks.old }
        requires live { is_live self.old.phase ≡ true }
        ensures event { Ends result (timed self.old (clock_at clocks.old i))
            (timed self.new (clock_at clocks.new i)) }
        ensures others { KeepsOthers i self.old clocks.old self.new clocks.new }
        ensures due { rows_due self.new.phase ≤ rows_due self.old.phase }
        ensures brings { (rows : List SeenRow)
            → BringsNoCall self.old.phase rows self.new.phase rows }
    {
        if self.asked.has_end() {
            return false;
        }
        self.asked.push_end();
        self.phase = Phase::Ended;
        clocks.end(i);
        true
    }

    // Makes a blocked call again, which is the one that was asked last.
    pub fn again(&mut self) -> Result<bool, AllocError>
        ensures event { IfOk result (λ moved. (clock : ℕ)
            → GoesAgain moved (timed self.old clock) (timed self.new clock)) }
        ensures err { OnErr result (self.new ≡ self.old) }
        ensures live { is_live self.old.phase ≡ is_live self.new.phase }
        ensures brings { (rows : List SeenRow)
            → BringsNoCall self.old.phase rows self.new.phase rows }
    {
        let Phase::Blocked { carried } = self.phase else {
            return Ok(false);
        };
        let Some(call) = last_call(self.asked.as_slice())? else {
            return Ok(false);
        };
        let other = self.room.for_call(&call)?;
        self.room.change(other);
        self.phase = Phase::WantsTable { call, carried };
        Ok(true)
    }
}

// The call that was asked last, if the last step is one.
fn last_call(asked: &[Step]) -> Result<Option<Call>, AllocError>
    ensures { IfOk result (λ call. call ≡ last_call asked.now) }
{
    match asked.last() {
        Some(Step::Call(call)) => Ok(Some(call.try_clone()?)),
        _ => Ok(None),
    }
}

// Where this step is a call, takes the room for a row of each thread: so many there are.
pub fn reserve_rows(
    step: &Step,
    threads: usize,
    rows: &mut Vec<PackedRow>,
) -> Result<(), AllocError>
    ensures items { rows.new.items ≡ rows.old.items }
    ensures kept { KeepsRoom 0 rows.old 0 rows.new }
    ensures room { IfOk result (λ _. is_call step.now ≡ true → HasRoom threads rows.new) }
    ensures call { OnErr result (is_call step.now ≡ true) }
{
    match step {
        Step::Call(_) => make_room(rows, threads),
        _ => Ok(()),
    }
}
