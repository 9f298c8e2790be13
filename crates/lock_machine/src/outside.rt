ghost use Rattle.std.specs.Prelude.{◌≡◌, ◌+◌, ◌*◌, ◌<◌, ◌≤◌, ◌^◌, ◌&&◌, ◌||◌, not, ℕ, List, true};
ghost use Rattle.std.specs.Prelude.{false, Some, length, nat_lt, slice_get};
ghost use Rattle.lock_model.specs.Machine.{is_number};
ghost use Rattle.posix_terms.specs.declared.transcript.HistoryRow.{HistoryRow as SeenRow};
ghost use Rattle.logical_clocks.specs.ThreadClocks.{clock_at};
ghost use Rattle.posix_terms.specs.declared.limits.TheConstants.Limits as limit;
ghost use Rattle.lock_machine.specs.Births.{BearsInTime, BornWithin, time_of};
ghost use Rattle.lock_machine.specs.DoorMoves.{AnswersDoors, EndsDoors};
ghost use Rattle.lock_machine.specs.Lives.{is_live};
ghost use Rattle.lock_machine.specs.Wanted.{IsWanted, BringsNoCall, KeepsCalls, LeavesWanted};
ghost use Rattle.lock_machine.specs.Wanted.{HasDecidedAt};
ghost use Rattle.lock_machine.specs.Outings.{AnswersOutside, Begins, EndsTurn, Records};
ghost use Rattle.lock_machine.specs.Outings.{answer_cost, answers_errand, outside_parts};
ghost use Rattle.lock_machine.specs.Outings.{progress_at, recorded_parts, table_freed};
ghost use Rattle.lock_machine.specs.Threads.{KeepsOthers, timed};
ghost use Rattle.lock_machine.specs.declared.thread.Phase.TheVariants as phase;
ghost use Rattle.descriptor_table.specs.Plans.{bytes_asked};
ghost use Rattle.call_turns.specs.Patience.{turn_bytes};
ghost use Rattle.lock_machine.specs.Waiting.{KeepsRoom, rows_due};

use crate::events::{answer_copied, holds, phase_behind, told_as};
use crate::machine::Shared;
use crate::thread::{Outing, Phase, Thread};
use call_turns::{Locking, Room, Store, TurnEnd};
use descriptor_table::Errand;
use det_mutex::DetLock;
use logical_clocks::Clocks;
use posix_terms::{Answer, Call, Given, Limits, Outcome, PackedRow, Turn};

/// How far an event comes that needs no turn.
#[derive(Clone, Copy)]
pub enum Progress {
    /// it is made
    Moves,
    /// it cannot be made
    Stays,
    /// the outcome that is there does not answer what was asked
    Diverges,
}

// `begin_outside`, for the cost of a door: where the thread can have one more outcome.
pub fn begin_outside(
    i: usize,
    outing: Outing,
    door_cost: u32,
    thread: &mut Thread,
    clocks: &mut Clocks,
) -> bool
    requires inside { i < length clocks.old }
    requires granted { thread.old.phase ≡ phase.ToOutside outing }
    ensures event { Begins door_cost outing result (timed thread.old (clock_at clocks.old i))
        (timed thread.new (clock_at clocks.new i)) }
    ensures others { KeepsOthers i thread.old clocks.old thread.new clocks.new }
    ensures due { rows_due thread.new.phase ≤ rows_due thread.old.phase }
    ensures brings { (rows : List SeenRow)
        → BringsNoCall thread.old.phase rows thread.new.phase rows }
{
    if thread.came >= Limits::OUTCOMES {
        return false;
    }
    if clocks.add(i, u64::from(door_cost)).is_err() {
        return false;
    }
    thread.phase = Phase::Outside(outing);
    true
}

// Whether what was given answers what was asked at this turn. Nothing asks for more bytes than a
// record can have.
fn answers(errand: Errand, turn: Turn, given: &Given) -> bool
    ensures { result ≡ answers_errand errand turn given.now }
{
    given.suits(errand.kind, errand.asked) && given.is_at(turn) && errand.asked <= 65_535
}

// What comes of this outcome, for a thread that got so many.
pub fn outlook(outing: Outing, given: &Given, came: u32, rows: &[PackedRow]) -> Progress
    ensures { result ≡ progress_at (slice_get rows.now outing.row) outing given.now
        (nat_lt (came + 1) (2 ^ 32)) }
{
    let Some(row) = rows.get(outing.row) else {
        return Progress::Stays;
    };
    if !answers(outing.errand, row.turn(), given) {
        Progress::Diverges
    } else if came < u32::MAX {
        Progress::Moves
    } else {
        Progress::Stays
    }
}

// `record`: this outcome, if it answers, goes into the call's row.
pub fn record(
    outing: Outing,
    given: Given,
    thread: &mut Thread,
    rows: &mut Vec<PackedRow>,
) -> Progress
    requires outside { thread.old.phase ≡ phase.Outside outing }
    ensures event { (clock : ℕ) → Records result outing given
        (recorded_parts (timed thread.old clock) rows.old.items)
        (recorded_parts (timed thread.new clock) rows.new.items) }
    ensures live { is_live thread.old.phase ≡ true → is_live thread.new.phase ≡ true }
    ensures room { KeepsRoom (rows_due thread.old.phase) rows.old (rows_due thread.new.phase)
        rows.new }
    ensures brings { BringsNoCall thread.old.phase rows.old.items thread.new.phase rows.new.items }
    ensures calls { KeepsCalls rows.old.items rows.new.items }
{
    match outlook(outing, &given, thread.came, rows.as_slice()) {
        Progress::Moves => {}
        stays => return stays,
    }
    rows[outing.row].bring(thread.room.for_outcome(), given.outcome);
    thread.came += 1;
    thread.phase = Phase::Recorded(outing);
    Progress::Moves
}

// `answer` of a call that went outside, with the lock of its object: that is free then and, where the call kept the
// table, so is this, each for 1.
pub fn answer_outside(
    i: usize,
    outing: Outing,
    patience: u32,
    thread: &mut Thread,
    clocks: &mut Clocks,
    lock: &mut DetLock,
    shared: &mut Shared,
) -> Option<Answer>
    requires inside { i < length clocks.old }
    requires recorded { thread.old.phase ≡ phase.Recorded outing }
    requires few { length clocks.old ≤ limit.THREADS }
    requires born { BornWithin (2 * time_of clocks.old) shared.old.store.value }
    requires decided { HasDecidedAt i thread.old.phase shared.old.lock shared.old.rows.items
        shared.old.store.value shared.old.wanted }
    ensures event { AnswersOutside patience result i outing
        (outside_parts (timed thread.old (clock_at clocks.old i)) lock.old shared.old.lock
        shared.old.store.value shared.old.rows.items)
        (outside_parts (timed thread.new (clock_at clocks.new i)) lock.new shared.new.lock
        shared.new.store.value shared.new.rows.items) }
    ensures others { KeepsOthers i thread.old clocks.old thread.new clocks.new }
    ensures births { BearsInTime (clock_at clocks.old i) shared.old.store.value
        (clock_at clocks.new i) shared.new.store.value }
    ensures doors { AnswersDoors result outing shared.old.rows.items shared.old.store.value
        shared.new.store.value }
    ensures room { KeepsRoom (rows_due thread.old.phase) shared.old.rows (rows_due thread.new.phase)
        shared.new.rows }
    ensures brings { BringsNoCall thread.old.phase shared.old.rows.items thread.new.phase
        shared.new.rows.items }
    ensures wanted { (k : ℕ) → shared.new.lock.holder ≡ Some k
        → LeavesWanted k shared.old.lock shared.old.rows.items shared.old.store.value
        shared.old.wanted shared.new.rows.items shared.new.store.value shared.new.wanted }
{
    if !holds_locks(outing, i, *lock, shared.lock) {
        return None;
    }
    let Some(row) = shared.rows.get_mut(outing.row) else {
        return None;
    };
    let Some(outcome) = row.outcome() else {
        return None;
    };
    let now = clocks.clock(i);
    if clocks.add(i, answer_cost(outing.keeps_table)).is_err() {
        return None;
    }
    let end = end_turn(
        outing,
        row.call(),
        shared.wanted,
        outcome,
        patience,
        &mut *shared.store,
        &mut thread.room,
    );
    row.answer(answer_copied(&end, &mut thread.room));
    thread.phase = phase_behind(&end);
    lock.free(i, now);
    free_table(outing.keeps_table, i, now + 1, &mut shared.lock);
    Some(told_as(end))
}

// Whether thread i holds the lock of its object and, where its call kept the table, that of the table.
fn holds_locks(outing: Outing, i: usize, object: DetLock, table: DetLock) -> bool
    ensures { result ≡ (is_number object.holder i &&
        (not outing.keeps_table || is_number table.holder i)) }
{
    holds(object, i) && (!outing.keeps_table || holds(table, i))
}

// What an answer adds to the clock: 1 for each lock that is freed.
fn answer_cost(keeps_table: bool) -> u64
    ensures { result ≡ answer_cost keeps_table }
{
    if keeps_table { 2 } else { 1 }
}

// Frees the table, where a call kept it.
fn free_table(keeps_table: bool, i: usize, clock: u64, table: &mut DetLock)
    requires { keeps_table ≡ true → table.old.holder ≡ Some i }
    ensures { table.new ≡ table_freed keeps_table clock table.old }
{
    if keeps_table {
        table.free(i, clock);
    }
}

// The end of the turn, by the outcome that came.
fn end_turn(
    outing: Outing,
    call: &Call,
    wanted: Option<Locking>,
    outcome: &Outcome,
    patience: u32,
    store: &mut Store,
    room: &mut Room,
) -> TurnEnd
    requires born { BornWithin (2 ^ 126) store.old }
    requires asked { bytes_asked outing.errand ≤ room.old.told }
    requires copy { room.old.told ≤ room.old.row }
    requires decided { outing.keeps_table ≡ true
        → IsWanted store.old (call.now, outing.carried.moved) wanted }
    ensures event { EndsTurn outing.keeps_table patience outing call.now outcome.now result
        store.old store.new }
    ensures copy { turn_bytes result ≤ room.new.row }
    ensures births { BearsInTime 0 store.old 1 store.new }
    ensures doors { EndsDoors outing.keeps_table call.now outing.carried outcome.now store.old
        store.new }
    ensures kept { outing.keeps_table ≡ false → store.new ≡ store.old }
{
    if !outing.keeps_table {
        return room.end_outside(outing.errand, outcome, patience, outing.carried);
    }
    let Some(locking) = wanted else {
        unreachable!()
    };
    store.open_door(call, locking, outcome, patience, outing.carried)
}
