ghost use Rattle.std.specs.Prelude.{◌≡◌, ◌++◌, ◌∷◌, [], ◌*◌, ◌<◌, ◌≤◌, ◌^◌, ◌&&◌, ℕ, Some, true};
ghost use Rattle.std.specs.Prelude.{false, length};
ghost use Rattle.det_mutex.specs.Attempt.{takes};
ghost use Rattle.lock_model.specs.Machine.{is_number};
ghost use Rattle.logical_clocks.specs.ThreadClocks.{clock_at};
ghost use Rattle.posix_terms.specs.declared.limits.TheConstants.Limits as limit;
ghost use Rattle.lock_machine.specs.Births.{BearsInTime, BornWithin, time_of};
ghost use Rattle.lock_machine.specs.Events.{Answers, Grants, granted_row, wants_to_keep};
ghost use Rattle.lock_machine.specs.Events.{GrantsObject, PlansTo, Reaches, Tries, object_taken};
ghost use Rattle.lock_machine.specs.Events.{parts};
ghost use Rattle.lock_machine.specs.DoorMoves.{PlansDoors, StartsDoors};
ghost use Rattle.lock_machine.specs.Lives.{is_live};
ghost use Rattle.lock_machine.specs.Refusals.{wants_object, wants_table};
ghost use Rattle.lock_machine.specs.Wanted.{BringsNoCall, KeepsCalls, KeepsWanted, HasDecided};
ghost use Rattle.lock_machine.specs.Wanted.{HasDecidedAt};
ghost use Rattle.lock_machine.specs.Held.{phase_behind, phase_started, told_as};
ghost use Rattle.lock_machine.specs.Threads.{KeepsOthers, timed};
ghost use Rattle.lock_machine.specs.Waiting.{HasRoom, KeepsRoom, rows_due};
ghost use Rattle.call_turns.specs.Patience.{turn_bytes};
ghost use Rattle.call_turns.specs.Space.{HasSpaceFor};
ghost use Rattle.call_turns.specs.Store.{IsDecided, Stored, number_locked};

use crate::machine::Shared;
use crate::thread::{Outing, Phase, Thread};
use call_turns::{AtTable, Locking, Room, TurnEnd, TurnStart, keeps_table};
use det_mutex::DetLock;
use logical_clocks::Clocks;
use posix_terms::{Answer, Call, Carried, PackedRow, Turn};
use std::mem;

// `answer`: the call of thread i, which has this row, has its reply,
// or is to be made again where it was blocked; this is
// returned. The lock that the call holds is free.
#[inline(always)]
pub fn answer(
    i: usize,
    thread: &mut Thread,
    clocks: &mut Clocks,
    row: usize,
    lock: &mut DetLock,
    rows: &mut Vec<PackedRow>,
) -> Option<Answer>
    requires inside { i < length clocks.old }
    requires live { is_live thread.old.phase ≡ true }
    ensures event { (table : Stored)
        → Answers result i row (parts (timed thread.old (clock_at clocks.old i)) lock.old table
        rows.old.items) (parts (timed thread.new (clock_at clocks.new i)) lock.new table
        rows.new.items) }
    ensures others { KeepsOthers i thread.old clocks.old thread.new clocks.new }
    ensures rows { length rows.new.items ≡ length rows.old.items }
    ensures room { KeepsRoom (rows_due thread.old.phase) rows.old (rows_due thread.new.phase)
        rows.new }
    ensures brings { BringsNoCall thread.old.phase rows.old.items thread.new.phase rows.new.items }
    ensures calls { KeepsCalls rows.old.items rows.new.items }
    ensures holders { (k : ℕ) → lock.new.holder ≡ Some k → lock.old.holder ≡ Some k }
{
    if !holds(*lock, i) {
        return None;
    }
    let Some(row) = rows.get_mut(row) else {
        return None;
    };
    let Phase::Granted { ends, .. } = &mut thread.phase else {
        return None;
    };
    let clock = clocks.clock(i);
    if clocks.add(i, 1).is_err() {
        return None;
    }
    row.answer(answer_copied(ends, &mut thread.room));
    lock.free(i, clock);
    let behind = phase_behind(ends);
    let ends = mem::replace(ends, TurnEnd::Blocked(Carried::NOTHING));
    thread.phase = behind;
    Some(told_as(ends))
}

// A turn that ended so, as the answer of its row, with its bytes in the room for them.
pub fn answer_copied(end: &TurnEnd, room: &mut Room) -> Answer
    requires { turn_bytes end.now ≤ room.old.row }
    ensures { result ≡ told_as end.now }
{
    match end {
        TurnEnd::Reply(reply) => Answer::Reply(room.copy(reply)),
        TurnEnd::Blocked(_) => Answer::Again,
    }
}

// The phase of a thread once its call is answered, whose turn ended so.
pub fn phase_behind(end: &TurnEnd) -> Phase
    ensures phase { result ≡ phase_behind end.now }
    ensures live { is_live result ≡ true }
    ensures due { rows_due result ≡ 0 }
{
    match end {
        TurnEnd::Reply(_) => Phase::Working,
        TurnEnd::Blocked(carried) => Phase::Blocked { carried: *carried },
    }
}

// A turn that ended so, as the answer that is returned.
pub fn told_as(end: TurnEnd) -> Answer
    ensures { result ≡ told_as end }
{
    match end {
        TurnEnd::Reply(reply) => Answer::Reply(reply),
        TurnEnd::Blocked(_) => Answer::Again,
    }
}

// Whether thread i holds a lock.
pub fn holds(lock: DetLock, i: usize) -> bool
    ensures { result ≡ is_number lock.holder i }
{
    match lock.holder {
        Some(holder) => holder == i,
        None => false,
    }
}

// `try_table`, by a thread that has the turn: takes the table where it can, for 1 either way. A call that
// takes no object is granted at once.
pub fn try_table(
    patience: u32,
    i: usize,
    thread: &mut Thread,
    clocks: &mut Clocks,
    shared: &mut Shared,
) -> bool
    requires inside { i < length clocks.old }
    requires few { length clocks.old ≤ limit.THREADS }
    requires born { BornWithin (2 * time_of clocks.old) shared.old.store.value }
    requires row { HasRoom (rows_due thread.old.phase) shared.old.rows }
    requires decided { HasDecidedAt i thread.old.phase shared.old.lock shared.old.rows.items
        shared.old.store.value shared.old.wanted }
    ensures event { Tries patience result i
        (parts (timed thread.old (clock_at clocks.old i)) shared.old.lock shared.old.store.value
        shared.old.rows.items) (parts (timed thread.new (clock_at clocks.new i)) shared.new.lock
        shared.new.store.value shared.new.rows.items) }
    ensures others { KeepsOthers i thread.old clocks.old thread.new clocks.new }
    ensures births { BearsInTime (clock_at clocks.old i) shared.old.store.value
        (clock_at clocks.new i) shared.new.store.value }
    ensures doors { wants_table thread.old.phase ≡ true → PlansDoors thread.new.phase
        shared.old.store.value shared.new.store.value }
    ensures room { KeepsRoom (rows_due thread.old.phase) shared.old.rows (rows_due thread.new.phase)
        shared.new.rows }
    ensures decided { HasDecidedAt i thread.new.phase shared.new.lock shared.new.rows.items
        shared.new.store.value shared.new.wanted }
    ensures wanted { KeepsWanted i shared.old.lock shared.old.rows.items shared.old.store.value
        shared.old.wanted shared.new.lock shared.new.rows.items shared.new.store.value shared.new.wanted }
{
    match mem::replace(&mut thread.phase, Phase::Working) {
        Phase::WantsTable { call, carried } => {
            let clock = clocks.clock(i);
            if clocks.add(i, 1).is_err() {
                thread.phase = Phase::WantsTable { call, carried };
                return false;
            }
            if shared.lock.attempt(i, clock) {
                let turn = Turn { clock, thread: i };
                plan(patience, turn, call, carried, thread, shared);
            } else {
                thread.phase = Phase::WantsTable { call, carried };
            }
            true
        }
        phase => {
            thread.phase = phase;
            false
        }
    }
}

// What a call takes beside the table: the lock of an object, or it is granted.
fn plan(
    patience: u32,
    turn: Turn,
    call: Call,
    carried: Carried,
    thread: &mut Thread,
    shared: &mut Shared,
)
    requires thread { turn.thread < limit.THREADS }
    requires born { BornWithin (2 ^ 126) shared.old.store.value }
    requires row { HasRoom 1 shared.old.rows }
    requires room { HasSpaceFor call thread.old.room }
    requires holds { shared.old.lock.holder ≡ Some turn.thread }
    ensures event { (clock : ℕ) → PlansTo patience (number_locked shared.old.store.value call
        carried)
        turn call carried (parts (timed thread.old clock) shared.old.lock shared.old.store.value
        shared.old.rows.items) (parts (timed thread.new clock) shared.new.lock shared.new.store.value
        shared.new.rows.items) }
    ensures live { is_live thread.old.phase ≡ true → is_live thread.new.phase ≡ true }
    ensures births { BearsInTime 0 shared.old.store.value 1 shared.new.store.value }
    ensures doors { PlansDoors thread.new.phase shared.old.store.value shared.new.store.value }
    ensures room { KeepsRoom 1 shared.old.rows (rows_due thread.new.phase) shared.new.rows }
    ensures decided { HasDecided thread.new.phase shared.new.rows.items shared.new.store.value
        shared.new.wanted }
    ensures lock { shared.new.lock ≡ shared.old.lock }
{
    let store = &mut *shared.store;
    match store.perform_or_lock(&call, carried) {
        AtTable::Answers(reply) => {
            let row = shared.rows.len();
            shared.rows.push_reserved(granted_row(turn, call));
            thread.phase = Phase::Granted {
                row,
                object: None,
                ends: TurnEnd::Reply(reply),
            };
        }
        AtTable::Locks(locking) => {
            thread.phase = Phase::WantsObject {
                call,
                carried,
                clock: turn.clock,
                object: locking.object,
            };
            shared.wanted = Some(locking);
        }
    }
}

// `try_object`, by a thread that has the turn: takes the object where it can, for 1 either way. Then the call is
// granted and, unless it keeps the table, this is free, for 1 more.
pub fn try_object(
    patience: u32,
    i: usize,
    thread: &mut Thread,
    clocks: &mut Clocks,
    lock: &mut DetLock,
    shared: &mut Shared,
) -> bool
    requires inside { i < length clocks.old }
    requires few { length clocks.old ≤ limit.THREADS }
    requires born { BornWithin (2 * time_of clocks.old) shared.old.store.value }
    requires row { HasRoom (rows_due thread.old.phase) shared.old.rows }
    requires decided { HasDecidedAt i thread.old.phase shared.old.lock shared.old.rows.items
        shared.old.store.value shared.old.wanted }
    ensures event { Reaches patience result i lock.old lock.new
        (parts (timed thread.old (clock_at clocks.old i)) shared.old.lock shared.old.store.value
        shared.old.rows.items) (parts (timed thread.new (clock_at clocks.new i)) shared.new.lock
        shared.new.store.value shared.new.rows.items) }
    ensures others { KeepsOthers i thread.old clocks.old thread.new clocks.new }
    ensures births { BearsInTime (clock_at clocks.old i) shared.old.store.value
        (clock_at clocks.new i) shared.new.store.value }
    ensures doors { wants_object thread.old.phase ≡ true → StartsDoors thread.new.phase
        shared.old.store.value shared.new.store.value }
    ensures room { KeepsRoom (rows_due thread.old.phase) shared.old.rows (rows_due thread.new.phase)
        shared.new.rows }
    ensures decided { HasDecidedAt i thread.new.phase shared.new.lock shared.new.rows.items
        shared.new.store.value shared.new.wanted }
    ensures wanted { KeepsWanted i shared.old.lock shared.old.rows.items shared.old.store.value
        shared.old.wanted shared.new.lock shared.new.rows.items shared.new.store.value shared.new.wanted }
{
    let Phase::WantsObject { .. } = thread.phase else {
        return false;
    };
    let now = clocks.clock(i);
    let keeps = wants_to_keep(&thread.phase);
    let taken = taken_object(shared.lock, *lock, i, now);
    let cost = if taken.is_some() && !keeps { 2 } else { 1 };
    if clocks.add(i, cost).is_err() {
        return false;
    }
    let Some(taken) = taken else {
        return true;
    };
    *lock = taken;
    if !keeps {
        shared.lock.free(i, now + 1);
    }
    grant_object(patience, i, thread, shared);
    true
}

// Whether the call that wants an object keeps the table to its answer.
fn wants_to_keep(phase: &Phase) -> bool
    ensures { result ≡ wants_to_keep phase.now }
{
    match phase {
        Phase::WantsObject { call, .. } => keeps_table(call),
        _ => false,
    }
}

// Grants the call of thread i that wants an object.
fn grant_object(patience: u32, i: usize, thread: &mut Thread, shared: &mut Shared)
    requires thread { i < limit.THREADS }
    requires born { BornWithin (2 ^ 126) shared.old.store.value }
    requires row { HasRoom 1 shared.old.rows }
    requires decided { HasDecided thread.old.phase shared.old.rows.items shared.old.store.value
        shared.old.wanted }
    ensures event { (clock : ℕ) → GrantsObject patience thread.old.phase i
        (parts (timed thread.old clock) shared.old.lock shared.old.store.value shared.old.rows.items)
        (parts (timed thread.new clock) shared.new.lock shared.new.store.value shared.new.rows.items) }
    ensures live { is_live thread.old.phase ≡ true → is_live thread.new.phase ≡ true }
    ensures births { BearsInTime 0 shared.old.store.value 1 shared.new.store.value }
    ensures doors { wants_object thread.old.phase ≡ true → StartsDoors thread.new.phase
        shared.old.store.value shared.new.store.value }
    ensures room { KeepsRoom 1 shared.old.rows (rows_due thread.new.phase) shared.new.rows }
    ensures decided { HasDecided thread.new.phase shared.new.rows.items shared.new.store.value
        shared.new.wanted }
    ensures lock { shared.new.lock ≡ shared.old.lock }
{
    match mem::replace(&mut thread.phase, Phase::Working) {
        Phase::WantsObject {
            call,
            carried,
            clock,
            object,
        } => {
            let Some(locking) = shared.wanted else {
                unreachable!()
            };
            let turn = Turn { clock, thread: i };
            grant(
                patience, turn, call, carried, object, locking, thread, shared,
            );
        }
        phase => thread.phase = phase,
    }
}

// The lock of an object once thread i, which holds the table, has taken it at this clock, if it can.
#[tactic(auto, unfolding(det_mutex::specs::Attempt::takes))]
fn taken_object(table: DetLock, object: DetLock, i: usize, clock: u64) -> Option<DetLock>
    ensures { result ≡ object_taken (is_number table.holder i && takes object clock) i object }
{
    let mut object = object;
    if holds(table, i) && object.attempt(i, clock) {
        Some(object)
    } else {
        None
    }
}

// A call that carries this gets its turn and a row of the history, and is performed as it was decided.
fn grant(
    patience: u32,
    turn: Turn,
    call: Call,
    carried: Carried,
    object: usize,
    locking: Locking,
    thread: &mut Thread,
    shared: &mut Shared,
)
    requires thread { turn.thread < limit.THREADS }
    requires born { BornWithin (2 ^ 126) shared.old.store.value }
    requires row { HasRoom 1 shared.old.rows }
    requires room { HasSpaceFor call thread.old.room }
    requires decided { IsDecided shared.old.store.value call carried.moved locking }
    requires wanted { shared.old.wanted ≡ Some locking }
    ensures event { (clock : ℕ) → Grants patience turn call carried (Some object)
        (parts (timed thread.old clock) shared.old.lock shared.old.store.value shared.old.rows.items)
        (parts (timed thread.new clock) shared.new.lock shared.new.store.value shared.new.rows.items) }
    ensures live { is_live thread.old.phase ≡ true → is_live thread.new.phase ≡ true }
    ensures births { BearsInTime 0 shared.old.store.value 1 shared.new.store.value }
    ensures doors { StartsDoors thread.new.phase shared.old.store.value shared.new.store.value }
    ensures room { KeepsRoom 1 shared.old.rows (rows_due thread.new.phase) shared.new.rows }
    ensures decided { HasDecided thread.new.phase shared.new.rows.items shared.new.store.value
        shared.new.wanted }
    ensures lock { shared.new.lock ≡ shared.old.lock }
{
    let start = thread
        .room
        .perform(&mut *shared.store, &call, locking, patience, carried);
    thread.phase = seat(turn, call, carried, Some(object), start, &mut shared.rows);
}

// A call whose turn started so gets a row of the history; this is the phase of its thread then.
fn seat(
    turn: Turn,
    call: Call,
    carried: Carried,
    object: Option<usize>,
    start: TurnStart,
    history: &mut Vec<PackedRow>,
) -> Phase
    requires thread { turn.thread < limit.THREADS }
    requires row { HasRoom 1 history.old }
    ensures phase { result ≡ phase_started (length history.old.items) object call carried start }
    ensures row { history.new.items ≡ history.old.items ++ granted_row turn call ∷ [] }
    ensures live { is_live result ≡ true }
    ensures room { KeepsRoom 1 history.old (rows_due result) history.new }
{
    let phase = started(history.len(), object, carried, &call, start);
    history.push_reserved(granted_row(turn, call));
    phase
}

// The row of a call that got its turn, before it has an outcome or an answer.
fn granted_row(turn: Turn, call: Call) -> PackedRow
    requires { turn.thread < limit.THREADS }
    ensures { result ≡ granted_row turn call }
{
    PackedRow::granted(call, turn)
}

// The phase of a thread whose turn started so, which has this row.
fn started(
    row: usize,
    object: Option<usize>,
    carried: Carried,
    call: &Call,
    start: TurnStart,
) -> Phase
    ensures phase { result ≡ phase_started row object call.now carried start }
    ensures live { is_live result ≡ true }
    ensures due { rows_due result ≡ 0 }
{
    match start {
        TurnStart::Ended(ends) => Phase::Granted { row, object, ends },
        TurnStart::GoesOut(errand) => Phase::ToOutside(Outing {
            row,
            object,
            carried,
            errand,
            keeps_table: keeps_table(call),
        }),
    }
}
