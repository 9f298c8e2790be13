ghost use Rattle.std.specs.Prelude.{◌<◌, length};

use input_log::LogSink;
use machine::{Machine, Outing, Phase};

/// Where a thread is between its events, as one who waits for it would say.
#[derive(Clone, Copy)]
pub(crate) enum Standing {
    /// It is between two calls.
    Working,
    /// Its call is granted, and is to go outside.
    Leaves,
    /// Its call is outside.
    Outside,
    /// Its call waits for the turn of this thread.
    WaitsForTurn(usize),
    /// Its call waits for the table, which this thread keeps.
    WaitsForTable(usize),
    /// Its call waits for the object of this number, which this thread keeps.
    WaitsForObject(usize, usize),
    /// Its call has its reply.
    Answered,
    Ended,
}

/// Where thread i is.
pub(crate) fn where_stands<S: LogSink, D: Drop>(machine: &Machine<S, D>, i: usize) -> Standing
    requires { i < length machine.now.whole.threads }
{
    match machine.phase(i) {
        Phase::Working => Standing::Working,
        Phase::WantsTable { .. } | Phase::Blocked { .. } => wants_table(machine, i),
        Phase::WantsObject { object, .. } => wants_object(machine, *object),
        Phase::ToOutside(_) => Standing::Leaves,
        Phase::Outside(_) => Standing::Outside,
        Phase::Granted { .. } | Phase::Recorded(_) => Standing::Answered,
        Phase::Ended => Standing::Ended,
    }
}

/// For how many turns the call of thread i was blocked so far.
pub(crate) fn blocked_turns<S: LogSink, D: Drop>(machine: &Machine<S, D>, i: usize) -> u32
    requires { i < length machine.now.whole.threads }
{
    match machine.phase(i) {
        Phase::WantsTable { carried, .. }
        | Phase::WantsObject { carried, .. }
        | Phase::Blocked { carried } => carried.turns,
        Phase::ToOutside(outing) | Phase::Outside(outing) | Phase::Recorded(outing) => {
            outing.carried.turns
        }
        Phase::Working | Phase::Granted { .. } | Phase::Ended => 0,
    }
}

// What thread i waits for, which wants the table.
fn wants_table<S: LogSink, D: Drop>(machine: &Machine<S, D>, i: usize) -> Standing {
    for j in 0..machine.len() {
        if j != i && holds_table(machine.phase(j)) {
            return Standing::WaitsForTable(j);
        }
    }
    waits_for_turn(machine)
}

// What a thread waits for that wants the lock of this object.
fn wants_object<S: LogSink, D: Drop>(machine: &Machine<S, D>, object: usize) -> Standing {
    for j in 0..machine.len() {
        if held_object(machine.phase(j)) == Some(object) {
            return Standing::WaitsForObject(object, j);
        }
    }
    waits_for_turn(machine)
}

fn waits_for_turn<S: LogSink, D: Drop>(machine: &Machine<S, D>) -> Standing {
    match machine.turn_holder() {
        Some(holder) => Standing::WaitsForTurn(holder),
        None => Standing::Working,
    }
}

// Whether a thread in this phase holds the table.
fn holds_table(phase: &Phase) -> bool {
    match phase {
        Phase::WantsObject { .. } => true,
        Phase::Granted { object, .. } => object.is_none(),
        Phase::ToOutside(outing) | Phase::Outside(outing) | Phase::Recorded(outing) => {
            keeps_table(outing)
        }
        _ => false,
    }
}

fn keeps_table(outing: &Outing) -> bool {
    outing.keeps_table || outing.object.is_none()
}

// The object whose lock a thread in this phase holds.
fn held_object(phase: &Phase) -> Option<usize> {
    match phase {
        Phase::Granted { object, .. } => *object,
        Phase::ToOutside(outing) | Phase::Outside(outing) | Phase::Recorded(outing) => {
            outing.object
        }
        _ => None,
    }
}
