use crate::runs::driven::{CREATE, Driven, SETTINGS, machine, open, write};
use crate::runs::seen::{RowReply, replied, was_blocked};
use call_machine::Refused;
use lock_machine::Phase;
use posix_terms::{Access, Call, PackedRow, Step};
use std::alloc::{AllocError, Global};
use std::test::Fail;

fn two_threads(alloc: Global) -> Result<Driven, AllocError> {
    machine(alloc, 2, SETTINGS, 21)
}

// One allocation alone is refused, so what lacked its memory has it when it is tried again.
fn started(alloc: Global) -> Result<Driven, AllocError> {
    match two_threads(alloc) {
        Ok(machine) => Ok(machine),
        Err(_) => two_threads(alloc),
    }
}

// ## The events

// What a thread asks, by how much it asked before: the second reads from a pipe of the first before that writes to it.
fn made_step(alloc: Global, i: usize, asked: usize) -> Result<Step, AllocError> {
    match (i, asked) {
        (0, 0) => Ok(Step::Call(Call::Pipe)),
        (0, 1) => Ok(Step::Work(20)),
        (0, 2) => write(alloc, 1, b"z"),
        (1, 0) => Ok(Step::Work(5)),
        (1, 1) => Ok(Step::Call(Call::Read {
            descriptor: 0,
            count: 1,
        })),
        (1, 2) => open(alloc, b"/a", Access::ReadWrite, CREATE),
        _ => Ok(Step::End),
    }
}

fn step(alloc: Global, i: usize, asked: usize) -> Result<Step, AllocError> {
    match made_step(alloc, i, asked) {
        Ok(step) => Ok(step),
        Err(_) => made_step(alloc, i, asked),
    }
}

// Thread i makes the event of its phase. Without the turn for its attempt it is refused, as in another phase.
fn event(alloc: Global, machine: &mut Driven, i: usize) -> Result<(), Refused> {
    if i >= machine.len() {
        return Err(Refused::WrongPhase);
    }
    match machine.phase(i) {
        Phase::Working => ask(alloc, machine, i),
        Phase::WantsTable { .. } => made(machine.try_table(i)),
        Phase::WantsObject { .. } => made(machine.try_node(i)),
        Phase::Blocked { .. } => machine.again(i),
        _ => made(machine.answer(i)),
    }
}

fn made<T: Drop>(told: Result<T, Refused>) -> Result<(), Refused> {
    told?;
    Ok(())
}

fn ask(alloc: Global, machine: &mut Driven, i: usize) -> Result<(), Refused> {
    if i >= machine.len() {
        return Err(Refused::WrongPhase);
    }
    match step(alloc, i, machine.asked(i).len()) {
        Ok(Step::End) => machine.end(i),
        Ok(step) => machine.ask(i, step),
        Err(_) => Err(Refused::Memory),
    }
}

// The event of thread i; whether it could be made. What lacked its memory is made again: a refused
// event changes nothing (`Comes`).
fn advance(alloc: Global, machine: &mut Driven, i: usize) -> Result<bool, Refused> {
    let mut made = event(alloc, machine, i);
    if made == Err(Refused::Memory) {
        made = event(alloc, machine, i);
    }
    match made {
        Ok(()) => Ok(true),
        Err(Refused::WrongPhase) => Ok(false),
        Err(refused) => Err(refused),
    }
}

// Events of both threads, as far as there are any; whether the run has an end.
fn run(alloc: Global, machine: &mut Driven) -> Result<bool, Refused> {
    for _ in 0..200_u32 {
        if !advance(alloc, machine, 0)? && !advance(alloc, machine, 1)? {
            return Ok(true);
        }
    }
    Ok(false)
}

// ## What comes of it

// Whether these are blocked turns of the second thread, from 6 on, each 4 after the one before.
fn were_blocked(rows: &[PackedRow]) -> bool {
    let mut clock = 6_u64;
    for row in rows {
        if !was_blocked(row, 1, clock) {
            return false;
        }
        clock = clock.wrapping_add(4);
    }
    true
}

// A pipe at 1. The read is made at 6 and again at 10, 14, 18 and 22. The write
// after the work is at 25, and so the read has its byte at 28.
fn is_whole(rows: &[PackedRow]) -> bool {
    match rows {
        [pipe, blocked @ .., write, read, open] => {
            replied(pipe, 0, 1, RowReply::Pair(0, 1))
                && blocked.len() == 5
                && were_blocked(blocked)
                && replied(write, 0, 25, RowReply::Count(1))
                && replied(read, 1, 28, RowReply::Data(b"z"))
                && replied(open, 1, 32, RowReply::Number(2))
        }
        _ => false,
    }
}

// Whether a machine has all that, and came to its end.
fn is_over(machine: Driven) -> bool {
    let is_whole = is_whole(machine.history());
    let left = machine.finish();
    is_whole && left.stop.is_none()
}

// Whether a machine of both threads has that once it ran.
fn comes_to_its_end(alloc: Global) -> Result<bool, Fail> {
    let mut machine = started(alloc)?;
    Ok(run(alloc, &mut machine)? && is_over(machine))
}

// Whichever allocation is refused, by `rt try --test --fail-alloc`, the run is
// the same: `ask` and `again` say that there is no memory, change
// nothing, and are made when they are asked again. See tools/refused-allocations.
#[test]
fn asks_again_where_memory_was_refused(rt: HostRuntime) -> Result<(), Fail> {
    assert!(rt;
        comes_to_its_end(rt.alloc())?,
        "it has its nine rows, and ended"
    );
    Ok(())
}
