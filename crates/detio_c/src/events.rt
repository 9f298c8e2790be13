ghost use Rattle.std.specs.Prelude.{◌≡◌, ◌⊎◌, IfErr, MatchResult, OnErr, OnOk, length};
ghost use Rattle.lock_machine.specs.Refusals.{goes_outside, is_blocked, works};
ghost use Rattle.lock_machine.specs.Views.{clocks_of};
ghost use Rattle.lock_model.specs.Machine.Event.{Advances};
ghost use Rattle.logical_clocks.specs.TurnOrder.{turn_holder};
ghost use Rattle.machine.specs.Runs.Coming.{Asks, Nothing};
ghost use Rattle.posix_terms.specs.declared.step.Step.TheVariants as step;
ghost use Rattle.c_words.specs.Calls.{call_of};
ghost use Rattle.c_words.specs.Faults.{code_of};
ghost use Rattle.c_words.specs.Words.{outcome_of};
ghost use Rattle.detio_c.specs.Promise.{AsksCall, HasAsked, HasCome, HasFilled, HasGone, HasGrown};
ghost use Rattle.detio_c.specs.Promise.{HasSettled, IsFaithfulIn, IsRefusal, KeepsRest};
ghost use Rattle.detio_c.specs.Reads.{HasClock, HasTurn, InBoth, InMachine, IsAtPhase};
ghost use Rattle.detio_c.specs.Reads.{MakesAgain, MayGo, ReadsDoor, ReadsHolder, ReadsReply};
ghost use Rattle.detio_c.specs.Reads.{ReadsRequest, Rests, door_along};
ghost use Rattle.detio_c.specs.Refused.{IsForSession, IsOver, NothingElse, OfThread};
ghost use Rattle.detio_c.specs.Refused.{RefusesAnswer, RefusesAsking, RefusesCall, RefusesEvent};
ghost use Rattle.detio_c.specs.Refused.{RefusesMaking, RefusesOutcome, RefusesRequest};
ghost use Rattle.detio_c.specs.Refused.{RefusesSettling};

use crate::handle::Handle;
use crate::place::{put, taken};
use crate::session::Session;
use c_words::{CallWords, LibraryFault, OutcomeWords, OutsideWords, ReplyWords, call_of};
use posix_terms::Step;
use std::alloc::Global;

// The codes of what was not refused.
const DONE: u32 = 0;

const MORE: u32 = 1;

const AGAIN: u32 = 2;

// The code of what was done or refused.
fn code_of(made: Result<(), LibraryFault>) -> u32
    ensures { MatchResult made (λ _. result ≡ 0) (λ f. result ≡ code_of f) }
{
    match made {
        Ok(()) => DONE,
        Err(fault) => fault.code(),
    }
}

// Thread i asks the call that C says.
fn ask_call(
    alloc: Global,
    session: &mut Session,
    thread: usize,
    call: &CallWords,
    text: &[u8],
    second: &[u8],
) -> Result<(), LibraryFault>
    ensures rest { KeepsRest session.old session.new }
    ensures refused { OnErr result (session.new ≡ session.old) }
    ensures grown { OnOk result (AsksCall (call_of call.now text.now second.now) thread
        session.old.machine session.new.machine) }
    ensures why { IfErr result (λ f. RefusesCall call.now
        (call_of call.now text.now second.now) thread f session.old) }
{
    session.ask(thread, Step::Call(call_of(alloc, call, text, second)?))
}

/// Thread `thread` asks a call, with its path or its bytes in `text`, and the second of two paths.
#[unsafe(no_mangle)]
pub extern "C" fn detio_ask(
    alloc: Global,
    h: &mut Handle,
    thread: usize,
    call: &CallWords,
    text: &[u8],
    second: &[u8],
) -> u32
    ensures faithful { IsFaithfulIn h.new.value }
    ensures grown { result ≡ 0
        → HasAsked call.now text.now second.now thread h.old.value h.new.value }
    ensures refused { IsRefusal 0 result → h.new.value ≡ h.old.value }
    ensures why { IsRefusal 0 result → IsForSession
        (RefusesCall call.now (call_of call.now text.now second.now) thread) result h.old.value }
{
    let Some(session) = taken(alloc, h) else {
        return LibraryFault::NoSession.code();
    };
    let mut session = session;
    let made = ask_call(alloc, &mut session, thread, call, text, second);
    put(h, session);
    code_of(made)
}

/// Thread `thread` works on its own for so many units of its clock.
#[unsafe(no_mangle)]
pub extern "C" fn detio_work(alloc: Global, h: &mut Handle, thread: usize, units: u64) -> u32
    ensures faithful { IsFaithfulIn h.new.value }
    ensures grown { result ≡ 0
        → HasGrown (Asks (step.Work units)) (Advances thread) h.old.value h.new.value }
    ensures refused { IsRefusal 0 result → h.new.value ≡ h.old.value }
    ensures why { IsRefusal 0 result
        → IsForSession (RefusesAsking (step.Work units) thread) result h.old.value }
{
    let Some(session) = taken(alloc, h) else {
        return LibraryFault::NoSession.code();
    };
    let mut session = session;
    let made = session.ask(thread, Step::Work(units));
    put(h, session);
    code_of(made)
}

/// Thread `thread` ends.
#[unsafe(no_mangle)]
pub extern "C" fn detio_end(alloc: Global, h: &mut Handle, thread: usize) -> u32
    ensures faithful { IsFaithfulIn h.new.value }
    ensures grown { result ≡ 0
        → HasGrown (Asks step.End) (Advances thread) h.old.value h.new.value }
    ensures refused { IsRefusal 0 result → h.new.value ≡ h.old.value }
    ensures why { IsRefusal 0 result → IsForSession (OfThread thread
        (RefusesEvent works (Asks step.End) thread)) result h.old.value }
{
    let Some(session) = taken(alloc, h) else {
        return LibraryFault::NoSession.code();
    };
    let mut session = session;
    let made = session.end(thread);
    put(h, session);
    code_of(made)
}

/// Thread `thread` makes its blocked call again.
#[unsafe(no_mangle)]
pub extern "C" fn detio_again(alloc: Global, h: &mut Handle, thread: usize) -> u32
    ensures faithful { IsFaithfulIn h.new.value }
    ensures grown { result ≡ 0
        → HasGrown Nothing (Advances thread) h.old.value h.new.value }
    ensures refused { IsRefusal 0 result → h.new.value ≡ h.old.value }
    ensures why { IsRefusal 0 result → IsForSession (OfThread thread
        (RefusesMaking is_blocked Nothing thread)) result h.old.value }
{
    let Some(session) = taken(alloc, h) else {
        return LibraryFault::NoSession.code();
    };
    let mut session = session;
    let made = session.again(thread);
    put(h, session);
    code_of(made)
}

/// Makes the attempts that can be made: 1 where there may be more. At 0 whoever has the turn attempts no lock. Where
/// it is refused it made none.
#[unsafe(no_mangle)]
pub extern "C" fn detio_settle(alloc: Global, h: &mut Handle) -> u32
    ensures faithful { IsFaithfulIn h.new.value }
    ensures rests { result ≡ 0 → InMachine h.new.value Rests }
    ensures attempts { (result ≡ 0) ⊎ (result ≡ 1)
        → InBoth h.old.value h.new.value (HasSettled result) }
    ensures refused { IsRefusal 1 result → h.new.value ≡ h.old.value }
    ensures why { IsRefusal 1 result → IsForSession RefusesSettling result h.old.value }
{
    let Some(session) = taken(alloc, h) else {
        return LibraryFault::NoSession.code();
    };
    let mut session = session;
    let made = session.settle();
    put(h, session);
    match made {
        Ok(true) => MORE,
        Ok(false) => DONE,
        Err(fault) => fault.code(),
    }
}

/// Where thread `thread` is.
#[unsafe(no_mangle)]
pub extern "C" fn detio_phase(alloc: Global, h: &mut Handle, thread: usize, phase: &mut u32) -> u32
    ensures faithful { IsFaithfulIn h.new.value }
    ensures phase { result ≡ 0 → InMachine h.old.value (IsAtPhase thread phase.new) }
    ensures unchanged { h.new.value ≡ h.old.value }
    ensures why { IsRefusal 0 result
        → IsForSession (OfThread thread NothingElse) result h.old.value }
{
    let Some(session) = taken(alloc, h) else {
        return LibraryFault::NoSession.code();
    };
    let mut session = session;
    let made = session.phase(thread);
    put(h, session);
    match made {
        Ok(found) => {
            *phase = found;
            DONE
        }
        Err(fault) => fault.code(),
    }
}

/// Whether thread `thread` has the turn.
#[unsafe(no_mangle)]
pub extern "C" fn detio_has_turn(
    alloc: Global,
    h: &mut Handle,
    thread: usize,
    has: &mut bool,
) -> u32
    ensures faithful { IsFaithfulIn h.new.value }
    ensures turn { result ≡ 0 → InMachine h.old.value (HasTurn thread has.new) }
    ensures unchanged { h.new.value ≡ h.old.value }
    ensures why { IsRefusal 0 result
        → IsForSession (OfThread thread NothingElse) result h.old.value }
{
    let Some(session) = taken(alloc, h) else {
        return LibraryFault::NoSession.code();
    };
    let mut session = session;
    let made = session.has_turn(thread);
    put(h, session);
    match made {
        Ok(found) => {
            *has = found;
            DONE
        }
        Err(fault) => fault.code(),
    }
}

/// The clock of thread `thread`. That of a thread that has ended is the one at which it did.
#[unsafe(no_mangle)]
pub extern "C" fn detio_clock(alloc: Global, h: &mut Handle, thread: usize, clock: &mut u64) -> u32
    ensures faithful { IsFaithfulIn h.new.value }
    ensures clock { result ≡ 0 → InMachine h.old.value (HasClock thread clock.new) }
    ensures unchanged { h.new.value ≡ h.old.value }
    ensures why { IsRefusal 0 result
        → IsForSession (OfThread thread NothingElse) result h.old.value }
{
    let Some(session) = taken(alloc, h) else {
        return LibraryFault::NoSession.code();
    };
    let mut session = session;
    let made = session.clock(thread);
    put(h, session);
    match made {
        Ok(found) => {
            *clock = found;
            DONE
        }
        Err(fault) => fault.code(),
    }
}

/// Whether some thread has the turn, and which: where nobody has, `thread` is left as it was.
#[unsafe(no_mangle)]
pub extern "C" fn detio_holder(
    alloc: Global,
    h: &mut Handle,
    there: &mut bool,
    thread: &mut usize,
) -> u32
    ensures faithful { IsFaithfulIn h.new.value }
    ensures holder { result ≡ 0 → InMachine h.old.value (λ m. ReadsHolder there.new
        thread.old thread.new (turn_holder (clocks_of m.whole.threads))) }
    ensures unchanged { h.new.value ≡ h.old.value }
    ensures why { IsRefusal 0 result → IsForSession IsOver result h.old.value }
{
    let Some(session) = taken(alloc, h) else {
        return LibraryFault::NoSession.code();
    };
    let mut session = session;
    let made = session.holder();
    put(h, session);
    match made {
        Ok(Some(found)) => {
            *there = true;
            *thread = found;
            DONE
        }
        Ok(None) => {
            *there = false;
            DONE
        }
        Err(fault) => fault.code(),
    }
}

/// Whether thread `thread` is about to go outside, and each call that was granted before its own and goes outside has
/// its record.
#[unsafe(no_mangle)]
pub extern "C" fn detio_may_go(alloc: Global, h: &mut Handle, thread: usize, may: &mut bool) -> u32
    ensures faithful { IsFaithfulIn h.new.value }
    ensures go { result ≡ 0 → InMachine h.old.value (MayGo thread may.new) }
    ensures unchanged { h.new.value ≡ h.old.value }
    ensures why { IsRefusal 0 result
        → IsForSession (OfThread thread NothingElse) result h.old.value }
{
    let Some(session) = taken(alloc, h) else {
        return LibraryFault::NoSession.code();
    };
    let mut session = session;
    let made = session.may_go(thread);
    put(h, session);
    match made {
        Ok(found) => {
            *may = found;
            DONE
        }
        Err(fault) => fault.code(),
    }
}

/// The answer of the thread's call, with the bytes of a read in `buffer`; 2 where the call is made again.
#[unsafe(no_mangle)]
pub extern "C" fn detio_answer(
    alloc: Global,
    h: &mut Handle,
    thread: usize,
    reply: &mut ReplyWords,
    buffer: &mut [u8],
) -> u32
    ensures faithful { IsFaithfulIn h.new.value }
    ensures grown { (result ≡ 0) ⊎ (result ≡ 2)
        → HasGrown Nothing (Advances thread) h.old.value h.new.value }
    ensures reply { result ≡ 0
        → InMachine h.old.value (ReadsReply thread reply.new (length buffer.old) buffer.new) }
    ensures again { result ≡ 2 → InMachine h.old.value (MakesAgain thread) }
    ensures refused { IsRefusal 2 result → h.new.value ≡ h.old.value }
    ensures why { IsRefusal 2 result → IsForSession (OfThread thread
        (RefusesAnswer thread (length buffer.old))) result h.old.value }
{
    let Some(session) = taken(alloc, h) else {
        return LibraryFault::NoSession.code();
    };
    let mut session = session;
    let made = session.answer(thread, buffer);
    put(h, session);
    match made {
        Ok(Some(words)) => {
            *reply = words;
            DONE
        }
        Ok(None) => AGAIN,
        Err(fault) => fault.code(),
    }
}

/// What the thread asks outside, with the path or the bytes of its call in `buffer`.
#[unsafe(no_mangle)]
pub extern "C" fn detio_request(
    alloc: Global,
    h: &mut Handle,
    thread: usize,
    outside: &mut OutsideWords,
    buffer: &mut [u8],
) -> u32
    ensures faithful { IsFaithfulIn h.new.value }
    ensures request { result ≡ 0
        → InMachine h.old.value (ReadsRequest thread outside.new buffer.new) }
    ensures unchanged { h.new.value ≡ h.old.value }
    ensures why { IsRefusal 0 result → IsForSession (OfThread thread
        (RefusesRequest thread (length buffer.old))) result h.old.value }
{
    let Some(session) = taken(alloc, h) else {
        return LibraryFault::NoSession.code();
    };
    let mut session = session;
    let made = session.request(thread, buffer);
    put(h, session);
    match made {
        Ok(words) => {
            *outside = words;
            DONE
        }
        Err(fault) => fault.code(),
    }
}

/// The thread goes outside, with this door, if one goes along.
#[unsafe(no_mangle)]
pub extern "C" fn detio_begin_outside(
    alloc: Global,
    h: &mut Handle,
    thread: usize,
    goes: &mut bool,
    door: &mut u64,
) -> u32
    ensures faithful { IsFaithfulIn h.new.value }
    ensures grown { result ≡ 0 → HasGone thread h.old.value h.new.value }
    ensures door { result ≡ 0
        → InMachine h.old.value (λ m. ReadsDoor goes.new door.new (door_along thread m)) }
    ensures refused { IsRefusal 0 result → h.new.value ≡ h.old.value }
    ensures why { IsRefusal 0 result → IsForSession (OfThread thread
        (RefusesEvent goes_outside Nothing thread)) result h.old.value }
{
    let Some(session) = taken(alloc, h) else {
        return LibraryFault::NoSession.code();
    };
    let mut session = session;
    let made = session.begin_outside(thread);
    put(h, session);
    match made {
        Ok(Some(number)) => {
            *goes = true;
            *door = number;
            DONE
        }
        Ok(None) => {
            *goes = false;
            DONE
        }
        Err(fault) => fault.code(),
    }
}

/// This came for the thread, which is outside, with the bytes of a read.
#[unsafe(no_mangle)]
pub extern "C" fn detio_record(
    alloc: Global,
    h: &mut Handle,
    thread: usize,
    outcome: &OutcomeWords,
    bytes: &[u8],
) -> u32
    ensures faithful { IsFaithfulIn h.new.value }
    ensures grown { result ≡ 0 → HasCome outcome.now bytes.now thread h.old.value h.new.value }
    ensures refused { IsRefusal 9 result → h.new.value ≡ h.old.value }
    ensures full { result ≡ 9 → HasFilled outcome.now bytes.now thread h.old.value h.new.value }
    ensures why { IsRefusal 9 result → IsForSession (OfThread thread
        (RefusesOutcome outcome.now (outcome_of outcome.now bytes.now) thread)) result h.old.value }
{
    let Some(session) = taken(alloc, h) else {
        return LibraryFault::NoSession.code();
    };
    let mut session = session;
    let made = session.record(alloc, thread, outcome, bytes);
    put(h, session);
    code_of(made)
}
