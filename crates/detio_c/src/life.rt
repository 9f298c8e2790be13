ghost use Rattle.std.specs.Prelude.{◌≡◌, ◌≤◌, IsSomeAnd, MatchResult, Some, length};
ghost use Rattle.c_words.specs.declared.fault.LibraryFault.TheVariants as fault;
ghost use Rattle.detio_c.specs.Begun.{Begins, BeginsReplay, settings_said};
ghost use Rattle.detio_c.specs.Promise.{IsFaithfulIn, IsRefusal};
ghost use Rattle.detio_c.specs.Reads.{HasFinished, HasStopped, InBoth, ReadsLogOf, ReadsNext};
ghost use Rattle.detio_c.specs.Reads.{unused_of};
ghost use Rattle.detio_c.specs.Refused.{IsFor, IsForSession, RefusesCount, RefusesEnd, RefusesLog};
ghost use Rattle.detio_c.specs.Refused.{RefusesNext, RefusesReplay, RefusesStop};
ghost use Rattle.detio_c.specs.Refused.{RefusesWords};

use crate::handle::Handle;
use crate::place::{put, taken};
use crate::session::Session;
use c_words::{LibraryFault, OutcomeWords, RunEnd, RunWords};
use std::alloc::Global;

// The code of what was done.
const DONE: u32 = 0;

// Puts a session that was made there, or says why there is none.
fn begin(alloc: Global, h: &mut Handle, made: Result<Session, LibraryFault>) -> u32
    ensures faithful { result ≡ 0 → IsFaithfulIn h.new.value }
    ensures begun { result ≡ 0
        → MatchResult made (λ session. h.new.value ≡ Some session) (λ _. ⊥) }
    ensures refused { (result ≡ 0 → ⊥) → h.new.value ≡ h.old.value }
    ensures why { (result ≡ 0 → ⊥) → IsFor
        (λ f. MatchResult made (λ _. f ≡ fault.NoMemory) (λ e. f ≡ e)) result }
{
    match made {
        Ok(session) => match Box::new(alloc, session) {
            Ok(session) => {
                put(h, session);
                DONE
            }
            Err(_) => LibraryFault::NoMemory.code(),
        },
        Err(fault) => fault.code(),
    }
}

/// A new run, in place of what was there.
#[unsafe(no_mangle)]
pub extern "C" fn detio_new(alloc: Global, h: &mut Handle, settings: &RunWords) -> u32
    ensures faithful { result ≡ 0 → IsFaithfulIn h.new.value }
    ensures begun { result ≡ 0 → IsSomeAnd h.new.value
        (Begins (settings_said settings.now) settings.now.threads) }
    ensures sized { result ≡ 0 → 40 ≤ settings.now.size }
    ensures refused { (result ≡ 0 → ⊥) → h.new.value ≡ h.old.value }
    ensures why { (result ≡ 0 → ⊥)
        → IsFor (RefusesWords settings.now) result }
{
    begin(alloc, h, Session::new(alloc, settings))
}

/// A replay of this log, in place of what was there.
#[unsafe(no_mangle)]
pub extern "C" fn detio_open_log(alloc: Global, h: &mut Handle, log: &[u8]) -> u32
    ensures faithful { result ≡ 0 → IsFaithfulIn h.new.value }
    ensures begun { result ≡ 0 → IsSomeAnd h.new.value (BeginsReplay log.now) }
    ensures refused { (result ≡ 0 → ⊥) → h.new.value ≡ h.old.value }
    ensures why { (result ≡ 0 → ⊥) → IsFor (RefusesReplay log.now) result }
{
    begin(alloc, h, Session::replay(alloc, log))
}

/// What was there is gone.
#[unsafe(no_mangle)]
pub extern "C" fn detio_free(alloc: Global, h: &mut Handle)
    ensures { h.new.value ≡ None }
{
    *h = Handle::empty(alloc);
}

/// Of a replay, what its log has next for the thread.
#[unsafe(no_mangle)]
pub extern "C" fn detio_next(
    alloc: Global,
    h: &mut Handle,
    thread: usize,
    outcome: &mut OutcomeWords,
    buffer: &mut [u8],
) -> u32
    ensures faithful { IsFaithfulIn h.new.value }
    ensures next { result ≡ 0 → IsSomeAnd h.old.value (ReadsNext thread outcome.new buffer.new) }
    ensures unchanged { h.new.value ≡ h.old.value }
    ensures why { IsRefusal 0 result → IsForSession (RefusesNext thread (length buffer.old))
        result h.old.value }
{
    let Some(session) = taken(alloc, h) else {
        return LibraryFault::NoSession.code();
    };
    let mut session = session;
    let made = session.next(thread, buffer);
    put(h, session);
    match made {
        Ok(words) => {
            *outcome = words;
            DONE
        }
        Err(fault) => fault.code(),
    }
}

/// Of a replay, how many records of the thread did not come.
#[unsafe(no_mangle)]
pub extern "C" fn detio_unused(alloc: Global, h: &mut Handle, thread: usize, count: &mut u64) -> u32
    ensures faithful { IsFaithfulIn h.new.value }
    ensures count { result ≡ 0 → IsSomeAnd h.old.value (λ s. count.new ≡ unused_of s thread) }
    ensures unchanged { h.new.value ≡ h.old.value }
    ensures why { IsRefusal 0 result → IsForSession (RefusesCount thread) result h.old.value }
{
    let Some(session) = taken(alloc, h) else {
        return LibraryFault::NoSession.code();
    };
    let mut session = session;
    let made = session.unused(thread);
    put(h, session);
    match made {
        Ok(left) => {
            *count = left;
            DONE
        }
        Err(fault) => fault.code(),
    }
}

/// Stops the run: for 1 memory, 2 a clock, 3 the end of the log or 4 a divergence of this thread.
#[unsafe(no_mangle)]
pub extern "C" fn detio_stop(alloc: Global, h: &mut Handle, cause: u32, thread: usize) -> u32
    ensures faithful { IsFaithfulIn h.new.value }
    ensures done { result ≡ 0 → InBoth h.old.value h.new.value (HasStopped cause thread) }
    ensures refused { IsRefusal 0 result → h.new.value ≡ h.old.value }
    ensures why { IsRefusal 0 result
        → IsForSession (RefusesStop cause thread) result h.old.value }
{
    let Some(session) = taken(alloc, h) else {
        return LibraryFault::NoSession.code();
    };
    let mut session = session;
    let made = session.stop(cause, thread);
    put(h, session);
    match made {
        Ok(()) => DONE,
        Err(fault) => fault.code(),
    }
}

/// The run is over; its log is kept until the handle is freed.
#[unsafe(no_mangle)]
pub extern "C" fn detio_finish(alloc: Global, h: &mut Handle, ended: &mut RunEnd) -> u32
    ensures faithful { IsFaithfulIn h.new.value }
    ensures done { result ≡ 0 → InBoth h.old.value h.new.value (HasFinished ended.new) }
    ensures refused { IsRefusal 0 result → h.new.value ≡ h.old.value }
    ensures why { IsRefusal 0 result → IsForSession RefusesEnd result h.old.value }
{
    let Some(session) = taken(alloc, h) else {
        return LibraryFault::NoSession.code();
    };
    let mut session = session;
    let made = session.finish(alloc);
    put(h, session);
    match made {
        Ok(words) => {
            *ended = words;
            DONE
        }
        Err(fault) => fault.code(),
    }
}

/// Bytes of the log, which a run that goes on has so far, from this place on: how long the log is.
#[unsafe(no_mangle)]
pub extern "C" fn detio_log(
    alloc: Global,
    h: &mut Handle,
    from: usize,
    buffer: &mut [u8],
    whole: &mut usize,
) -> u32
    ensures faithful { IsFaithfulIn h.new.value }
    ensures log { result ≡ 0
        → IsSomeAnd h.old.value (ReadsLogOf from whole.new (length buffer.old) buffer.new) }
    ensures unchanged { h.new.value ≡ h.old.value }
    ensures why { IsRefusal 0 result → IsForSession RefusesLog result h.old.value }
{
    let Some(session) = taken(alloc, h) else {
        return LibraryFault::NoSession.code();
    };
    let mut session = session;
    let made = session.log(from, buffer);
    put(h, session);
    match made {
        Ok(count) => {
            *whole = count;
            DONE
        }
        Err(fault) => fault.code(),
    }
}
