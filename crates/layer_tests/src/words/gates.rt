ghost use Rattle.std.specs.Prelude.{◌≡◌, ◌<◌, IfOk};

use crate::words::doors::{WantedOutcome, is_so, plain, success};
use host_doors::{DoorStop, OutcomePlace, Outside, PairGate, ScriptDoor, ScriptDoors};
use posix_terms::{Errno, Given, OutKind, Outcome, Outcomes};
use std::alloc::{AllocError, Global};
use std::io;
use std::sync::Arc;
use std::sync::atomic::{AtomicU64, Ordering};
use std::test::Fail;
use std::thread::{Threads, join, sleep};
use std::time::{Clock, Duration};

/// The outcome of each of two threads that their gates hold.
const FIRST: OutcomePlace = OutcomePlace {
    thread: 0,
    number: 2,
};

const SECOND: OutcomePlace = OutcomePlace {
    thread: 1,
    number: 0,
};

/// Adds a success.
fn add(
    list: &mut Vec<Given>,
    alloc: Global,
    kind: OutKind,
    value: u64,
    bytes: &[u8],
) -> Result<(), AllocError> {
    let outcome = success(alloc, value, bytes)?;
    list.push(Given {
        kind,
        clock: None,
        outcome,
    })?;
    Ok(())
}

/// So many openings, and then a read of this byte.
fn openings_and_a_read(alloc: Global, openings: u64, byte: &[u8]) -> Result<Outcomes, AllocError> {
    let mut list = Vec::new(alloc);
    for _ in 0..openings {
        add(&mut list, alloc, OutKind::Open, 0, b"")?;
    }
    add(&mut list, alloc, OutKind::Read, 1, byte)?;
    Ok(Outcomes::from_vec(list))
}

/// The two threads' outsides.
type Pair<C> = (ScriptDoors<PairGate<C>>, ScriptDoors<PairGate<C>>);

fn pair<C: Clock + Clone + Drop>(alloc: Global, clock: C) -> Result<Pair<C>, AllocError>
    ensures first { IfOk result (λ pair. pair.0.counts ≡ record { given = 0; failures = 0 }) }
    ensures second { IfOk result (λ pair. pair.1.counts ≡ record { given = 0; failures = 0 }) }
{
    let (first, second) = PairGate::new(alloc, clock, FIRST, SECOND)?;
    let first = ScriptDoors::new(openings_and_a_read(alloc, 2, b"A")?, first);
    let second = ScriptDoors::new(openings_and_a_read(alloc, 0, b"B")?, second);
    Ok((first, second))
}

/// What comes of a read at a place.
fn read<C: Clock>(
    doors: &mut ScriptDoors<PairGate<C>>,
    place: OutcomePlace,
) -> Result<Outcome, DoorStop>
    requires room { doors.old.counts.given < 1000 }
    requires few { doors.old.counts.failures < 1000 }
{
    doors.read(
        place.thread,
        place.number,
        &plain(OutKind::Read, 1),
        &mut ScriptDoor,
        true,
    )
}

/// Two threads that meet: who has come, a bit each.
type Arrivals = AtomicU64;

/// Whether a thread that comes after so many milliseconds reads this, and only once the other has come.
fn meets(
    clock: HostRuntime,
    mut doors: ScriptDoors<PairGate<HostRuntime>>,
    place: OutcomePlace,
    delay: u64,
    come: &Arrivals,
    wanted: &WantedOutcome,
) -> bool
    requires room { doors.counts.given < 1000 }
    requires few { doors.counts.failures < 1000 }
{
    sleep(&clock, Duration::from_millis(delay));
    come.fetch_add(1, Ordering::SeqCst);
    let came = read(&mut doors, place);
    is_so(&came, wanted) && come.load(Ordering::SeqCst) == 2
}

const A: WantedOutcome = WantedOutcome::Success(1, b"A");

const B: WantedOutcome = WantedOutcome::Success(1, b"B");

/// Whether two threads meet where each comes after so many milliseconds.
fn meet_after(
    rt: &impl Threads,
    clock: HostRuntime,
    first: u64,
    second: u64,
) -> Result<bool, AllocError> {
    let (here, there) = pair(clock.alloc(), clock)?;
    let come = Arrivals::new(0);
    let (near, far) = join(
        rt,
        || meets(clock, here, FIRST, first, &come, &A),
        || meets(clock, there, SECOND, second, &come, &B),
    );
    Ok(near && far)
}

#[test]
fn each_call_of_a_pair_waits_for_the_other(rt: HostRuntime) -> Result<(), Fail> {
    assert!(rt; meet_after(&rt, rt, 0, 30)?);
    assert!(rt; meet_after(&rt, rt, 30, 0)?);
    Ok(())
}

/// A clock that never sleeps, and counts how often it was asked to.
#[derive(Drop)]
struct Hurried {
    sleeps: Arc<AtomicU64, Global>,
}

impl Clone for Hurried {
    fn clone(&self) -> Result<Hurried, AllocError> {
        Ok(Hurried {
            sleeps: Arc::try_clone(&self.sleeps)?,
        })
    }
}

impl Clock for Hurried {
    fn monotonic(&self) -> io::Result<Duration> {
        Ok(Duration::ZERO)
    }

    fn since_1970(&self) -> io::Result<Duration> {
        Ok(Duration::ZERO)
    }

    fn sleep(&self, duration: Duration) {
        if duration == Duration::from_millis(1) {
            self.sleeps.fetch_add(1, Ordering::SeqCst);
        }
    }
}

/// What comes of two reads of the first thread, whose other never comes, and how often it slept.
fn alone(alloc: Global) -> Result<(Result<Outcome, DoorStop>, u64), Fail> {
    let sleeps = Arc::new(alloc, AtomicU64::new(0))?;
    let clock = Hurried {
        sleeps: Arc::try_clone(&sleeps)?,
    };
    let (mut doors, _other) = pair(alloc, clock)?;
    let came = read(&mut doors, FIRST);
    Ok((came, sleeps.load(Ordering::SeqCst)))
}

const LATE: WantedOutcome = WantedOutcome::Failure(Errno::ETIMEDOUT);

#[test]
fn a_call_that_nobody_meets_times_out(rt: HostRuntime) -> Result<(), Fail> {
    let (came, sleeps) = alone(rt.alloc())?;
    assert!(rt; is_so(&came, &LATE));
    assert_eq!(rt; sleeps, 10_000);
    Ok(())
}
