ghost use Rattle.std.specs.Prelude.{◌≡◌, ◌⊎◌, ◌+◌, ◌<◌, ◌^◌, ℕ, IfErr, IfOk, OnOk, length};
ghost use Rattle.std.specs.Prelude.{slice_index_or};
ghost use Rattle.explorer.specs.Groups.{runs_of};
ghost use Rattle.explorer.specs.Joining.{AllJoin, CaseGives, HasFault};
ghost use Rattle.explorer.specs.declared.fault.RunFault.TheVariants as fault;

use crate::delays::Delays;
use crate::fault::RunFault;
use crate::groups::Groups;
use crate::observation::Observation;
use crate::read_trial::ReadTrial;
use crate::workers::Workers;
use call_machine::SpareStore;
use std::alloc::{AllocError, Global};
use std::thread::{Threads, for_each_chunk_mut};

// Has what the runs of cases gave join the groups, one after the other; the first case has this
// number. A run that was not made is the fault.
pub(crate) fn join_all(
    groups: &mut Groups,
    first: u64,
    seen: Vec<Result<Observation, RunFault>>,
) -> Result<(), RunFault>
    requires runs { runs_of groups.old + length seen.items < 2 ^ 64 }
    requires cases { first + length seen.items < 2 ^ 64 }
    ensures ok { OnOk result (AllJoin first seen.items groups.old groups.new) }
    ensures err { IfErr result (λ why. (why ≡ fault.Memory) ⊎ HasFault seen.items why) }
{
    let mut case = first;
    for one in seen {
        groups.join(case, one?)?;
        case += 1;
    }
    Ok(())
}

// What so many cases give, from this one on, in at most so many threads. One thread alone runs them over the spare
// store; of several each makes a store for its part of them.
pub(crate) fn observe_cases<T: Threads + Sync, D: Delays + Sync>(
    workers: &Workers<'_, T>,
    alloc: Global,
    spare: &mut SpareStore,
    trial: &ReadTrial<'_>,
    delays: &D,
    first: u64,
    count: usize,
) -> Result<Vec<Result<Observation, RunFault>>, AllocError>
    requires { first + count < 2 ^ 64 }
    ensures len { IfOk result (λ seen. length seen.items ≡ count) }
    ensures each { IfOk result (λ seen. (i : ℕ) (d : _) → i < count
        → CaseGives trial.now (D.delays_of delays.now) (first + i)
        (slice_index_or seen.items i d)) }
{
    let mut seen = places(alloc, count)?;
    if workers.jobs <= 1 {
        observe_in_turn(alloc, spare, trial, delays, first, seen.as_mut_slice());
        return Ok(seen);
    }
    let size = count.div_ceil(workers.jobs).max(1);
    for_each_chunk_mut(
        workers.threads,
        seen.as_mut_slice(),
        size,
        &|start: usize, part: &mut [Result<Observation, RunFault>]|
            requires { first + start + length part.old < 2 ^ 64 }
            ensures { (k : ℕ) (d : _) → k < length part.old
                → CaseGives trial.entry.now (D.delays_of delays.entry.now) (first + start + k)
                (slice_index_or part.new k d) }
        {
            observe_apart(alloc, trial, delays, first + start as u64, part);
        },
    );
    Ok(seen)
}

// What the cases from this one on give, as many as there are places for it, over a store of their own.
fn observe_apart<D: Delays>(
    alloc: Global,
    trial: &ReadTrial<'_>,
    delays: &D,
    first: u64,
    seen: &mut [Result<Observation, RunFault>],
)
    requires { first + length seen.old < 2 ^ 64 }
    ensures len { length seen.new ≡ length seen.old }
    ensures each { (i : ℕ) (d : _) → i < length seen.old
        → CaseGives trial.now (D.delays_of delays.now) (first + i)
        (slice_index_or seen.new i d) }
{
    observe_in_turn(alloc, &mut SpareStore::new(), trial, delays, first, seen);
}

// What the cases from this one on give, as many as there are places for it, one after the other over the spare store.
fn observe_in_turn<D: Delays>(
    alloc: Global,
    spare: &mut SpareStore,
    trial: &ReadTrial<'_>,
    delays: &D,
    first: u64,
    seen: &mut [Result<Observation, RunFault>],
)
    requires { first + length seen.old < 2 ^ 64 }
    ensures len { length seen.new ≡ length seen.old }
    ensures each { (i : ℕ) (d : _) → i < length seen.old
        → CaseGives trial.now (D.delays_of delays.now) (first + i)
        (slice_index_or seen.new i d) }
{
    for i in 0..seen.len() {
        seen[i] = trial.observe_case(alloc, spare, delays, first + i as u64);
    }
}

// A place for what each of so many cases gives.
fn places(alloc: Global, count: usize) -> Result<Vec<Result<Observation, RunFault>>, AllocError>
    ensures { IfOk result (λ places. length places.items ≡ count) }
{
    let mut places = Vec::with_capacity(alloc, count)?;
    for _ in 0..count {
        places.push(Err(RunFault::Memory))?;
    }
    Ok(places)
}
