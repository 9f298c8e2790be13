ghost use Rattle.std.specs.Prelude.{◌≡◌, ◌<◌, ◌≤◌, ◌↔◌, All, IfErr, IfOk, IfSome, IsTrue};
ghost use Rattle.std.specs.Prelude.{MatchOption, OnOk, false, true};
ghost use Rattle.std.specs.Bool.{OnTrue};
ghost use Rattle.explorer.specs.Subject.{subject};
ghost use Rattle.minimiser.specs.Failing.{FailsIn, IsFault, IsMinimal, IsRefused};
ghost use Rattle.minimiser.specs.Scopes.{AreAll, AreAllowed, AreRemovals, IsAllowed, Stands};
ghost use Rattle.minimiser.specs.Reductions.{after_all, is_kept, without};
ghost use Rattle.minimiser.specs.Rounds.{delays_of, size_of};

use crate::delays::delays;
use crate::fault::MinimiseFault;
use crate::finding::find_target_kept;
use crate::reduction::Reduction;
use crate::scope::Scope;
use crate::step::Removal;
use crate::target::Target;
use crate::watching::WatchesMinimising;
use call_machine::SpareStore;
use explorer::Trial;
use std::alloc::{AllocError, Global};

// What runs have in common: the store that each leaves to the next, and who hears of them.
#[derive(Drop)]
struct Runs<'a, P: WatchesMinimising> {
    spare: SpareStore,
    watch: &'a mut P,
}

/// Takes lines and threads away from scripts, or delays alone, as long as they fail the same in
/// their plain run. Threads, delays and lines go first in blocks, each of half of them, then of a
/// quarter, and so on, and each delay that is left is made shorter; then one at a time, until none
/// is left to take and no delay is left that may be halved. What is kept is minimal by the
/// contract: it fails the same, and no longer without any one of what may be taken. `watch` hears of
/// each run, and of what is kept. The error is [`MinimiseFault::NotFailing`] where the scripts do not
/// fail so to begin with.
pub fn minimised<P: WatchesMinimising>(
    alloc: Global,
    trial: Trial<'_>,
    target: &Target,
    scope: Scope,
    watch: &mut P,
) -> Result<Reduction, MinimiseFault>
    ensures ok { IfOk result (IsMinimal scope (subject trial.entry) target.now) }
    ensures err { IfErr result (IsFault (subject trial.entry) target.now) }
{
    let mut kept = Reduction::all(alloc, trial.texts)?;
    let mut runs = Runs {
        spare: SpareStore::new(),
        watch,
    };
    let failing = fails(alloc, trial, target, &kept, &mut runs)?;
    if !failing {
        return Err(MinimiseFault::NotFailing);
    }
    runs.watch.kept(kept.line_count());
    let delays = delays(alloc, trial.texts)?;
    take_first(alloc, trial, target, scope, &mut kept, &delays, &mut runs)?;
    loop {
        let steps = steps_of(alloc, trial, scope, &kept, &delays)?;
        let taken = take(alloc, trial, target, scope, &mut kept, &steps, &mut runs)?;
        if !taken {
            return Ok(kept);
        }
    }
}

// Takes what goes in blocks, and makes what delays are left as short as they can be.
fn take_first<P: WatchesMinimising>(
    alloc: Global,
    trial: Trial<'_>,
    target: &Target,
    scope: Scope,
    kept: &mut Reduction,
    delays: &[Removal],
    runs: &mut Runs<'_, P>,
) -> Result<(), AllocError>
    requires fails { FailsIn (subject trial) target.now kept.old }
    requires stands { Stands scope (subject trial).texts kept.old }
    requires delays { delays.now ≡ delays_of 0 (subject trial).texts }
    ensures fails { OnOk result (FailsIn (subject trial.entry) target.now kept.new) }
    ensures stands { OnOk result (Stands scope (subject trial.entry).texts kept.new) }
{
    take_in_blocks(alloc, trial, target, scope, kept, delays, runs)?;
    shorten_all(alloc, trial, target, scope, kept, delays, runs)
}

// Takes what goes in blocks: threads, delays, then lines.
fn take_in_blocks<P: WatchesMinimising>(
    alloc: Global,
    trial: Trial<'_>,
    target: &Target,
    scope: Scope,
    kept: &mut Reduction,
    delays: &[Removal],
    runs: &mut Runs<'_, P>,
) -> Result<(), AllocError>
    requires fails { FailsIn (subject trial) target.now kept.old }
    requires stands { Stands scope (subject trial).texts kept.old }
    requires delays { delays.now ≡ delays_of 0 (subject trial).texts }
    ensures fails { OnOk result (FailsIn (subject trial.entry) target.now kept.new) }
    ensures stands { OnOk result (Stands scope (subject trial.entry).texts kept.new) }
{
    match scope {
        Scope::Everything => {
            let threads = kept.thread_steps(alloc)?;
            take_blocks(alloc, trial, target, scope, kept, &threads, runs)?;
            take_blocks(alloc, trial, target, scope, kept, delays, runs)?;
            let lines = kept.line_steps(alloc)?;
            take_blocks(alloc, trial, target, scope, kept, &lines, runs)
        }
        Scope::Schedule => take_blocks(alloc, trial, target, scope, kept, delays, runs),
    }
}

// Makes each of these delays that is kept as short as it can be.
fn shorten_all<P: WatchesMinimising>(
    alloc: Global,
    trial: Trial<'_>,
    target: &Target,
    scope: Scope,
    kept: &mut Reduction,
    delays: &[Removal],
    runs: &mut Runs<'_, P>,
) -> Result<(), AllocError>
    requires fails { FailsIn (subject trial) target.now kept.old }
    requires stands { Stands scope (subject trial).texts kept.old }
    requires allowed { AreAllowed scope (subject trial).texts delays.now }
    ensures fails { OnOk result (FailsIn (subject trial.entry) target.now kept.new) }
    ensures stands { OnOk result (Stands scope (subject trial.entry).texts kept.new) }
{
    for delay in delays {
        shorten(alloc, trial, target, scope, kept, *delay, runs)?;
    }
    Ok(())
}

// Makes a delay that is kept as short as it can be, by halving of what it may be.
fn shorten<P: WatchesMinimising>(
    alloc: Global,
    trial: Trial<'_>,
    target: &Target,
    scope: Scope,
    kept: &mut Reduction,
    delay: Removal,
    runs: &mut Runs<'_, P>,
) -> Result<(), AllocError>
    requires fails { FailsIn (subject trial) target.now kept.old }
    requires stands { Stands scope (subject trial).texts kept.old }
    requires allowed { IsAllowed scope (subject trial).texts delay }
    ensures fails { OnOk result (FailsIn (subject trial.entry) target.now kept.new) }
    ensures stands { OnOk result (Stands scope (subject trial.entry).texts kept.new) }
{
    let Removal::Line { thread, line } = delay else {
        return Ok(());
    };
    let mut low = 0;
    let mut high = kept.units(delay).unwrap_or(0);
    while low < high {
        let units = low + (high - low) / 2;
        let step = Removal::Shorten {
            thread,
            line,
            units,
        };
        if is_taken(alloc, trial, target, scope, kept, step, runs)? {
            high = units;
        } else {
            low = units + 1;
        }
    }
    Ok(())
}

// Takes a step, if the failure is the same after it, and returns whether it was taken.
fn is_taken<P: WatchesMinimising>(
    alloc: Global,
    trial: Trial<'_>,
    target: &Target,
    scope: Scope,
    kept: &mut Reduction,
    step: Removal,
    runs: &mut Runs<'_, P>,
) -> Result<bool, AllocError>
    requires fails { FailsIn (subject trial) target.now kept.old }
    requires stands { Stands scope (subject trial).texts kept.old }
    requires allowed { IsAllowed scope (subject trial).texts step }
    ensures fails { OnOk result (FailsIn (subject trial.entry) target.now kept.new) }
    ensures stands { OnOk result (Stands scope (subject trial.entry).texts kept.new) }
{
    match after(alloc, trial, target, kept, step, runs)? {
        Some(rest) => {
            *kept = rest;
            Ok(true)
        }
        None => Ok(false),
    }
}

// The steps that may be taken, in the order in which they are tried: what is taken away, then what
// leaves half of a delay.
fn steps_of(
    alloc: Global,
    trial: Trial<'_>,
    scope: Scope,
    kept: &Reduction,
    delays: &[Removal],
) -> Result<Vec<Removal>, AllocError>
    requires { delays.now ≡ delays_of 0 (subject trial).texts }
    ensures allowed { IfOk result (λ steps.
        AreAllowed scope (subject trial.entry).texts steps.items) }
    ensures all { IfOk result (λ steps.
        AreAll scope (subject trial.entry).texts kept.now steps.items) }
{
    let mut steps = removals_of(alloc, trial, scope, kept, delays)?;
    let halves = kept.halves(alloc, delays)?;
    steps.extend_from_slice(&halves)?;
    Ok(steps)
}

// The steps that may take away a line or a thread.
fn removals_of(
    alloc: Global,
    trial: Trial<'_>,
    scope: Scope,
    kept: &Reduction,
    delays: &[Removal],
) -> Result<Vec<Removal>, AllocError>
    requires { delays.now ≡ delays_of 0 (subject trial).texts }
    ensures allowed { IfOk result (λ steps.
        AreAllowed scope (subject trial.entry).texts steps.items) }
    ensures all { IfOk result (λ steps.
        AreRemovals scope (subject trial.entry).texts kept.now steps.items) }
{
    match scope {
        Scope::Everything => kept.steps(alloc),
        Scope::Schedule => {
            let steps = Vec::from_slice(alloc, delays)?;
            Ok(steps)
        }
    }
}

// Takes blocks of these steps, each if the failure is the same after it: halves of them, then
// quarters, and so on.
fn take_blocks<P: WatchesMinimising>(
    alloc: Global,
    trial: Trial<'_>,
    target: &Target,
    scope: Scope,
    kept: &mut Reduction,
    steps: &[Removal],
    runs: &mut Runs<'_, P>,
) -> Result<(), AllocError>
    requires fails { FailsIn (subject trial) target.now kept.old }
    requires stands { Stands scope (subject trial).texts kept.old }
    requires allowed { AreAllowed scope (subject trial).texts steps.now }
    ensures fails { OnOk result (FailsIn (subject trial.entry) target.now kept.new) }
    ensures stands { OnOk result (Stands scope (subject trial.entry).texts kept.new) }
{
    let mut size = steps.len();
    while size > 1 {
        size -= size / 2;
        take_blocks_of(alloc, trial, target, scope, kept, steps, size, runs)?;
    }
    Ok(())
}

// Takes blocks of so many of these steps, one after another.
fn take_blocks_of<P: WatchesMinimising>(
    alloc: Global,
    trial: Trial<'_>,
    target: &Target,
    scope: Scope,
    kept: &mut Reduction,
    steps: &[Removal],
    size: usize,
    runs: &mut Runs<'_, P>,
) -> Result<(), AllocError>
    requires some { 0 < size }
    requires fails { FailsIn (subject trial) target.now kept.old }
    requires stands { Stands scope (subject trial).texts kept.old }
    requires allowed { AreAllowed scope (subject trial).texts steps.now }
    ensures fails { OnOk result (FailsIn (subject trial.entry) target.now kept.new) }
    ensures stands { OnOk result (Stands scope (subject trial.entry).texts kept.new) }
{
    let mut from = 0;
    while from < steps.len() {
        let end = from + size.min(steps.len() - from);
        let rest = after_block(alloc, trial, target, kept, &steps[from..end], runs)?;
        if let Some(rest) = rest {
            *kept = rest;
        }
        from = end;
    }
    Ok(())
}

// What is kept after these steps together, if they take something away and the failure is the same
// after them.
fn after_block<P: WatchesMinimising>(
    alloc: Global,
    trial: Trial<'_>,
    target: &Target,
    kept: &Reduction,
    block: &[Removal],
    runs: &mut Runs<'_, P>,
) -> Result<Option<Reduction>, AllocError>
    ensures { IfOk result (λ rest. IfSome rest (λ rest.
        (rest ≡ after_all kept.now block.now)
        × FailsIn (subject trial.entry) target.now rest)) }
{
    if !block.iter().any(|step| kept.has(*step)) {
        return Ok(None);
    }
    let less = kept.after_all(alloc, block)?;
    if !fails(alloc, trial, target, &less, runs)? {
        return Ok(None);
    }
    runs.watch.kept(less.line_count());
    Ok(Some(less))
}

// Takes these steps, each if the failure is the same after it, and returns whether one was taken.
fn take<P: WatchesMinimising>(
    alloc: Global,
    trial: Trial<'_>,
    target: &Target,
    scope: Scope,
    kept: &mut Reduction,
    steps: &[Removal],
    runs: &mut Runs<'_, P>,
) -> Result<bool, AllocError>
    requires fails { FailsIn (subject trial) target.now kept.old }
    requires stands { Stands scope (subject trial).texts kept.old }
    requires allowed { AreAllowed scope (subject trial).texts steps.now }
    ensures fails { OnOk result (FailsIn (subject trial.entry) target.now kept.new) }
    ensures stands { OnOk result (Stands scope (subject trial.entry).texts kept.new) }
    ensures some { IfOk result (λ taken. OnTrue taken (size_of kept.new < size_of kept.old)) }
    ensures none { IfOk result (λ taken. taken ≡ false
        → (kept.new ≡ kept.old)
        × All (IsRefused (subject trial.entry) target.now kept.old) steps.now) }
{
    let mut taken = false;
    for step in steps {
        let rest = after(alloc, trial, target, kept, *step, runs)?;
        if let Some(rest) = rest {
            *kept = rest;
            taken = true;
        }
    }
    Ok(taken)
}

// What is kept after a step, if that takes something away and the failure is the same after it.
fn after<P: WatchesMinimising>(
    alloc: Global,
    trial: Trial<'_>,
    target: &Target,
    kept: &Reduction,
    step: Removal,
    runs: &mut Runs<'_, P>,
) -> Result<Option<Reduction>, AllocError>
    ensures { IfOk result (λ rest.
        MatchOption rest
        (IsRefused (subject trial.entry) target.now kept.now step)
        (λ rest. (is_kept kept.now step ≡ true) × (rest ≡ without kept.now step)
        × FailsIn (subject trial.entry) target.now rest)) }
{
    if !kept.has(step) {
        return Ok(None);
    }
    let rest = kept.without(alloc, step)?;
    if !fails(alloc, trial, target, &rest, runs)? {
        return Ok(None);
    }
    runs.watch.kept(rest.line_count());
    Ok(Some(rest))
}

// Whether the failure is the same in the run of what is kept.
fn fails<P: WatchesMinimising>(
    alloc: Global,
    trial: Trial<'_>,
    target: &Target,
    kept: &Reduction,
    runs: &mut Runs<'_, P>,
) -> Result<bool, AllocError>
    ensures { IfOk result (λ fails.
        IsTrue fails ↔ FailsIn (subject trial.entry) target.now kept.now) }
{
    let Some(place) = kept.place(target.place) else {
        return Ok(false);
    };
    let texts = kept.texts(alloc, trial.texts)?;
    let outcomes = kept.outcomes(alloc, trial.outcomes)?;
    let rest = Trial {
        texts: &texts,
        outcomes: &outcomes,
        settings: trial.settings,
    };
    runs.watch.ran();
    match find_target_kept(alloc, &mut runs.spare, rest, target.came.sameness())? {
        Some(found) => Ok(found.is(place, &target.came)),
        None => Ok(false),
    }
}
