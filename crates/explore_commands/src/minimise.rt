ghost use Rattle.std.specs.Prelude.{◌≡◌, ◌++◌, IfOk, OnOk, map, option_map};
ghost use Rattle.explorer.specs.Subject.{subject};
ghost use Rattle.explore_commands.specs.Minimises.{IsReduced, IsUnwritten, Minimises};
ghost use Rattle.explore_commands.specs.Minimises.{NothingMinimises, SubjectMinimises};
ghost use Rattle.explore_commands.specs.Minimises.{TargetMinimises, not_failing, taken_line};
ghost use Rattle.explore_commands.specs.Minimises.{taken_of};

use crate::explore::fault_printed;
use crate::trying::{ToTry, to_try};
use crate::writing::{ScriptsToWrite, run_written};
use command_texts::{Printed, Source, TextReader, fault, push_number, push_word};
use explorer::Trial;
use minimiser::{
    Amounts, Reduction, Sameness, Scope, Target, WatchesMinimising, find_target, measure, minimised,
};
use posix_terms::{Bytes, Settings};
use std::alloc::{AllocError, Global};

/// How scripts are minimised.
#[derive(Clone, Copy, Debug, PartialEq, Eq)]
pub struct MinimiseOptions {
    /// What may be taken away.
    pub scope: Scope,
    /// Which failures are the same.
    pub sameness: Sameness,
}

/// What `detio minimise` writes, and what it prints after the paths of that.
#[derive(Drop)]
pub struct MinimisedScripts {
    pub to_write: ScriptsToWrite,
    /// The last line, which says how much was taken away. There is none where nothing is.
    pub taken: Bytes,
}

/// What `detio minimise` writes of scripts whose replies are not all as their texts expect: what is
/// left of the texts once lines and threads were taken away and delays made shorter, as long as the
/// same expectation fails, and the log of that run; or what is printed where all replies are as
/// expected, or for the first fault. `watch` hears of each run. What comes from outside is as for
/// [`explore_over`](crate::explore_over). An error means out of memory.
pub fn to_minimise<R: TextReader + Drop, P: WatchesMinimising>(
    alloc: Global,
    settings: Settings,
    options: MinimiseOptions,
    log: Option<Source<'_, R>>,
    sources: Vec<Source<'_, R>>,
    watch: &mut P,
) -> Result<MinimisedScripts, AllocError>
    ensures { IfOk result (
        Minimises settings options
        (option_map (λ s. (s.path.now, R.remaining s.reader)) log.entry)
        (map (λ s. (s.path.now, R.remaining s.reader)) sources.entry.items)) }
{
    match to_try(alloc, settings, log, sources)? {
        ToTry::Texts(texts, outcomes, settings) => {
            let trial = Trial {
                texts: &texts,
                outcomes: &outcomes,
                settings,
            };
            trial_minimised(alloc, trial, options, watch)
        }
        ToTry::Fault(printed) => Ok(unwritten(alloc, printed)),
    }
}

// What is written of a trial.
fn trial_minimised<P: WatchesMinimising>(
    alloc: Global,
    trial: Trial<'_>,
    options: MinimiseOptions,
    watch: &mut P,
) -> Result<MinimisedScripts, AllocError>
    ensures { IfOk result (SubjectMinimises options (subject trial.entry)) }
{
    let Some(target) = find_target(alloc, trial, options.sameness)? else {
        return nothing_minimised(alloc, trial);
    };
    target_minimised(alloc, trial, &target, options.scope, watch)
}

// What is written of a trial that fails so.
fn target_minimised<P: WatchesMinimising>(
    alloc: Global,
    trial: Trial<'_>,
    target: &Target,
    scope: Scope,
    watch: &mut P,
) -> Result<MinimisedScripts, AllocError>
    ensures { IfOk result (TargetMinimises scope (subject trial.entry) target.now) }
{
    let kept = minimised(alloc, trial, target, scope, watch);
    watch.ended();
    match kept {
        Ok(kept) => kept_written(alloc, trial, &kept),
        // The scripts fail so: what is refused is memory.
        Err(_) => Err(AllocError),
    }
}

// What is written of what is kept.
fn kept_written(
    alloc: Global,
    trial: Trial<'_>,
    kept: &Reduction,
) -> Result<MinimisedScripts, AllocError>
    ensures { IfOk result (IsReduced (subject trial.entry) kept.now) }
{
    let texts = kept.texts(alloc, trial.texts)?;
    let outcomes = kept.outcomes(alloc, trial.outcomes)?;
    let taken = taken_line(alloc, measure(alloc, trial.texts)?, measure(alloc, &texts)?)?;
    let to_write = run_written(alloc, texts, &outcomes, trial.settings)?;
    Ok(MinimisedScripts { to_write, taken })
}

// The line that says how much was taken away of what was given, where so much is left.
fn taken_line(alloc: Global, given: Amounts, left: Amounts) -> Result<Bytes, AllocError>
    ensures { IfOk result (λ line. line ≡ taken_line given left) }
{
    let mut line = Vec::new(alloc);
    push_word(&mut line, "taken away")?;
    push_taken(
        &mut line,
        " threads ",
        given.threads as u64,
        left.threads as u64,
    )?;
    push_taken(&mut line, " lines ", given.lines as u64, left.lines as u64)?;
    push_taken(
        &mut line,
        " delays ",
        given.delays as u64,
        left.delays as u64,
    )?;
    push_taken(&mut line, " units ", given.units, left.units)?;
    push_word(&mut line, "\n")?;
    Ok(Bytes::from_vec(line))
}

// Adds how many of this kind were taken away, and of how many.
fn push_taken(line: &mut Vec<u8>, kind: &str, given: u64, left: u64) -> Result<(), AllocError>
    ensures { OnOk result (line.new.items ≡ line.old.items ++ taken_of kind.now given left) }
{
    push_word(line, kind)?;
    push_number(line, given.saturating_sub(left))?;
    push_word(line, " of ")?;
    push_number(line, given)
}

// Nothing is written, and this is printed.
fn unwritten(alloc: Global, printed: Printed) -> MinimisedScripts
    ensures { IsUnwritten printed result }
{
    MinimisedScripts {
        to_write: ScriptsToWrite::Fault(printed),
        taken: Bytes::from_vec(Vec::new(alloc)),
    }
}

// What is printed for a trial that does not fail.
fn nothing_minimised(alloc: Global, trial: Trial<'_>) -> Result<MinimisedScripts, AllocError>
    ensures { IfOk result (NothingMinimises (subject trial.entry)) }
{
    match trial.run(alloc) {
        Ok(_) => Ok(unwritten(alloc, not_failing(alloc)?)),
        Err(fault) => Ok(unwritten(alloc, fault_printed(alloc, fault)?)),
    }
}

fn not_failing(alloc: Global) -> Result<Printed, AllocError>
    ensures { IfOk result (λ printed. printed ≡ not_failing) }
{
    fault(
        alloc,
        3,
        "every reply is as expected: there is nothing to minimise\n",
    )
}
