ghost use Rattle.std.specs.Prelude.{◌≡◌, IfErr, IfOk};
ghost use Rattle.explorer.specs.Runs.{IsFault, IsRun};

use crate::copies::outcomes_copied;
use crate::fault::RunFault;
use call_machine::{Plain, SpareStore, plain_run_kept};
use command_texts::scripts;
use posix_terms::{Bytes, Outcomes, Settings};
use std::alloc::Global;

// The plain run of the scripts that these texts are, with a copy of these outcomes.
pub(crate) fn run_copied(
    alloc: Global,
    spare: &mut SpareStore,
    texts: &[Bytes],
    outcomes: &[Outcomes],
    settings: Settings,
) -> Result<Plain, RunFault>
    ensures ok { IfOk result (IsRun (
        record { texts = texts.now; outcomes = outcomes.now; settings = settings })) }
    ensures err { IfErr result (IsFault (
        record { texts = texts.now; outcomes = outcomes.now; settings = settings })) }
{
    let copied = outcomes_copied(alloc, outcomes)?;
    run_texts_kept(alloc, spare, texts, copied, settings)
}

/// The plain run of the scripts that these texts are, with these outcomes. Of its errors
/// [`RunFault::BadLine`] or [`RunFault::TooLong`] comes for the first text that is not a script,
/// then [`RunFault::Threads`], then [`RunFault::Settings`]; [`RunFault::Memory`] can come at any
/// time.
pub fn run_texts(
    alloc: Global,
    texts: &[Bytes],
    outcomes: Vec<Outcomes>,
    settings: Settings,
) -> Result<Plain, RunFault>
    ensures ok { IfOk result (IsRun (
        record { texts = texts.now; outcomes = outcomes.items; settings = settings })) }
    ensures err { IfErr result (IsFault (
        record { texts = texts.now; outcomes = outcomes.items; settings = settings })) }
{
    run_texts_kept(alloc, &mut SpareStore::new(), texts, outcomes, settings)
}

// The same, over the store that an earlier run left in `spare`, where there is one; it leaves it there
// for the next.
#[tactic(auto, using(crate::proofs::Grouping::not_run))]
pub(crate) fn run_texts_kept(
    alloc: Global,
    spare: &mut SpareStore,
    texts: &[Bytes],
    outcomes: Vec<Outcomes>,
    settings: Settings,
) -> Result<Plain, RunFault>
    ensures ok { IfOk result (IsRun (
        record { texts = texts.now; outcomes = outcomes.items; settings = settings })) }
    ensures err { IfErr result (IsFault (
        record { texts = texts.now; outcomes = outcomes.items; settings = settings })) }
{
    let scripts = scripts(alloc, texts)?;
    Ok(plain_run_kept(alloc, spare, scripts, outcomes, settings)?)
}
