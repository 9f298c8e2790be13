ghost use Rattle.std.specs.Prelude.{IfErr, IfOk};
ghost use Rattle.explorer.specs.Runs.{IsFault, IsRun};
ghost use Rattle.explorer.specs.Subject.{subject};
ghost use Rattle.fault_injection.specs.Replaced.{subject_in};

use crate::cases::FaultCase;
use crate::replaced::with_outcome;
use call_machine::Plain;
use explorer::{RunFault, Trial, run_texts};
use std::alloc::Global;

/// The plain run of the trial's scripts with the outcome of this case in its place. The outcomes
/// after it come so long as they answer what is asked. The errors are those of [`run_texts`].
pub fn run_fault(alloc: Global, trial: Trial<'_>, case: FaultCase) -> Result<Plain, RunFault>
    ensures ok { IfOk result (IsRun (subject_in case (subject trial.entry))) }
    ensures err { IfErr result (IsFault (subject_in case (subject trial.entry))) }
{
    let outcomes = with_outcome(alloc, trial.outcomes, case)?;
    run_texts(alloc, trial.texts, outcomes, trial.settings)
}
