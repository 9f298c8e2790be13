ghost use Rattle.std.specs.Prelude.{◌≡◌, IfOk};
ghost use Rattle.lock_machine.specs.Refusals.{is_end};
ghost use Rattle.recorder.specs.Seats.{kind_of};

use posix_terms::Step;
use std::alloc::AllocError;

// What kind of step was asked.
#[derive(Clone, Copy)]
pub enum StepKind {
    Work,
    Call,
    End,
}

pub fn kind(step: &Step) -> StepKind
    ensures { result ≡ kind_of step.now }
{
    match step {
        Step::Work(_) => StepKind::Work,
        Step::Call(_) => StepKind::Call,
        Step::End => StepKind::End,
    }
}

pub fn is_end(step: &Step) -> bool
    ensures { result ≡ is_end step.now }
{
    matches!(step, Step::End)
}

// A copy of the step.
pub fn copied(step: &Step) -> Result<Step, AllocError>
    ensures { IfOk result (λ copy. copy ≡ step.now) }
{
    Ok(match step {
        Step::Work(amount) => Step::Work(*amount),
        Step::Call(call) => Step::Call(call.try_clone()?),
        Step::End => Step::End,
    })
}
