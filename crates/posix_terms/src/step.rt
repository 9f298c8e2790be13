use crate::call::Call;

/// What a thread does next.
#[derive(Debug, PartialEq, Eq, Drop)]
pub enum Step {
    /// It works on its own for so many units of its clock.
    Work(u64),
    Call(Call),
    End,
}
