ghost use Rattle.std.specs.Prelude.{◌≡◌, ℕ, Bool, true};
ghost use Rattle.std.specs.Bool.{OnTrue};

/// What a call has to pass before it gets its outcome.
pub trait Gate {
    /// Which answer there may be for a thread and the number of its outcome: how the gate stood before, and
    /// how it stands after.
    ghost may_answer: { Self → ℕ → ℕ → Bool → Self → Type 0 };

    /// Whether the call that is to get this outcome may go on. It may wait. A gate that lets a call go on
    /// shows what it showed before. It is handed no runtime, since an outside that never waits would need
    /// one too: a gate that sleeps has a clock of its own, and needs no leave to wait.
    fn enter(&mut self, thread: usize, number: u64) -> bool
        ensures answer { may_answer self.old thread number result self.new }
        ensures passed { OnTrue result (self.new ≡ self.old) };
}

/// The gate that lets every call go on.
#[derive(Clone, Copy, Debug, PartialEq, Eq, Hash)]
pub struct NoGate;

impl Gate for NoGate {
    ghost may_answer = { λ _ _ _ answer _. answer ≡ true };

    fn enter(&mut self, _thread: usize, _number: u64) -> bool {
        true
    }
}
