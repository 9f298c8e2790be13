ghost use Rattle.std.specs.Prelude.{◌≡◌, ℕ, Option};

/// Cases of delays before the calls of threads, by number.
pub trait Delays {
    /// The delay of a case, a thread and the line of a call, in units of the thread's clock.
    ghost delays_of: { Self → ℕ → ℕ → ℕ → Option ℕ };

    /// By how much this case delays the call on this line of a thread's text, counted from 1, if it
    /// does. A script has no work of more than 1,000,000 units.
    fn delay(&self, case: u64, thread: usize, line: usize) -> Option<u64>
        ensures { result ≡ delays_of self.now case thread line };
}
