ghost use Rattle.std.specs.Prelude.{◌≡◌, ◌<◌, ◌^◌, ℕ, Some, is_none};
ghost use Rattle.std.specs.Bool.{OnTrue, OnFalse};
ghost use Rattle.det_mutex.specs.Attempt.{new_lock, takes, is_open_by, held, freed};

/// A lock by logical times: which thread holds it, and the clock of the last holder when it freed the
/// lock. An attempt succeeds only at a later time than that.
#[derive(Clone, Copy, Debug, PartialEq, Eq)]
pub struct DetLock {
    /// The thread that holds the lock.
    pub holder: Option<usize>,
    /// The clock of the last holder when it freed the lock, at first 0.
    pub released: u64,
}

impl DetLock {
    /// A lock that nobody has held.
    pub fn new() -> DetLock
        ensures { result ≡ new_lock }
    {
        DetLock {
            holder: None,
            released: 0,
        }
    }

    /// An attempt of a thread at a time of its clock. It succeeds exactly where nobody holds the lock and
    /// the last release was earlier, and then the thread holds it. Otherwise nothing changes.
    #[tactic(auto, unfolding(crate::specs::Attempt::takes))]
    pub fn attempt(&mut self, thread: usize, clock: u64) -> bool
        ensures taken { result ≡ takes self.old clock }
        ensures holds { OnTrue result (self.new ≡ held thread self.old) }
        ensures unchanged { OnFalse result (self.new ≡ self.old) }
    {
        let opens = self.holder.is_none() && self.released < clock;
        if opens {
            self.holder = Some(thread);
        }
        opens
    }

    /// The least time at which an attempt succeeds, or none while a thread holds the lock.
    #[inline(always)]
    #[tactic(auto, unfolding(crate::specs::Attempt::takes))]
    pub fn opens(&self) -> Option<u64>
        ensures { (clock : ℕ) → clock < 2 ^ 64 → takes self.now clock ≡ is_open_by result clock }
    {
        match self.holder {
            None => self.released.checked_add(1),
            Some(_) => None,
        }
    }

    /// Frees the lock, which this thread holds, at a time of its clock.
    pub fn free(&mut self, thread: usize, clock: u64)
        requires { self.old.holder ≡ Some thread }
        ensures { self.new ≡ freed clock }
    {
        prove!(self.holder == Some(thread));
        self.holder = None;
        self.released = clock;
    }

    /// Whether nobody holds the lock.
    pub fn is_free(&self) -> bool
        ensures { result ≡ is_none self.now.holder }
    {
        self.holder.is_none()
    }
}
