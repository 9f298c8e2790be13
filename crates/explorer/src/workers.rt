ghost use Rattle.std.specs.Prelude.{◌≡◌, ◌^◌, ◌-◌, ◌*◌, ◌<◌, ◌≤◌, min};

use std::thread::Threads;

/// What makes many runs at a time.
#[derive(Drop)]
pub struct Workers<'a, T: Threads + Sync> {
    pub threads: &'a T,
    /// In how many threads at most; 0 is as 1.
    pub jobs: usize,
}

impl<T: Threads + Sync> Workers<'_, T> {
    /// How many runs are made before what they gave is looked at.
    pub fn at_a_time(&self) -> usize
        ensures one { self.entry.now.jobs ≤ 1 → result ≡ 1 }
        ensures many { 1 < self.entry.now.jobs
            → result ≡ min (self.entry.now.jobs * 256) (2 ^ 64 - 1) }
    {
        match self.jobs {
            0 | 1 => 1,
            jobs => jobs.saturating_mul(256),
        }
    }
}
