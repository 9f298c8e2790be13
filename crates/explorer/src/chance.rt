ghost use Rattle.std.specs.Prelude.{◌≡◌, Some};
ghost use Rattle.explorer.specs.Delays.{chance_delay, mixed};

use crate::delays::Delays;
use rand_core::{Rng, SeedableRng};
use rand_xoshiro::SplitMix64;

/// Delays by chance: each case is a seed, and has a delay for each call.
#[derive(Clone, Copy, Debug, PartialEq, Eq)]
pub struct Chance {
    /// How long a delay is at most, in units of a thread's clock.
    pub reach: u32,
}

impl Delays for Chance {
    ghost delays_of = { λ c seed thread line. Some (chance_delay c.reach seed thread line) };

    /// A hash of the seed, the thread and the line: so the same, whatever the other threads and
    /// lines are.
    fn delay(&self, seed: u64, thread: usize, line: usize) -> Option<u64> {
        Some(self.chance_delay(seed, thread, line))
    }
}

impl Chance {
    #[tactic(auto, unfolding(crate::specs::Delays::chance_delay))]
    fn chance_delay(&self, seed: u64, thread: usize, line: usize) -> u64
        ensures { result ≡ chance_delay self.now.reach seed thread line }
    {
        let hash = mixed(mixed(mixed(0, seed), thread as u64), line as u64);
        hash % (u64::from(self.reach) + 1)
    }
}

// A number mixed into a hash.
pub(crate) fn mixed(hash: u64, number: u64) -> u64
    ensures { result ≡ mixed hash number }
{
    SplitMix64::seed_from_u64(hash ^ number).next_u64()
}
