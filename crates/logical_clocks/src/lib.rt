//! The logical clocks of the threads, and whose turn it is by them, for the lock machine.
//!
//! [`Clocks`] are made for 1 to `Limits::THREADS` threads, each at clock 1, and take all their
//! memory then. Of the threads that have not ended, the one with the least clock has the turn, and
//! of equal clocks the one with the least number: `turn_holder` names it, and `is_turn` tests one
//! thread. `add` adds exactly so much to a clock; where the sum would pass `Limits::CLOCK` it fails
//! with [`ClockFull`], and nothing changes. `raise` moves a clock on to a time that it has not
//! reached. `end` takes a thread out of the turns to come. What names a thread asks that there is
//! one of this number.
//!
//! ```rust
//! use logical_clocks::{ClockFull, Clocks};
//!
//! let mut clocks = Clocks::new(alloc, 2)?;
//! assert!(rt; clocks.turn_holder() == Some(0));
//! assert!(rt; clocks.add(0, 4) == Ok(()));
//! assert!(rt; clocks.is_turn(1) && !clocks.is_turn(0));
//! assert!(rt; clocks.add(0, u64::MAX) == Err(ClockFull));
//! assert!(rt; clocks.clock(0) == 5);
//! clocks.end(1);
//! assert!(rt; clocks.turn_holder() == Some(0));
//! ```
#![tactic(auto)]

mod clocks;
mod laws;

pub use clocks::{ClockFull, Clocks, ThreadClock};
pub use laws::least_is_found;
