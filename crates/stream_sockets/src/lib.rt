//! The bytes of a pair of connected stream sockets in memory, for `call_turns`.
//!
//! A [`PairBody`] holds what waits in both directions, and what is shut at each side. It takes the
//! room for all its bytes, `Limits::PAIR_BYTES` each way, when it is made, and no later call takes
//! memory. `put` and `take` are handed the side and whether its peer is open, and answer as those
//! of a pipe do, with a `pipes::PipeAnswer`. `shutdown` shuts reading, writing or both at a side;
//! the bytes that wait where reading is shut are dropped. Contracts see both sides.
//!
//! ```rust
//! use pipes::PipeAnswer;
//! use posix_terms::{ShutdownHow, Side};
//! use stream_sockets::PairBody;
//!
//! let mut pair = PairBody::new(alloc)?;
//! assert!(rt; pair.put(Side::Side0, b"ab", true) == PipeAnswer::Count(2));
//! pair.shutdown(Side::Side0, ShutdownHow::Write);
//! assert!(rt; pair.put(Side::Side0, b"c", true) == PipeAnswer::Broken);
//! let mut into = [9; 3];
//! assert!(rt; pair.take(Side::Side1, &mut into, true) == PipeAnswer::Data(2));
//! assert!(rt; pair.take(Side::Side1, &mut into, true) == PipeAnswer::End);
//! ```
#![tactic(auto)]

mod half;
mod pair;

pub use pair::PairBody;
