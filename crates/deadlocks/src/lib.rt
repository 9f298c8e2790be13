//! Deadlocks of a run: moments at which only patience can change what its calls answer.
//!
//! A call that cannot go on is blocked, and made again at a later turn, until its patience is used
//! up. So threads that wait for each other do not hang: in the end a call fails with `EINTR`, as if
//! a signal had come, and that hides the deadlock. [`blocked_for_good`] finds it in the history of
//! all turns: each thread that has not ended is blocked, in memory, and none of them moved a byte
//! since the first of these turns. The [`BlockedCall`]s are the calls that wait there.
//!
//! A history does not say what a blocked call moved. A write that is blocked has filled what room
//! there was, and no room is made before a call is answered. So its first turn since then counts as
//! one that moved bytes, and no later one does.
//!
//! The law [`only_patience_answers`] says what such a moment means in the sequential object. There
//! each of these calls is blocked again, whatever its patience, and its turn leaves the state as it
//! is. So does each further turn, until one of the calls has no patience left. `specs/Laws.antt` is
//! where to begin. The law needs of a history that the sequential object answers it, and that a call
//! which is blocked is made again at the next turn of its thread.
//!
//! ```rust
//! ghost use Rattle.deadlocks.specs.Laws.{OnlyPatience};
//!
//! // What a proof about a moment that was found may take as known.
//! fn law()
//!     ensures { OnlyPatience }
//! {
//!     deadlocks::only_patience_answers();
//! }
//! ```
#![tactic(auto)]

mod blocked;
mod laws;
mod places;

pub use blocked::{BlockedCall, BlockedCalls, blocked_for_good};
pub use laws::only_patience_answers;
