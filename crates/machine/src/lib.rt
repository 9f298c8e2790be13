//! A machine of threads that share one table of descriptors, for whoever writes a driver: the lock
//! machine with the writer of its log and the doors to the outside.
//!
//! A [`Machine`] is made for 1 to 16 threads, over a writer that has written their header and
//! nothing more; then any driver may make its events, in any order, by the `phase` of each thread.
//! An outcome is in the log before it is the machine's, so no reply is given before its record was
//! taken whole. After each event the machine is faithful: its `history` is legal, its turns rise,
//! and what the writer wrote covers it. An event that cannot be made is [`Refused`]: out of memory
//! nothing has changed, and where the log's writer failed the machine is stopped. `record` requires
//! an outcome that answers the request, which `takes` tests. `finish` returns what is left, with
//! the sink and the history.
//!
//! ```rust
//! use input_log::MemorySink;
//! use machine::{Machine, Phase};
//! use posix_terms::Step;
//!
//! // Thread i makes its event, where it can: `next` is what it asks next. No call goes outside,
//! // and a door is a number here.
//! fn advance(machine: &mut Machine<MemorySink, u8>, i: usize, next: Step) -> bool {
//!     if i >= machine.len() {
//!         return false;
//!     }
//!     match machine.phase(i) {
//!         Phase::Working => machine.ask(i, next).is_ok(),
//!         Phase::WantsTable { .. } => machine.try_table(i).is_ok(),
//!         Phase::WantsObject { .. } => machine.try_node(i).is_ok(),
//!         Phase::Blocked { .. } => machine.again(i).is_ok(),
//!         _ => machine.answer(i).is_ok(),
//!     }
//! }
//! ```
#![tactic(auto)]

mod doors;
mod events;
mod finish;
mod history;
mod in_turn;
mod laws;
mod machine;
mod outside;
mod refused;
mod settings;
mod stop;

pub use finish::Finished;
pub use laws::outcomes_are_recorded;
pub use lock_machine::{Attempt, Left, Outing, Phase};
pub use machine::Machine;
pub use refused::{NotRecorded, Refused};
pub use settings::are_in_range;
pub use stop::Stop;
