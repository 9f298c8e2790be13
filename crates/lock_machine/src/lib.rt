//! The lock machine in code, for the crate `machine`: threads that share one table of descriptors
//! and take its locks at their turns, one event at a time. Each event refines that of the
//! definition in `lock_model`.
//!
//! A [`LockMachine`] is made for 1 to 16 threads, and is handed their steps and the outcomes from
//! outside. `phase` returns where a thread is between its events: `ask`, `end`, `attempt`,
//! `begin_outside`, `record`, `answer` and `again`. An event that is not the thread's own now, or
//! an attempt without the turn, is [`LockRefused`], and so is one for which the clock has no room.
//! `ask` and `again` take memory; without it they fail and nothing changes. An attempt, an answer
//! or an end takes none. A function that is given the number of a thread requires that there is
//! such a thread. `rows` is the history so far, and `finish` leaves it with the steps that were
//! asked. A [`SpareStore`] brings the store of one machine, where its table and its objects stand, to
//! the next: `finish_into` resets it and leaves it there, and `new_from` takes it.
//!
//! ```rust
//! use lock_machine::{Attempt, LockMachine};
//! use posix_terms::{Answer, Call, Reply, Settings};
//! use posix_terms::Step;
//!
//! let settings = Settings { patience: 1000, door_cost: 100, version: 1 };
//! let mut machine = LockMachine::new(alloc, 2, settings)?;
//! assert!(rt; machine.ask(0, Step::Call(Call::Pipe)).is_ok());
//! // Thread 1 would have the turn after the first attempt of thread 0, if it had not ended.
//! assert!(rt; machine.end(1).is_ok());
//! assert!(rt; matches!(machine.try_table(0), Ok(Attempt::Got)));
//! assert!(rt; matches!(machine.try_node(0), Ok(Attempt::Got)));
//! assert!(rt; matches!(machine.answer(0), Ok(Answer::Reply(Reply::Pair(0, 1)))));
//! assert!(rt; machine.end(0).is_ok());
//! assert!(rt; machine.turn_holder() == None);
//! assert!(rt; machine.finish().rows.len() == 1);
//! ```
#![tactic(auto)]

mod ask;
mod asked;
mod events;
mod growth;
mod laws;
mod machine;
mod machine_events;
mod outside;
mod refusals;
mod refused;
mod skipping;
mod spare;
mod start;
mod steps;
mod thread;

pub use asked::Asked;
pub use laws::{machines_show, requests_asked};
pub use machine::{Left, LockMachine};
pub use outside::Progress;
pub use refused::{Attempt, LockRefused};
pub use spare::SpareStore;
pub use thread::{Outing, Phase};
