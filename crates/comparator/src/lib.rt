//! Whether two runs gave their threads the same rows, and where they first differ, for whoever
//! compares a run with its replay or two logs with each other.
//!
//! [`compare`] looks at the transcripts of both and gives a [`Verdict`]: `Same`, or the least
//! thread that differs and the least of its rows that does. Rows are compared whole: call, turn and
//! reply; by [`compare_by`] without their turns, where those do not count. By the law `one_verdict`
//! there is no other verdict on them. [`prefix_of`] says exactly whether there are as many threads
//! in both and each thread's transcript is a prefix of that thread's in the other. None of them
//! fails, and none takes memory.
//!
//! Where the same calls came in another order, descriptors have other numbers, since a call that
//! opens something gets the lowest that is free. [`renamed`] gives each descriptor its name: how many
//! were named before it, as the transcripts are read, thread by thread. A number that a reply gives
//! is a descriptor of its own, and so is one that a call names and none has given. What no
//! descriptor can be is -1. Then two runs in which the same was opened, in whatever order, have
//! equal transcripts. All else of a row stays.
//!
//! ```rust
//! use comparator::{Verdict, compare, compare_by, prefix_of};
//! use posix_terms::{Call, Reply, Row, Transcript, Transcripts, Turn};
//!
//! let mut rows = Transcript::new(alloc);
//! rows.push(Row {
//!     call: Call::Dup { descriptor: 0 },
//!     turn: Turn { clock: 1, thread: 0 },
//!     reply: Reply::Number(1),
//! })?;
//! let one = Transcripts::from_vec(vec![in alloc; rows]?);
//! let other = Transcripts::from_vec(vec![in alloc; Transcript::new(alloc)]?);
//! assert!(rt; compare(&one, &one) == Verdict::Same);
//! // The row after the last of the shorter transcript is the first that differs.
//! assert!(rt; compare(&one, &other) == Verdict::Differs { thread: 0, row: 0 });
//! assert!(rt; compare_by(false, &one, &one) == Verdict::Same);
//! assert!(rt; prefix_of(&other, &one) && !prefix_of(&one, &other));
//! ```
//!
//! ```rust
//! use comparator::renamed;
//! use posix_terms::{Call, Reply, Row, Transcript, Transcripts, Turn};
//! use std::alloc::{AllocError, Global};
//!
//! // A thread that dups this descriptor, which is the number 3 then, and closes that.
//! fn saw(alloc: Global, number: i64) -> Result<Transcript, AllocError> {
//!     let turn = Turn { clock: 0, thread: 0 };
//!     let mut rows = Transcript::new(alloc);
//!     rows.push(Row {
//!         call: Call::Dup { descriptor: number },
//!         turn,
//!         reply: Reply::Number(3),
//!     })?;
//!     rows.push(Row {
//!         call: Call::Close { descriptor: 3 },
//!         turn,
//!         reply: Reply::Done,
//!     })?;
//!     Ok(rows)
//! }
//!
//! let one = Transcripts::from_vec(vec![in alloc; saw(alloc, 7)?]?);
//! let names = renamed(alloc, &one)?;
//! let rows = names.threads()[0].rows();
//! assert!(rt; rows[0].call == Call::Dup { descriptor: 0 });
//! assert!(rt; rows[0].reply == Reply::Number(1));
//! assert!(rt; rows[1].call == Call::Close { descriptor: 1 });
//! ```
#![tactic(auto)]

mod laws;
mod naming;
mod prefix;
mod renaming;
mod same;
mod verdict;

pub use laws::one_verdict;
pub use prefix::prefix_of;
pub use renaming::renamed;
pub use verdict::{Verdict, compare, compare_by};
