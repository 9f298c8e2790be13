//! Keeps logs from being lost: what is at the path of a new log, unless it may be lost, and the log
//! of a run from the calls of that run.
//!
//! A command that makes a log looks at its path first. By [`lost_there`] what has bytes stays
//! without force: a log, unless it is the one that was read, and anything else. What cannot be read
//! counts as something else, and so does what only begins like the first bytes of a log
//! ([`held_there`]). What is no regular file, as a device or a pipe, has nothing to lose. Who looks
//! at the host is the caller.
//!
//! [`GuardedDoors`] are an outside over another one, in which the log's file cannot be opened. They
//! give what the outside within them gives. Only an opening of the log is `EBUSY`: nothing within is
//! asked, so that the log is neither cut nor written. Whether a path leads to the log is said by a
//! [`LogFinder`]. [`HostLog`] is the one of the host: it knows the file by its device and its
//! number, so that another name of it is found too. [`guarded_hosts`] are the outsides of a run over
//! the host.
//!
//! ```rust
//! use host_doors::{NoGate, Outside, ScriptDoors};
//! use log_guard::{GuardedDoors, LogFinder};
//! use posix_terms::{Access, Call, Errno, OpenFlags, OutKind, Outcome, Outcomes, Request};
//! use posix_terms::{SharedBytes, Turn};
//!
//! #[derive(Drop)]
//! struct OneName;
//!
//! impl LogFinder for OneName {
//!     ghost may_answer = { λ _ _ _. ⊤ };
//!
//!     fn is_log(&self, path: &[u8]) -> bool {
//!         path == b"self.log".as_slice()
//!     }
//! }
//!
//! let within = ScriptDoors::new(Outcomes::from_vec(Vec::new(alloc)), NoGate);
//! let mut doors = GuardedDoors::new(within, OneName);
//! let request = Request {
//!     kind: OutKind::Open,
//!     asked: 0,
//!     call: Call::HostOpen {
//!         path: SharedBytes::from_slice(alloc, b"self.log")?,
//!         access: Access::WriteOnly,
//!         flags: OpenFlags {
//!             create: false,
//!             exclusive: false,
//!             truncate: true,
//!             append: false,
//!             nonblock: false,
//!         },
//!     },
//!     turn: Turn { clock: 1, thread: 0 },
//! };
//! let opened = doors.open(0, 0, &request)?;
//! assert!(rt; matches!(opened.outcome, Outcome::Fail(Errno::EBUSY)));
//! ```
#![tactic(auto)]

mod doors;
mod finder;
mod hosts;
mod kept;

pub use doors::GuardedDoors;
pub use finder::{FileId, HostLog, LogFinder, LogPlace};
pub use hosts::guarded_hosts;
pub use kept::{Held, Look, Lost, held_there, lost_there};
