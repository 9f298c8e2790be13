//! Doors to the outside, for whoever runs calls that go there: host files, listeners and streams as
//! calls reach them. One trait has them over the real host, over a list of outcomes or over a log.
//!
//! An [`Outside`] is what one thread reaches. It has a function for each kind of request, which is
//! handed the thread, the number of the outcome among those of the thread, and the door where there
//! is one. By its contract an outcome fits what was asked, a success of an opening brings a door,
//! and each outcome is counted. [`HostDoors`] are host files and TCP on the loopback address. What
//! fails there is an outcome too. So is `EAGAIN` of a call that found no bytes, no room or no
//! connection within the time that it may wait for its peer. [`ScriptDoors`] give a list of
//! outcomes through a [`Gate`], and [`LogDoors`] what a log has for a thread. Where there is no
//! outcome a [`DoorStop`] says why, and the outside is as it was. A read of the host takes memory
//! for the bytes asked for, and without it nothing is read.
//!
//! ```rust
//! use host_doors::{DoorStop, NoGate, Outside, ScriptDoor, ScriptDoors};
//! use posix_terms::{Call, Errno, Given, OutKind, Outcome, Outcomes, Request, Turn};
//!
//! let kind = OutKind::Read;
//! let outcome = Outcome::Fail(Errno::EIO);
//! let list = Outcomes::from_vec(vec![in alloc; Given { kind, clock: None, outcome }]?);
//! let mut doors = ScriptDoors::new(list, NoGate);
//! let mut door = ScriptDoor;
//! let request = Request {
//!     kind,
//!     asked: 5,
//!     call: Call::Read { descriptor: 0, count: 5 },
//!     turn: Turn { clock: 1, thread: 0 },
//! };
//! let first = doors.read(0, 0, &request, &mut door, true);
//! assert!(rt; matches!(first, Ok(Outcome::Fail(Errno::EIO))));
//! let second = doors.read(0, 1, &request, &mut door, true);
//! assert!(rt; matches!(second, Err(DoorStop::EndOfLog)));
//! ```
#![tactic(auto)]

mod asked;
mod channel;
mod counts;
mod door;
mod error;
mod gate;
mod host;
mod log_doors;
mod opened;
mod opener;
mod options;
mod outside;
mod pair;
mod script;
mod stop;

pub use door::HostDoor;
pub use gate::{Gate, NoGate};
pub use host::HostDoors;
pub use log_doors::LogDoors;
pub use opened::Opened;
pub use outside::Outside;
pub use pair::{OutcomePlace, PairGate};
pub use script::{ScriptDoor, ScriptDoors};
pub use stop::DoorStop;
