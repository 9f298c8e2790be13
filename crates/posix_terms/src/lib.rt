//! The words of the calls, for all other crates: errors, calls, steps, replies, outcomes from
//! outside, turns and transcripts. What each call does is said in the crate `sequential_object`.
//!
//! A [`Call`] has its arguments as the thread gave them, a [`Step`] is a call, work or the end, a
//! [`Reply`] is what comes back, and an [`Outcome`] is what came from outside; `Outcome::fits` tells
//! whether it answers what was asked. [`Carried`] is what a blocked call hands on to its next turn,
//! and [`Moved`] what of its bytes went before.
//! A [`Transcript`] is what one thread saw, a [`HistoryRow`] one granted turn of a run, which is
//! kept as a [`PackedRow`], and [`Limits`] has the limits of the profile. Contracts see plain
//! values: of [`Bytes`] and of [`SharedBytes`] the list of bytes, of a transcript the list of its
//! rows. Copies and `Transcript::push` take memory, and fail only where it runs out; a copy of
//! shared bytes takes none, and `from_vec` takes none but for shared bytes.
//!
//! ```rust
//! use posix_terms::{Call, Errno, OutKind, Outcome, Reply, Row, SharedBytes, Transcript, Turn};
//!
//! let bytes = SharedBytes::from_slice(alloc, b"hi")?;
//! let call = Call::Write { descriptor: 0, bytes };
//! assert!(rt; call.kind().word() == "write");
//! assert!(rt; Errno::from_code(Errno::EIO.code()) == Some(Errno::EIO));
//! // Every failure answers a request, whatever was asked.
//! assert!(rt; Outcome::Fail(Errno::EIO).fits(OutKind::Write, 2));
//! let mut transcript = Transcript::new(alloc);
//! transcript.push(Row {
//!     call,
//!     turn: Turn { clock: 1, thread: 0 },
//!     reply: Reply::Count(2),
//! })?;
//! assert!(rt; transcript.rows().len() == 1);
//! ```
#![tactic(auto)]

mod bytes;
mod call;
mod carried;
mod errno;
mod laws;
mod limits;
mod object;
mod outcome;
mod packed_row;
mod reply;
mod request;
mod shared_bytes;
mod step;
mod text;
mod transcript;

pub use bytes::Bytes;
pub use call::{Access, Call, CallKind, OpenFlags, ShutdownHow, Whence};
pub use carried::{Carried, Moved};
pub use errno::{Errno, codes_lead_back, errno_name};
pub use laws::equal_ones_are_the_same;
pub use limits::Limits;
pub use object::{Door, End, Side};
pub use outcome::{Given, OutKind, Outcome, Outcomes};
pub use packed_row::{OutcomeRoom, PackedRow};
pub use reply::{Answer, ObjectKind, Reply};
pub use request::Request;
pub use shared_bytes::SharedBytes;
pub use step::Step;
pub use text::{pieces, split};
pub use transcript::{HistoryRow, Row, Settings, Transcript, Transcripts, Turn};
