//! What the worker of a thread notes itself while it plays its actor, and whether that is what the
//! history of the run says of its thread, for the recorder.
//!
//! [`Own`] has the steps that the machine took, with their replies, and the outcomes that it
//! recorded, with the requests. [`note_reply`] gives the last step its reply, and [`last_reply`] is
//! what the actor is handed next; [`open_call`] is the call that has no reply yet. [`agree`]
//! decides whether the notes of all workers are what the rows and the steps that were asked say;
//! [`is_request_of`] decides whether a request is the one with which a call goes outside, and
//! [`request_for`] makes it, which takes memory for a copy of the call. Notes are pushed into plain
//! vectors, which takes memory too; all other functions here take none.
//!
//! ```rust
//! use lock_machine::Left;
//! use posix_terms::{Call, Reply};
//! use posix_terms::Step;
//! use worker_notes::{Noted, Own, agree, last_reply, note_reply};
//!
//! let mut own = Own::new(alloc);
//! let step = Step::Call(Call::Pipe);
//! own.steps.push(Noted { step, reply: None })?;
//! note_reply(&mut own.steps, Reply::Pair(0, 1));
//! assert!(rt; matches!(last_reply(own.steps.as_slice()), Some(Reply::Pair(0, 1))));
//!
//! // Whether the workers of a machine that is over noted what it says.
//! fn agrees(left: &Left, own: &[Own]) -> bool {
//!     agree(left.rows.as_slice(), &left.asked, own)
//! }
//! ```
#![tactic(auto)]

mod agreement;
mod own;
mod requests;
mod same;

pub use agreement::agree;
pub use own::{Brought, Noted, Own, last_reply, note_reply, open_call};
pub use requests::{is_request_of, request_for};
