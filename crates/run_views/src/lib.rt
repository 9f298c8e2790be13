//! Views of a run: which rows are printed in which order, what of each, and why a run stopped before
//! its end.
//!
//! A [`View`] says what is asked. [`run_viewed`] makes what is printed of a run: with `calls` each
//! call with what it was asked, as `0 2 write 0 "hello" = count 5`, with `by_turn` the rows of all
//! threads in the order of their turns, and with `lanes` a column for each thread. In every other
//! view it is the text of [`run_printed`](command_texts::run_printed), so a line is
//! `0 2 write count 5`, with the clock of the turn after the number where `turns` is asked.
//! [`push_call_row`] adds the line of one row with what its call was asked, and [`push_asked`] what
//! that was. By the contracts the bytes are those of the definitions in `specs/`. All take memory,
//! and fail only where there is none.
//!
//! ```rust
//! use call_machine::Plain;
//! use command_texts::Printed;
//! use run_views::{View, run_viewed};
//! use std::alloc::{AllocError, Global};
//!
//! // What is to be printed for a run as one history: what all threads asked, turn by turn.
//! fn history_text(alloc: Global, plain: &Plain) -> Result<Printed, AllocError> {
//!     let view = View {
//!         turns: true,
//!         calls: true,
//!         by_turn: true,
//!         lanes: false,
//!     };
//!     run_viewed(alloc, view, &plain.transcripts, plain.stop)
//! }
//! ```
//!
//! [`stop_reason`] gives lines for a person: at which line of which script the thread was where the
//! run stopped, what it asked there, and what the log has for it. It gives them for a run that asked
//! for an outcome which its log does not have, or has another for; of any other run it gives nothing.
//!
//! ```rust
//! use call_machine::Plain;
//! use posix_terms::Bytes;
//! use run_views::{StoppedRun, stop_reason};
//! use std::alloc::{AllocError, Global};
//!
//! // Why a plain run of the scripts of these texts stopped.
//! fn plain_reason(alloc: Global, texts: &[Bytes], plain: &Plain) -> Result<Vec<u8>, AllocError> {
//!     let run = StoppedRun {
//!         texts,
//!         transcripts: &plain.transcripts,
//!         rows: plain.history.rows(),
//!         log: None,
//!     };
//!     stop_reason(alloc, run, plain.stop)
//! }
//! ```
#![tactic(auto)]

mod asked;
mod found;
mod lanes;
mod operands;
mod order;
mod reason;
mod rows;
mod view;
mod waits;

pub use asked::push_asked;
pub use reason::{StoppedRun, stop_reason};
pub use rows::push_call_row;
pub use view::{View, run_viewed};
pub use waits::push_waits;
