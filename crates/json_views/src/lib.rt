//! Runs and logs in JSON, one object a line.
//!
//! [`run_json`] makes what is printed of a run: the line of each call that was answered
//! ([`push_row_json`]), and the last one, which says how it ended. [`log_json`] is the text of a
//! log, as far as it is whole. [`push_side_row`] and [`push_side_end`] make the lines of two replays
//! that are compared. Whoever prints other values has [`text_value`] and [`push_line`]: a text that
//! may not be ASCII, and the line of a value that has no float, which [`values_are_exact`] is the law
//! of. By the contracts the bytes are the compact text of
//! the values that `specs/` defines. The members of an object come in the order of their names. It
//! takes memory, and fails only where there is none.
//!
//! ```rust
//! use answered_calls::answered_calls;
//! use call_machine::Plain;
//! use command_texts::Printed;
//! use json_views::run_json;
//! use posix_terms::Bytes;
//! use std::alloc::{AllocError, Global};
//!
//! // What is to be printed for the plain run of the scripts with these texts.
//! fn run_text(alloc: Global, texts: &[Bytes], plain: &Plain) -> Result<Printed, AllocError> {
//!     let calls = answered_calls(alloc, texts, &plain.transcripts, plain.history.rows())?;
//!     run_json(alloc, &calls, plain.stop, None)
//! }
//! ```
#![tactic(auto)]

mod arguments;
mod ends;
mod flags;
mod laws;
mod logs;
mod replies;
mod rows;
mod sides;
mod values;

pub use ends::{put_end, run_json, unmet_value};
pub use laws::values_are_exact;
pub use logs::{Tear, log_json};
pub use rows::push_row_json;
pub use sides::{push_side_end, push_side_row, seen_value};
pub use values::{push_line, text_value};
