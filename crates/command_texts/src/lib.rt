//! What the commands read and print, for the crate `commands`: texts and scripts, transcripts, logs
//! and the lines of faults.
//!
//! [`read_all`] reads the texts of [`Source`]s, or names the first that cannot be read; [`scripts`]
//! reads the scripts, or returns the [`FirstFault`], and [`first_bad_expectation`] looks at what
//! their texts expect. A [`Printed`] is what goes to standard output and standard error, with the
//! exit status: [`run_printed`] makes that of a run, [`with_unmet`] adds the line of a reply that
//! is not as expected ([`unmet_line`]), and [`bad_line`], [`cannot_read`] and the like make that of
//! a fault; [`log_text`] is the text of a log, of which [`header_line`], [`push_record`] and
//! [`last_line`] give the lines. [`print`] writes it and returns the status. By the contracts the
//! bytes are those of the definitions in `specs/`. [`push_row`] adds the line of a row to a text,
//! and [`push_place`], [`push_call`], [`push_reply`], [`push_data`], [`push_word`],
//! [`push_number`], [`push_signed`] and [`push_end`] add the parts of a line. What makes a text
//! takes memory, and fails only where there is none.
//!
//! ```rust
//! use call_machine::Plain;
//! use command_texts::{FirstFault, Printed, bad_line, run_printed, scripts, too_long};
//! use posix_terms::Bytes;
//! use std::alloc::{AllocError, Global};
//!
//! // What is to be printed for the first fault of these texts, if they have one.
//! fn fault_printed(alloc: Global, texts: &[Bytes]) -> Result<Option<Printed>, AllocError> {
//!     Ok(match scripts(alloc, texts) {
//!         Ok(_) => None,
//!         Err(FirstFault::BadLine(script, line)) => Some(bad_line(alloc, script, line)?),
//!         Err(FirstFault::TooLong(script)) => Some(too_long(alloc, script)?),
//!         Err(FirstFault::Memory) => return Err(AllocError),
//!     })
//! }
//!
//! // What is to be printed for a run, without the clocks of its turns.
//! fn run_text(alloc: Global, plain: &Plain) -> Result<Printed, AllocError> {
//!     run_printed(alloc, false, &plain.transcripts, plain.stop)
//! }
//! ```
#![tactic(auto)]

mod expecting;
mod first_fault;
mod log_fault;
mod log_lines;
mod printed;
mod script_texts;
mod source;
mod text_parts;
mod transcripts;

pub use expecting::{
    BadExpectation, bad_expectation, first_bad_expectation, unmet_line, with_unmet,
};
pub use first_fault::FirstFault;
pub use log_fault::{bad_magic, bad_record, bad_version, torn_line};
pub use log_lines::{header_line, items_text, last_line, log_text, push_record, request_word};
pub use printed::{Printed, cannot_read, cannot_write, fault, no_memory, print};
pub use script_texts::{bad_line, fits, scripts, too_long};
pub use source::{
    LARGEST_FILE, ReadFault, Source, SourceFault, TextReader, Unread, read_all, read_once,
    read_text,
};
pub use text_parts::{push_data, push_number, push_place, push_signed, push_word};
pub use transcripts::{end_status, push_call, push_end, push_reply, push_row, run_printed};
