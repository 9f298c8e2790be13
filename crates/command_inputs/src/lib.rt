//! What the commands of the program `detio` are given, and have in common: options, the texts of
//! scripts and of a log, what is run of them, and how the replies of a run are held to what the
//! texts expect.
//!
//! [`source_texts`] reads the sources of scripts, [`to_replay`] those of a log and of scripts. Where
//! one is at fault they give what is printed for the first fault. [`to_run`] gives the scripts of
//! texts, or what is printed for the first that is not a script. By [`RunOptions`] [`run_shown`]
//! gives what is printed for a run, in the [`View`] that they name; [`first_unmet_line`] is the line
//! of the first reply that is not as expected. [`DEFAULTS`] are the settings where no option says
//! otherwise.
//!
//! [`read_log`] reads a log from the text that `detio show` prints of it, for the command that makes
//! a log of such a text. The text may have been changed in an editor. Each line must be exactly what
//! is printed: the words, one space apart, numbers without leading zeros, hexadecimal digits in
//! lower case. The line feed at the end of the text may be left out. And the log must be one that
//! has a spelling: each record of a thread of the header, with that thread's next number, a clock in
//! version 2 alone, and an outcome that its kind can have. The last line counts the records: a log
//! that is not closed ends in `open N`. Any other text has a first bad line, from which on it can be
//! the text of no log, and that is the fault.
//!
//! ```rust
//! use command_inputs::{PrintedFault, read_log};
//!
//! let text = b"version 1 threads 1 patience 1000 door cost 100\n0 0 open fail ENOENT\nend 1\n";
//! let log = read_log(alloc, text)?;
//! assert!(rt; log.closed && log.records.as_slice().len() == 1);
//! let wrong = b"version 1 threads 1 patience 1000 door cost 100\nend 1\n";
//! match read_log(alloc, wrong) {
//!     Err(PrintedFault::BadLine(line)) => assert!(rt; line == 2),
//!     other => drop(other?),
//! }
//! ```
#![tactic(auto)]

mod expecting;
mod faults;
mod log_texts;
mod outcomes;
mod printed_fault;
mod printed_front;
mod printed_laws;
mod printed_lines;
mod printed_reading;
mod printed_words;
mod running;
mod settings;
mod sources;

pub use expecting::{UnmetLine, first_unmet_line, run_shown};
pub use faults::{bad_settings, needs_scripts, no_log, threads_line};
pub use log_texts::{ToReplay, to_replay};
pub use outcomes::no_outcomes;
pub use printed_fault::PrintedFault;
pub use printed_laws::{log_or_bad_line, one_log};
pub use printed_reading::read_log;
pub use run_views::View;
pub use running::{ToRun, to_run};
pub use settings::{DEFAULTS, RunOptions, settings_of};
pub use sources::{SourceTexts, source_texts};
