//! What the commands `compare` and `draw` do, over any readers and writers: scripts are run by one log
//! or two, and what their threads did is compared, or drawn.
//!
//! [`compare_over`] prints a verdict, as `same` or `differs 0 2`, and returns the exit status; by
//! [`CompareOptions`] it prints the rows too, leaves turns out, and prints objects of JSON. Its
//! contract says what is printed for which texts.
//!
//! ```rust
//! use commands::Source;
//! use compare_and_draw::{CompareOptions, compare_over};
//! use std::alloc::Global;
//! use std::io;
//!
//! // Compares two logs of one script, whose texts these are, and gives what is printed.
//! fn verdict(alloc: Global, log: &[u8], other: &[u8], script: &[u8]) -> io::Result<Vec<u8>> {
//!     let mut sources = Vec::new(alloc);
//!     sources.push(source("a.script", script))?;
//!     let mut output: Vec<u8> = Vec::new(alloc);
//!     let mut errors: Vec<u8> = Vec::new(alloc);
//!     let options = CompareOptions::default();
//!     let (log, other) = (source("a.log", log), source("b.log", other));
//!     compare_over(alloc, options, log, other, sources, &mut output, &mut errors)?;
//!     Ok(output)
//! }
//!
//! fn source<'a>(path: &'a str, text: &'a [u8]) -> Source<'a, &'a [u8]> {
//!     Source { path, reader: text }
//! }
//! ```
//!
//! [`draw_plain`] draws the plain run of scripts, [`draw_log`] their replay by a log, and
//! [`draw_logs`] the replays by two logs under each other, with the first row that differs marked.
//! By [`DrawOptions`] a page is made, a trace or both: [`Drawn`] has them, or else what is printed
//! for the first fault. Nothing is written. The clocks of calls that are not turns are noted while a
//! run goes on; no contract speaks of them.
//!
//! ```rust
//! use commands::{DEFAULTS, Source};
//! use compare_and_draw::{DrawOptions, Drawn, draw_plain};
//! use std::alloc::{AllocError, Global};
//!
//! // What is drawn of the plain run of one script, whose text this is: its page alone.
//! fn drawn(alloc: Global, script: &[u8]) -> Result<Drawn, AllocError> {
//!     let mut sources = Vec::new(alloc);
//!     sources.push(Source { path: "a.script", reader: script })?;
//!     let options = DrawOptions { page: true, trace: false };
//!     draw_plain(alloc, DEFAULTS, options, sources)
//! }
//! ```
#![tactic(auto)]

mod clocks;
mod compare;
mod differences;
mod draw;
mod json_differences;
mod pictures;
mod running;
mod titles;

pub use compare::{CompareOptions, compare_over};
pub use draw::{draw_log, draw_logs, draw_plain};
pub use pictures::{DrawOptions, Drawn};
