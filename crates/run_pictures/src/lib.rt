//! Pictures of runs: a page for a browser, and a trace for a viewer of traces.
//!
//! [`page`] makes one HTML page of a run, or of two under each other with the first row that
//! differs marked: a lane for each thread, a box for each call, and below the same rows as tables.
//! It is whole in itself: it has no script, and nothing of it is loaded from elsewhere. [`trace`]
//! makes the calls of a run a text of events that Perfetto and other viewers of traces read. What
//! makes a text takes memory, and fails only where there is none.
//!
//! By the contracts a page has a box and a line of a table for each call, in their order, each
//! marked by how its call came to its answer; and nothing that a run is called, asks or gets can
//! be taken for a part of the page. Where the boxes stand, and that the clocks are right which
//! are handed in, is tested: by `tools/pages`, and by eye with `tools/look`.
//!
//! ```rust
//! use run_pictures::{DrawnCall, DrawnRun, page};
//! use std::alloc::{AllocError, Global};
//!
//! // The page of a run of two threads that came to its end.
//! fn page_of(alloc: Global, calls: Vec<DrawnCall<'_>>) -> Result<Vec<u8>, AllocError> {
//!     let run = DrawnRun {
//!         name: b"the plain run",
//!         threads: 2,
//!         calls,
//!         stop: None,
//!         blocked: Vec::new(alloc),
//!     };
//!     let runs = [run];
//!     page(alloc, b"0.script 1.script", &runs, None)
//! }
//! ```
#![tactic(auto)]

mod axis;
mod boxes;
mod drawn;
mod escaped;
mod fixed;
mod kinds;
mod laws;
mod layout;
mod pages;
mod picture;
mod tables;
mod traces;

pub use drawn::{CallClocks, DrawnCall, DrawnRun};
pub use laws::escaped_is_harmless;
pub use pages::page;
pub use traces::trace;
