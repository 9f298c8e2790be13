//! Runs calls of threads against one shared table of descriptors on the plain schedule, for replays
//! and for `detio plain`.
//!
//! [`plain_run`] runs 1 to 16 scripts, each with a list of what comes for it from outside. A
//! [`Plain`] has the transcripts, the history, the bytes of the log, and the [`Stop`] of a run that
//! came to its end before all threads had ended: at the end of a list, at an outcome that does not
//! answer, or at a full clock. By the contract its history is legal, its turns rise, and the log
//! covers it; by `plain_runs_agree` there is one plain run of given scripts, outcomes and settings.
//! A [`PlainFault`] says why there was no run: wrong numbers, wrong settings or no memory.
//! [`plain_run_watched`] also shows the run to a [`WatchesRun`] while it goes on. [`plain_run_kept`] is
//! for many runs, one after the other: each takes the room of the one before, a [`SpareStore`]. The
//! machine for a driver of your own is here too, as [`Machine`].
//!
//! ```rust
//! use call_machine::plain_run;
//! use posix_terms::{Outcomes, Settings};
//! use thread_scripts::parse;
//!
//! let script = parse(alloc, b"open /a rw create\nwrite 0 x61\nclose 0\n")?;
//! let scripts = vec![in alloc; script]?;
//! // Nothing comes from outside.
//! let outcomes = vec![in alloc; Outcomes::from_vec(Vec::new(alloc))]?;
//! let settings = Settings {
//!     patience: 1000,
//!     door_cost: 100,
//!     version: 2,
//! };
//! let plain = plain_run(alloc, scripts, outcomes, settings)?;
//! assert!(rt; plain.stop.is_none());
//! assert!(rt; plain.history.rows().len() == 3);
//! assert!(rt; plain.transcripts.threads().len() == 1);
//! ```
#![tactic(auto)]

mod drive;
mod driver;
mod fault;
mod finish;
mod history;
mod laws;
mod log;
mod plain;
mod players;
mod run;
mod watch;

pub use fault::PlainFault;
pub use history::History;
pub use laws::{logs_of_plain_runs, logs_of_runs, plain_runs_agree};
pub use lock_machine::{Asked, SpareStore};
pub use machine::{Attempt, Finished, Left, Machine, NotRecorded, Outing, Phase, Refused, Stop};
pub use plain::Plain;
pub use run::{plain_run, plain_run_kept, plain_run_watched};
pub use watch::{NoWatch, WatchesRun};
