//! What the commands `detio explore`, `faults` and `minimise` do, over any readers and writers, for
//! the program and for its tests.
//!
//! [`explore_over`] runs scripts with the delays of many seeds or lists, by [`ExploreOptions`], and
//! prints what is found. [`faults_over`] runs them with the failures and short counts of
//! [`FaultOptions`] in place of the outcomes of a log. What a command writes is a
//! [`ScriptsToWrite`], the texts of scripts and the log of their plain run: [`to_write`] gives
//! those of scripts with the delays of the first case, [`to_write_case`] those of scripts with one
//! outcome replaced, and [`to_minimise`] what is left of scripts that fail once all lines and
//! threads are gone that the failure does not need, and the line that says how much went
//! ([`MinimisedScripts`]). All read their
//! [`Source`](command_texts::Source)s. Bad scripts, bad logs and lack of memory are faults that are
//! printed; only an error of the writer `errors` is returned.
#![tactic(auto)]

mod case_log;
mod explore;
mod faults;
mod log_inputs;
mod minimise;
mod scheduling;
mod trying;
mod undated;
mod writing;

pub use case_log::to_write_case;
pub use explore::{ExploreOptions, explore_over};
pub use explore_texts::{Allowed, Schedules, Shown};
pub use explorer::{ReportsProgress, Workers};
pub use faults::{FaultOptions, MOST_FILLED, faults_over};
pub use minimise::{MinimiseOptions, MinimisedScripts, to_minimise};
pub use minimiser::{Sameness, Scope, WatchesMinimising};
pub use writing::{ScriptsToWrite, to_write};
