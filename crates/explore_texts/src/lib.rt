//! What the commands that explore print: how the run of scripts as they are ended, what is found of
//! other runs, and what these have in common.
//!
//! A [`Schedule`] has the delays of seeds or of lists ([`Schedules`]). [`Looked`] is what is looked
//! at in a run besides what its threads saw: the first reply that is not as expected, and what the
//! run came to. [`alike_runs`] joins groups of runs whose threads saw the same but for the numbers
//! of descriptors, and puts those together of which the same expectation is not met.
//!
//! A [`Finding`] is the line of such runs, or of one: [`findings`] are those of runs with delays,
//! and [`found`] is that of any run, after words of its own, such as [`push_case`] gives for a case
//! of a log's outcomes; [`found_as_is`] is that of the run as it is. [`explored_printed`] and
//! [`cases_printed`] put the whole text together. [`cut_of`] names the threads that ended only
//! because they had executed as many lines as a thread may.
//!
//! A [`Judgement`] says what a run came to, as far as it was looked at: it passed, a reply was not as
//! expected, its calls were blocked for good, or it stopped, so that the rest was not looked at.
//! [`Allowed`] says which of these is no fault, and a [`Tally`] which runs are counted together.
#![tactic(auto)]

mod alike;
mod case_text;
mod cut_off;
mod explored_text;
mod finding;
mod json_lines;
mod judgement;
mod looked;
mod schedule;
mod schedule_text;
mod waits;

pub use alike::{AlikeRuns, UnmetPlace, alike_runs};
pub use case_text::{cases_printed, outcome_of, push_case};
pub use cut_off::cut_of;
pub use explored_text::{Shown, explored_printed};
pub use finding::{Finding, SeenRun, findings, found, found_as_is, found_json};
pub use json_lines::fault_value;
pub use judgement::{Allowed, Judgement, Tally};
pub use looked::Looked;
pub use schedule::{Schedule, Schedules};
