//! Schedule fuzzing: runs scripts again and again, each time with other delays before their calls,
//! to find a schedule that breaks them.
//!
//! [`Delays`] are cases of delays, by number. A [`Chance`] has one for each seed, so that a
//! schedule is found again by its seed. [`Lists`] have one for each list of at most one delay, or
//! of at most two: that is delay bounding, and by the contract they are all such lists, in a fixed
//! order.
//!
//! [`varied`] writes the text of a script with the delays of a case. By the law
//! [`varied_is_script`] that is a script itself, with the same calls in its lines, unless it is too
//! long; so whatever holds of a plain run holds of its run. A [`Trial`] has the texts of scripts,
//! what comes for them from outside, and the settings: [`Trial::run`] is its plain run, and
//! [`Trial::explored`] runs it with each case of a range, and gives the [`Group`]s of the runs in
//! which the threads saw the same. An [`Observation`] is what they saw, their calls and replies
//! without the clocks of the turns, which of them had [`EndedThreads`], and why the run stopped. By
//! the contract there is one plain run for each case, in order, and each is counted in one group. A
//! [`RunFault`] says why there was none. Each run takes outcomes of its own, which
//! [`outcomes_copied`] gives. A [`ReadTrial`] has read the texts once, for runs with other delays or
//! other outcomes.
//!
//! ```rust
//! use explorer::{Chance, NoProgress, Trial, Workers, varied};
//! use posix_terms::{Bytes, Outcomes, Settings};
//!
//! // Both threads look whether the file is there before they make it.
//! let script = b"open /a r\njzero r0 end\nopen /a rw create excl\nlabel end\n";
//! let chance = Chance { reach: 9 };
//! let text = varied(alloc, &chance, 7, 0, script)?;
//! assert!(rt; text.as_slice().starts_with(b"work "));
//! let mut texts = Vec::new(alloc);
//! texts.push(Bytes::from_slice(alloc, script)?)?;
//! texts.push(Bytes::from_slice(alloc, script)?)?;
//! // Nothing comes from outside.
//! let mut outcomes = Vec::new(alloc);
//! outcomes.push(Outcomes::from_vec(Vec::new(alloc)))?;
//! outcomes.push(Outcomes::from_vec(Vec::new(alloc)))?;
//! let settings = Settings {
//!     patience: 1_000,
//!     door_cost: 100,
//!     version: 2,
//! };
//! let trial = Trial {
//!     texts: &texts,
//!     outcomes: &outcomes,
//!     settings,
//! };
//! let workers = Workers {
//!     threads: &rt,
//!     jobs: 2,
//! };
//! let groups = trial.explored(&workers, alloc, &chance, 0..20, &mut NoProgress)?;
//! assert!(rt; groups.as_slice().iter().map(|group| group.runs).sum::<u64>() == 20);
//! ```
#![tactic(auto)]

mod chance;
mod copies;
mod delay_list;
mod delays;
mod ended;
mod fault;
mod groups;
mod laws;
mod lists;
mod numbers;
mod observation;
mod observing;
mod places;
mod progress;
mod read_script;
mod read_trial;
mod runs;
mod trial;
mod vary;
mod workers;

pub use chance::Chance;
pub use copies::{given_copied, outcomes_copied};
pub use delay_list::{Delay, DelayList};
pub use delays::Delays;
pub use ended::EndedThreads;
pub use fault::RunFault;
pub use groups::{Group, Groups};
pub use laws::{chances_are_works, lists_are_works, threads_make_calls, varied_is_script};
pub use lists::Lists;
pub use numbers::number_of;
pub use observation::Observation;
pub use places::CallPlace;
pub use progress::{NoProgress, ReportsProgress};
pub use read_trial::ReadTrial;
pub use runs::run_texts;
pub use trial::Trial;
pub use vary::{varied, varied_texts};
pub use workers::Workers;
