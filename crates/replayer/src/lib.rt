//! Runs scripts again by the log of what came from outside, for whoever must repeat a recorded run.
//! It needs no host file and no network, and takes one thread, or one for each script.
//!
//! [`replay`] runs scripts on the plain schedule, and [`replay_threads`] runs actors as the
//! recorder does; each call that goes outside takes the next record of its thread. By the law
//! `recorded_runs_are_replayed` the log of a recorded run that nothing stopped, replayed with the
//! scripts of that run, gives every thread the same replies, unless memory runs out. Of a log that
//! is torn after its header the records before the tear count. A [`ReplayFault`] says why a replay
//! did not come to its end: no log, another number of threads, no memory, or a stop, `EndOfLog`,
//! `Diverged` or `ClockFull`, with what each thread saw so far.
//!
//! ```rust
//! use replayer::{ReplayFault, replay};
//! use thread_scripts::parse;
//!
//! // The log of a thread that opened a host file, which was not there.
//! const LOG: &[u8] = b"DIOL\0\x01\0\x01\0\0\x03\xe8\0\0\0\x64\
//!     R\0\0\0\0\0\0\x01\x0a\0\0\0\0\0\0\0\0\0\0";
//!
//! let script = parse(alloc, b"host_open nofile r\nopen /b rw create\n")?;
//! match replay(alloc, LOG, vec![in alloc; script]?) {
//!     Ok(replayed) => assert!(rt; replayed.history.rows().len() == 2),
//!     // Only memory can have run out: the script is that of the log.
//!     Err(fault) => assert!(rt; matches!(fault, ReplayFault::Memory)),
//! }
//! ```
#![tactic(auto)]

mod fault;
mod laws;
mod outcomes;
mod replayed;
mod run;
mod threads;
mod unused;
mod version_two;

pub use fault::ReplayFault;
pub use laws::{
    own_log, recorded_runs_are_replayed, recorded_runs_are_upgraded, runs_are_upgraded,
};
pub use replayed::Replayed;
pub use run::{RunByLog, replay, replay_run};
pub use threads::{NotReplayed, replay_threads};
pub use version_two::upgrade;
