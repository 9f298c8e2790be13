//! Records runs of real threads, for programs that embed it and for `detio record`. Each actor has
//! a thread of its own. All make their events at one machine under one lock, and calls to the
//! outside are made while other threads go on.
//!
//! [`run_recorded`] takes 1 to 16 actors, an outside for each that gave nothing yet, and a sink
//! that took nothing yet; [`hosts`] makes outsides over the real host. It waits until all have
//! ended or the run was stopped, and gives [`Ended`]: the transcripts, the history, the sink with
//! the log, and the stop. By the contract the history is legal, its turns rise, and what the sink
//! took covers it; the transcripts are those of its rows, and beginnings of them where the stop is
//! `Memory`; unless the stop is `Strayed`, the workers' own notes say the same. Out of memory stops
//! a run, and so do a sink that fails, a full clock and a thread that cannot be started. Where no
//! run was started, [`NotStarted`] says why and hands all back. Nothing is promised of time.
//!
//! [`record_as`] makes the same run in a [`Manner`]: calls may go outside one after the other, in
//! the order of their turns, and a [`Watch`] may be shown the machine each time that no thread has
//! asked anything for a while. What is promised of a run is the same in each manner.
//!
//! ```rust
//! use input_log::MemorySink;
//! use posix_terms::Settings;
//! use recorder::{BoxedActor, hosts, run_recorded};
//! use thread_scripts::{ScriptActor, parse};
//!
//! fn main(rt: HostRuntime) -> anyhow::Result<()> {
//!     let alloc = rt.alloc();
//!     let script = parse(alloc, b"host_open out w create\nwrite 0 x6869\nclose 0\n")?;
//!     let mut actors: Vec<BoxedActor> = Vec::new(alloc);
//!     actors.push(Box::new(alloc, ScriptActor::new(script))?)?;
//!     let outsides = hosts(rt, alloc, 1)?;
//!     let sink = MemorySink::new(alloc, 65_536)?;
//!     let settings = Settings { patience: 1000, door_cost: 100, version: 1 };
//!     let count = match run_recorded(&rt, alloc, actors, outsides, sink, settings) {
//!         Ok(ended) => ended.sink.bytes().len(),
//!         Err(refused) => return Err(refused.fault.into()),
//!     };
//!     println!(rt; "the log has {count} bytes")?;
//!     Ok(())
//! }
//! ```
#![tactic(auto)]

mod asked;
mod conclude;
mod ended;
mod events;
mod history;
mod leave;
mod noting;
mod order;
mod outside;
mod outsides;
mod pulse;
mod room;
mod run;
mod seat;
mod settle;
mod shared;
mod threads;
mod transcripts;
mod watch;

pub use ended::{Ended, NotStarted, StartFault};
pub use history::RecordedHistory;
pub use outsides::{hosts, hosts_waiting};
pub use run::{record_actors, record_as, run_recorded};
pub use thread_scripts::BoxedActor;
pub use watch::{Manner, Unwatched, Watch};
pub use worker_notes::{Brought, Noted, Own};
