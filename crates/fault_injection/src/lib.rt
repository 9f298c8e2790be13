//! Fault injection: runs scripts again and again by the outcomes of a log, each time with another
//! outcome in the place of one. That finds a failure or a short count that breaks them.
//!
//! [`places_in`] gives the [`Place`]s of a run: of each call the last outcome that it took, and what
//! a read or a write went by. A call that waits outside is asked again and again, and each time
//! takes an outcome; those before the last have no place. Nor has an outcome that no call took.
//! [`fault_cases`] gives the [`FaultCase`]s of places: for each the errors that its request can
//! meet ([`errors_of`]), or those that a [`Choice`] names, and in place of the bytes of a read or a
//! write fewer ([`short_counts`]). By its contract they are all of these, in order. [`is_other`]
//! says whether a failure or a count differs from the outcome that it replaces. [`with_outcome`]
//! gives the outcomes of a case: one is [`Injected`], and all others are as they were. In no case
//! are all as they were ([`cases_differ`]).
//!
//! [`run_fault`] makes the plain run of a case. It may stop where a thread asks for an outcome that
//! it does not have. [`run_filled`] goes on there, with an outcome of a [`Filling`]: a failure, or
//! that of a request that goes well. A [`RunFault`](explorer::RunFault) says why there was no run.
//!
//! ```rust
//! use call_machine::Stop;
//! use explorer::Trial;
//! use fault_injection::{Choice, FaultCase, Filling, Injected};
//! use fault_injection::{fault_cases, places_in, run_fault, run_filled};
//! use posix_terms::{Bytes, Errno, Given, ObjectKind, OutKind, Outcome, Outcomes, Settings};
//!
//! // The script writes two bytes to a host file, and the log has both outcomes.
//! let script = b"host_open out w create\nwrite 0 x6869\n";
//! let mut given = Vec::new(alloc);
//! given.push(Given {
//!     kind: OutKind::Open,
//!     clock: None,
//!     outcome: Outcome::Ok {
//!         value: 0,
//!         bytes: Bytes::from_vec(Vec::new(alloc)),
//!     },
//! })?;
//! given.push(Given {
//!     kind: OutKind::Write,
//!     clock: None,
//!     outcome: Outcome::Ok {
//!         value: 2,
//!         bytes: Bytes::from_vec(Vec::new(alloc)),
//!     },
//! })?;
//! let mut outcomes = Vec::new(alloc);
//! outcomes.push(Outcomes::from_vec(given))?;
//! let mut texts = Vec::new(alloc);
//! texts.push(Bytes::from_slice(alloc, script)?)?;
//! let trial = Trial {
//!     texts: &texts,
//!     outcomes: &outcomes,
//!     settings: Settings {
//!         patience: 1_000,
//!         door_cost: 100,
//!         version: 2,
//!     },
//! };
//! let choice = Choice {
//!     errors: None,
//!     short: true,
//! };
//! // In the run as it is each of both calls takes an outcome.
//! let as_it_is = trial.run(alloc)?;
//! let places = places_in(alloc, outcomes.len(), as_it_is.history.rows())?;
//! assert!(rt; places.len() == 2);
//! assert!(rt; places[1].object == Some(ObjectKind::HostFile));
//! let cases = fault_cases(alloc, &outcomes, &places, choice)?;
//! // Five errors of an open and three of a write to a file; and writes of no byte, and of one.
//! assert!(rt; cases.len() == 10);
//! assert!(rt; cases[9].injected == Injected::Short(1));
//! let plain = run_fault(alloc, trial, cases[9])?;
//! assert!(rt; plain.stop.is_none());
//! // A write that is to be made again asks for an outcome that the log does not have.
//! let again = FaultCase {
//!     injected: Injected::Fail(Errno::EAGAIN),
//!     ..cases[9]
//! };
//! let plain = run_fault(alloc, trial, again)?;
//! assert!(rt; plain.stop == Some(Stop::EndOfLog(0)));
//! let plain = run_filled(alloc, trial, again, Filling::Well, 100)?;
//! assert!(rt; plain.stop.is_none());
//! ```
#![tactic(auto)]

mod cases;
mod filled;
mod filling;
mod injected;
mod laws;
mod objects;
mod places;
mod replaced;
mod runs;
mod tried;

pub use cases::{Choice, FaultCase, fault_cases};
pub use filled::run_filled;
pub use filling::Filling;
pub use injected::Injected;
pub use laws::cases_differ;
pub use places::{Place, places_in};
pub use replaced::with_outcome;
pub use runs::run_fault;
pub use tried::{errors_of, is_other, short_counts};
