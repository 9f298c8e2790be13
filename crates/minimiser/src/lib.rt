//! Delta debugging: takes lines and threads away from scripts that fail an expectation, as long as
//! they fail the same. It is for whoever wants to see what the failure needs and no more.
//!
//! An [`explorer::Trial`] has the texts of scripts, what comes for them from outside, and the
//! settings. [`find_target`] runs it on the plain schedule and gives the [`Target`]: the [`Place`] of
//! the first expectation that is not met, and what [`Came`], the error or the reply by a
//! [`Sameness`]. [`minimised`] takes away threads, delays and other lines, first in blocks and then
//! one at a time, and makes delays shorter, always in the same order. It goes on until no line and
//! no thread is left without which the target would still be the same, and no delay of which half
//! would do. By a [`Scope`] it takes away delays alone. A [`Reduction`] is what is kept: its
//! [`texts`](Reduction::texts), their [`outcomes`](Reduction::outcomes), and the
//! [numbers](Reduction::place) that a place has there. A [`MinimiseFault`] says why there is none.
//! [`measure`] counts what there is of texts, before and after. Whoever [`WatchesMinimising`] hears of
//! each run.
//!
//! A text of what is kept is lines of the text that was given, in their order, each with its line
//! feed, and `work N` with a lesser N in place of a delay that was made shorter ([`Part`]). So it is
//! a script like all others, and what holds of a plain run holds of its run. By one step there is
//! no less that fails the same; by two or more there may be.
//!
//! ```rust
//! use explorer::Trial;
//! use minimiser::{Came, Sameness, Scope, Unwatched, find_target, minimised};
//! use posix_terms::{Bytes, Errno, Outcomes, Settings};
//!
//! // Thread 0 looks whether the file is there, and is late to make it.
//! let late =
//!     b"open /a r\njfail new\nend\nlabel new\nwork 9\nopen /a w create excl\n#= not fail\n";
//! let other = b"mkdir /b\nopen /a w create excl\n#= not fail\n";
//! let mut texts = Vec::new(alloc);
//! texts.push(Bytes::from_slice(alloc, late)?)?;
//! texts.push(Bytes::from_slice(alloc, other)?)?;
//! // Nothing comes from outside.
//! let mut outcomes = Vec::new(alloc);
//! outcomes.push(Outcomes::from_vec(Vec::new(alloc)))?;
//! outcomes.push(Outcomes::from_vec(Vec::new(alloc)))?;
//! let settings = Settings {
//!     patience: 1_000,
//!     door_cost: 100,
//!     version: 2,
//! };
//! let trial = Trial {
//!     texts: &texts,
//!     outcomes: &outcomes,
//!     settings,
//! };
//! let target = find_target(alloc, trial, Sameness::Error)?.expect(&rt, "line 6 of thread 0");
//! assert!(rt; target.place.call == 6 && target.place.line == 7);
//! assert!(rt; target.came == Came::Error(Some(Errno::EEXIST)));
//! let kept = minimised(alloc, trial, &target, Scope::Everything, &mut Unwatched)?;
//! let small = kept.texts(alloc, &texts)?;
//! assert!(rt; small[0].as_slice() == b"work 1\nopen /a w create excl\n#= not fail\n".as_slice());
//! assert!(rt; small[1].as_slice() == b"open /a w create excl\n".as_slice());
//! ```
#![tactic(auto)]

mod amounts;
mod delays;
mod fault;
mod finding;
mod minimise;
mod part;
mod reduction;
mod scope;
mod step;
mod target;
mod watching;

pub use amounts::{Amounts, measure};
pub use fault::MinimiseFault;
pub use finding::find_target;
pub use minimise::minimised;
pub use part::Part;
pub use reduction::Reduction;
pub use scope::Scope;
pub use target::{Came, Place, Sameness, Target};
pub use watching::{Unwatched, WatchesMinimising};
