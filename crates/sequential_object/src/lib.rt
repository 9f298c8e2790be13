//! The sequential object: what each call does to one shared table of descriptors, taken alone, as
//! definitions (`specs/`) and laws.
//!
//! `specs/Step.antt` is where to begin: by the rows of the call table, one turn of one call gives
//! its answer and the state that it leaves. What a call does is decided first, by what it may look
//! at (`View`): `Decided` has a row a call, by subject in `Opening`, `Duplicates`, `Transfers`,
//! `Names`, `Status`, `Sockets` and `Doors`, each with the section of POSIX.1-2017 that it follows.
//! What was decided is then carried out: `Changes` has a row a change of the table, `Acts` a row an
//! act on an object, and `Meant` puts them together. `Legal` says when a history of turns is the object's, `Locked`
//! which object's lock a call takes, `Worlds` and `Numbers` which number that object has, and
//! `Answers` how a turn ends. Each function here is a law or a list of worked examples: it has an
//! empty body, takes no memory and asks for nothing, and whoever calls it knows from there on what
//! its contract says. [`TurnEnd`] is how a turn of a call ended.
//!
//! ```rust
//! ghost use Rattle.sequential_object.specs.Step.{FailChangesNothing};
//!
//! // What keeps true what is true of each state, for a proof about calls that fail.
//! fn law()
//!     ensures { FailChangesNothing }
//! {
//!     sequential_object::failed_calls_change_nothing();
//! }
//! ```
#![tactic(auto)]

mod decision;
mod examples;
mod laws;
mod turn_end;

pub use decision::{Act, Change, Decision, Deed, NewDescriptor, NewEnds, Seen};
pub use examples::{worked_door_examples, worked_examples};
pub use laws::{
    calls_outside, decided_so, ends_match, failed_calls_change_nothing, moved_bytes_are_reported,
    names_do_not_matter, nothing_unused_is_held,
};
pub use turn_end::{ActEnd, TurnEnd};
