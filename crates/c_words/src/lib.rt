//! What a program in C says of calls and outcomes, and reads of replies and requests: structs of
//! numbers, with bytes and paths beside them.
//!
//! [`call_of`] is the call that C says, or a [`LibraryFault`], whose `code` C knows. [`reply_words`],
//! [`outside_words`] and [`outcome_words`] are what C reads of a reply, a request and an outcome, and
//! [`outcome_of`] is the outcome that it says.
#![tactic(auto)]

mod calls;
mod fault;
mod fronts;
mod outcomes;
mod replies;
mod requests;
mod words;

pub use calls::call_of;
pub use fault::LibraryFault;
pub use fronts::put_front;
pub use outcomes::{outcome_of, outcome_words};
pub use replies::reply_words;
pub use requests::{outside_words, text_of};
pub use words::{CallWords, OutcomeWords, OutsideWords, ReplyWords, RunEnd, RunWords};
