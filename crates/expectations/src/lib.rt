//! What a script says that it expects of its calls' replies, and the first reply that is not so,
//! for whoever runs a script and looks at what came back.
//!
//! A line of a script's text that begins with `#=` is a comment of the script language. Here it
//! stands for the reply of the call line above it, in the words that a transcript has for replies:
//! `#= count 5`, `#= data 6869`, `#= pair 3 _`, `#= fail ENOENT`. `_` stands for any operand. After
//! `not` these words stand for every other reply: `#= not stat 1 1 1`, and `#= not fail` for every
//! reply but a failure. The call line is the nearest line above that is neither empty nor a comment. Several
//! such lines may follow one call line, and its reply has to meet them all, each time that the
//! line is executed.
//!
//! [`expectations_of`] reads them from a text, in order, or gives the first bad one. It looks at
//! these lines and at the call lines above them alone: whether the text is a script,
//! `thread_scripts::parse` says. [`first_unmet`] follows a script by the replies of its thread,
//! finds the line of each call, and gives the first reply that does not meet an expectation of its
//! line. [`Wanted::is_met_by`] is the test of one reply; [`Wanted::text`] writes what is wanted.
//! [`is_cut_off`] follows a script in the same way, up to its end; [`call_places`] gives the places
//! of its calls, and [`next_call_place`] that of the next. [`bytes_of`] and [`error_named`] read
//! the words of a transcript that stand for bytes and errors.
//!
//! By the laws each expectation of a script stands for a line that makes a call, each call has the
//! place of such a line, what is written is read back, and there are no other answers than these.
//!
//! ```rust
//! use expectations::{Unmet, expectations_of, first_unmet};
//! use posix_terms::{Call, Errno, Reply, Row, Turn};
//! use thread_scripts::parse;
//!
//! let text = b"close 0\n#= fail _\n#= fail EIO\n";
//! let expectations = expectations_of(alloc, text)?;
//! assert!(rt; expectations.len() == 2 && expectations[0].call == 1);
//! let mut rows = Vec::new(alloc);
//! rows.push(Row {
//!     call: Call::Close { descriptor: 0 },
//!     turn: Turn { clock: 1, thread: 0 },
//!     reply: Reply::Fail(Errno::EBADF),
//! })?;
//! // The reply of the first row is a failure, but not this one.
//! let unmet = first_unmet(parse(alloc, text)?, &expectations, &rows)?;
//! assert!(rt; unmet == Some(Unmet { row: 0, expectation: 1 }));
//! ```
#![tactic(auto)]

mod above;
mod cut_off;
mod expected;
mod fault;
mod following;
mod laws;
mod operands;
mod pattern;
mod places;
mod printing;
mod reading;
mod unmet;
mod wanted;

pub use above::is_call_line;
pub use cut_off::is_cut_off;
pub use expected::{Expectation, expectations_of};
pub use fault::{ExpectationFault, Reason};
pub use laws::{
    calls_have_places, expectations_stand_for_calls, names_lead_back, one_first_unmet, one_reading,
    texts_read_back,
};
pub use operands::{bytes_of, error_named};
pub use pattern::Pattern;
pub use places::{call_places, next_call_place};
pub use unmet::{Unmet, first_unmet};
pub use wanted::Wanted;
