//! What is shown of calls: the operands of each with their names, and of each call of a run that was
//! answered its place in its script and its way to the answer.
//!
//! [`answered_calls`] gives them from what the threads saw and the history of all turns. Which line
//! of its script made a call follows from the replies that the thread had before.
//! [`next_call_line`] is the line of a call that has no reply yet. [`blocked_lines`] are those of calls
//! that are blocked for good, and [`lines_blocked`] those of a run.
//!
//! [`operands`] gives the operands of a call in the order in which the line of a script has them: a
//! path, say, then how it is opened, then the flags. Descriptors are told from other numbers. It
//! takes the call of a line too, whose numbers and bytes may be registers. It copies nothing and
//! takes no memory. By its contract the operands are those of the table in `specs/Operands`, which
//! stands there once.
//!
//! ```rust
//! use answered_calls::{OperandValue, operands};
//! use posix_terms::Call;
//!
//! let call: Call = Call::Read { descriptor: 3, count: 9 };
//! if let Some(operand) = operands(&call).second {
//!     assert!(rt; operand.name == "count");
//!     assert!(rt; matches!(operand.value, OperandValue::Number(9)));
//! }
//! ```
#![tactic(auto)]

mod answered;
mod blocked;
mod lines;
mod operand;
mod operand_table;
mod operand_words;
mod ways;

pub use answered::{AnsweredCall, answered_calls};
pub use blocked::{BlockedLine, blocked_lines, lines_blocked};
pub use lines::next_call_line;
pub use operand::{Operand, OperandValue, Operands};
pub use operand_table::operands;
