//! What is wrong with the text of a script, or may be, for whoever writes one.
//!
//! [`check_text`] gives a [`Checked`]: the first bad lines, each with its [`Mistake`], which says
//! where in the line what was [`Expected`] and what was [`Found`]; or the script with its
//! [`Warning`]s and its lines that do something ([`ActingLine`]), whose words have their columns.
//! [`shared_descriptors`] gives the descriptors that more than one script names by their numbers,
//! [`first_use`] where a script does so first. What takes memory fails only where there is none.
//!
//! By the contracts the lines are exactly the bad ones, a label is warned of exactly when no line
//! jumps to it, and a line exactly when it is not reached. A path is warned of exactly when
//! [`path_fault`] gives a reason, which is when calls refuse it for its form, by the law
//! [`paths_are_refused`]. What is said to be expected is tested.
//!
//! ```rust
//! use script_checks::{Checked, Expected, Found, OperandShape, check_text};
//!
//! if let Checked::Bad { shown, .. } = check_text(alloc, b"open /a r\nread 0\n")? {
//!     assert!(rt; shown.len() == 1);
//!     assert!(rt; shown[0].number == 2 && shown[0].mistake.column == 7);
//!     assert!(rt; shown[0].mistake.expected == Expected::Operand(OperandShape::Number));
//!     assert!(rt; matches!(shown[0].mistake.found, Found::End));
//! }
//! ```
#![tactic(auto)]

mod checking;
mod concerns;
mod descriptors;
mod diagnosis;
mod expected;
mod fitting;
mod labels;
mod laws;
mod operand;
mod paths;
mod reaching;
mod shape;
mod words;

pub use checking::{ActingLine, BadLine, Checked, SHOWN, check_text};
pub use concerns::{Concern, Warning};
pub use descriptors::{SharedDescriptor, first_use, shared_descriptors};
pub use expected::{Expected, Found, Mistake};
pub use laws::paths_are_refused;
pub use operand::{FlagSet, OperandShape};
pub use paths::{PathFault, path_fault};
pub use words::PlacedWord;
