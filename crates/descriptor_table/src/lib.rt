//! The table of descriptors, for `call_turns`: what each call finds in it, and how each call
//! changes it.
//!
//! `Table::decide` looks a call up once and changes nothing. What is decided is a refusal, or a
//! `Decision` of `sequential_object`: the reply, where the table alone answers, or the object that the
//! call has to lock and what it does there; with the change that the call makes in the table.
//! `Table::carry_out` makes that change and looks nothing up again, and `Table::open_door` makes the
//! descriptor of a door that was opened outside. By the contracts what is decided is what the
//! sequential object decides, and the table shows all of that object but what its objects hold, and
//! goes on showing it. A table takes all its memory when it is made. A change asks that fewer than
//! 2^127 descriptions and objects were ever made, which `made` returns.
//!
//! `Table::plan` gives a [`Plan`], which is a decision without its change. A caller that has only the
//! plan of a call changes the table by `Table::apply`, which decides once more.
//!
//! ```rust
//! use sequential_object::Act;
//! use descriptor_table::{NewNumbers, Op, Plan, Table};
//! use posix_terms::{Call, Moved};
//!
//! let mut table = Table::new(alloc)?;
//! let plan = table.plan(&Call::Pipe, Moved::NOTHING);
//! let wanted = Plan::Node {
//!     node: 0,
//!     op: Op::Act(Act::Pipe {
//!         first: 0,
//!         second: 1,
//!     }),
//!     keep_table: false,
//! };
//! assert!(rt; plan == wanted);
//! assert!(rt; table.apply(&Call::Pipe, &plan, None) == NewNumbers::Two(0, 1));
//! // The pipe has one read end and one write end now.
//! assert!(rt; table.ends(0) == (1, 1));
//! assert!(rt; table.lowest_free(0) == Some(2));
//! ```
#![tactic(auto)]

mod applying;
mod deciding;
mod laws;
mod numbers;
mod plan;
mod slots;
mod table;

pub use laws::table_follows_step;
pub use numbers::read_count;
pub use plan::{Errand, NewNumbers, Op, Plan, errand_of};
pub use table::Table;
