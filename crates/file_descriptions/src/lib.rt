//! Open file descriptions, for the table of descriptors: what several descriptors may share.
//!
//! [`Descriptions`] hold at most `Limits::DESCRIPTORS` of them, and take all their memory when they
//! are made. `make` gives the key of a new [`Description`], at offset 0 and with one holder, or
//! none where there are as many as there may be; it asks that at most 2^127 were ever made. `hold`
//! and `drop_one` count the descriptors: with the last one the description ends, and the number of
//! its object is given. What takes a key asks that there is a description under it, which
//! `contains` tests. Contracts see the finite map of the descriptions, and how many were ever made.
//!
//! ```rust
//! use file_descriptions::{Descriptions, StatusFlags};
//! use posix_terms::{Access, End};
//!
//! let mut all = Descriptions::new(alloc)?;
//! let flags = StatusFlags { append: true, nonblock: false };
//! let Some(key) = all.make(7, End::Only, Access::WriteOnly, flags) else {
//!     return Err("no room")?;
//! };
//! if all.contains(key) {
//!     all.set_offset(key, 12);
//! }
//! assert!(rt; all.contains(key) && all.offset(key) == 12);
//! assert!(rt; all.ends(7) == (1, 0));
//! // The last descriptor goes: the description of object 7 is gone.
//! assert!(rt; all.contains(key) && all.drop_one(key) == Some(7));
//! assert!(rt; !all.contains(key));
//! ```
#![tactic(auto)]

mod description;
mod descriptions;
mod laws;

pub use description::{Description, StatusFlags};
pub use descriptions::Descriptions;
pub use laws::changes_keep_sound;
