//! The descriptor table with the bodies of its objects, for the lock machine: it performs one turn of
//! a call at a time.
//!
//! `Store::perform_or_lock` performs the turn of a call that the table alone answers. Of any other it
//! returns which object has to be locked and what was decided, a [`Locking`]. Then `Store::perform`
//! takes that and performs the turn; it requires that fewer than 2^127 descriptions and objects were
//! ever made. The [`TurnStart`] is how the turn ended, or what the call asks outside: then
//! [`end_outside`] ends it by the outcome, or `Store::open_door` where the call kept the table. By
//! the contracts a turn does what the sequential object does. A call that cannot go on is blocked
//! until it was for as many turns as its patience. Then it fails with `EINTR`, or returns the count
//! of what it moved at these turns. A store takes the room for all bodies when it is made. For the
//! bytes of a read the caller hands in room, as many as `descriptor_table::read_count` says, or has
//! a [`Room`] for them.
//!
//! ```rust
//! use call_turns::{AtTable, Store, TurnEnd, TurnStart};
//! use posix_terms::{Call, Carried, Reply};
//!
//! let mut store = Store::new(alloc)?;
//! let mut room = Vec::new(alloc);
//! let first = Carried::NOTHING;
//! if let AtTable::Locks(pipe) = store.perform_or_lock(&Call::Pipe, first) {
//!     let start = store.perform(&Call::Pipe, pipe, 3, first, &mut room);
//!     assert!(rt; matches!(start, TurnStart::Ended(TurnEnd::Reply(Reply::Pair(0, 1)))));
//! }
//! let read = Call::Read { descriptor: 0, count: 4 };
//! let mut room = vec![in alloc; 0; descriptor_table::read_count(&read)]?;
//! if let AtTable::Locks(locking) = store.perform_or_lock(&read, first) {
//!     assert!(rt; locking.object == 0);
//!     // Nothing waits in the pipe: of its patience of 3 turns, one is used.
//!     let start = store.perform(&read, locking, 3, first, &mut room);
//!     assert!(rt; matches!(start, TurnStart::Ended(TurnEnd::Blocked(Carried { turns: 1, .. }))));
//! }
//! ```
#![tactic(auto)]

mod acts;
mod body;
mod doors;
mod laws;
mod patience;
mod room;
mod store;
mod streams;

pub use doors::keeps_table;
pub use laws::{first_store, locks_and_doors};
pub use patience::{AtTable, Locking, TurnStart, copied, end_outside};
pub use room::Room;
pub use sequential_object::TurnEnd;
pub use store::Store;
