//! A lock that is taken in an order of logical times, whatever the order in which threads come to
//! it, for the lock machine.
//!
//! A [`DetLock`] is a plain value: it knows which thread holds it, and the clock of the last holder
//! when it freed the lock. `attempt` succeeds exactly where nobody holds the lock and the last
//! release was earlier than the time of the attempt; otherwise nothing changes. `free` asks that
//! the thread holds the lock. Nothing here waits, and nothing takes memory.
//!
//! ```rust
//! use det_mutex::DetLock;
//!
//! let mut lock = DetLock::new();
//! assert!(rt; lock.attempt(3, 1));
//! assert!(rt; lock.holder == Some(3));
//! lock.free(3, 9);
//! // It was freed at 9: only a later time takes it.
//! assert!(rt; !lock.attempt(0, 9));
//! assert!(rt; lock.attempt(1, 10));
//! assert!(rt; lock.holder == Some(1) && lock.released == 9);
//! ```
#![tactic(auto)]

mod lock;

pub use lock::DetLock;
