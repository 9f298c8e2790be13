//! The bytes that wait in a stream in memory, for `call_turns` and for pairs of sockets.
//!
//! A [`StreamBody`] takes the room for all its bytes, as many as its type says, when it is made, and
//! no later call takes memory; a [`PipeBody`] is one of `Limits::PIPE_BYTES`. The bytes stand in a
//! ring, a `HeapCircularBuffer`, so a call costs what it reads or writes, however many bytes wait.
//! `put` writes all bytes or none where the write is whole, and else as many as fit: without room
//! it blocks, and where nobody reads any more the stream is broken. `take` reads the oldest bytes
//! first; without bytes it ends where nobody writes any more, and otherwise blocks. The caller says
//! whether somebody does, and the [`PipeAnswer`] tells what came of it; where nothing was read or
//! written nothing changes. Contracts see the list of the bytes that wait.
//!
//! ```rust
//! use pipes::{PipeAnswer, PipeBody};
//!
//! let mut pipe = PipeBody::new(alloc)?;
//! assert!(rt; pipe.put(b"abcd", true, true) == PipeAnswer::Count(4));
//! assert!(rt; pipe.put(b"f", false, true) == PipeAnswer::Broken);
//! let mut into = [9; 3];
//! assert!(rt; pipe.take(&mut into, true) == PipeAnswer::Data(3));
//! assert!(rt; pipe.take(&mut into, true) == PipeAnswer::Data(1));
//! assert!(rt; pipe.take(&mut into, true) == PipeAnswer::Block);
//! assert!(rt; pipe.take(&mut into, false) == PipeAnswer::End);
//! ```
#![tactic(auto)]

mod body;

pub use body::{PipeAnswer, PipeBody, StreamBody};
