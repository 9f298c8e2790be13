//! The bytes of a regular file in memory, for `call_turns`.
//!
//! A [`FileBody`] takes the room for all its bytes, `Limits::FILE_BYTES`, when it is made, and no
//! later call takes memory. The bytes stand in pages of 512 bytes: the first write into one takes
//! it from those of the file, and a cut gives it back. A gap and an extension take none, and read
//! as 0 bytes. `write_at` writes what fits under the limit, and a gap before the position becomes 0
//! bytes; where bytes were given and not one fits it fails with `EFBIG`, and the file is as it was.
//! `read_at` reads into the head of a slice, fewer bytes than its length only at the end of the
//! file. `set_len` asks for a length within the limit. Contracts see the list of the bytes, and
//! follow POSIX `read`, `write` and `ftruncate`.
//!
//! ```rust
//! use memory_files::FileBody;
//! use posix_terms::Errno;
//!
//! let mut file = FileBody::new(alloc)?;
//! assert!(rt; file.write_at(2, b"hi") == Ok(2));
//! assert!(rt; file.len() == 4);
//! let mut bytes = [9; 3];
//! // Two bytes up to the end; the third stays as it was.
//! assert!(rt; file.read_at(2, &mut bytes) == 2);
//! assert!(rt; file.write_at(65_536, b"0") == Err(Errno::EFBIG));
//! file.set_len(2);
//! assert!(rt; file.len() == 2);
//! ```
#![tactic(auto)]

mod body;
mod pages;

pub use body::FileBody;
