//! Names of files and directories, for the table of descriptors: a tree of at most 64 names besides
//! the root.
//!
//! [`Names`] map whole paths to [`Node`]s: a file, by the number of its object, or a directory.
//! `add`, `remove`, `rename`, `make_dir` and `remove_dir` change them, `resolve` looks a path up,
//! and `links` counts the names of a file. A caller that has looked changes them by `insert`,
//! `remove_name` and `move_name`. A refusal is an error of POSIX, as `ENOENT` or `ENOTDIR`, or
//! `ENOSPC` where there are as many names as there may be; then nothing changes. No call takes
//! memory. Contracts see the finite map from whole paths to what they name.
//!
//! ```rust
//! use directories::{Names, Node};
//! use posix_terms::Errno;
//!
//! let mut names = Names::new();
//! assert!(rt; names.make_dir(b"/d") == Ok(()));
//! assert!(rt; names.add(b"/d/x", 7) == Ok(()));
//! assert!(rt; names.resolve(b"//d//x") == Ok(Some(Node::File(7))));
//! assert!(rt; names.resolve(b"/d/x/y") == Err(Errno::ENOTDIR));
//! assert!(rt; names.remove_dir(b"/d") == Err(Errno::ENOTEMPTY));
//! assert!(rt; names.links(7) == 1);
//! assert!(rt; names.rename(b"/d/x", b"/y") == Ok(None));
//! assert!(rt; names.resolve(b"/d/x") == Ok(None));
//! assert!(rt; names.remove(b"/y") == Ok(7));
//! ```
#![tactic(auto)]

mod entry;
mod names;
mod path;

pub use entry::Node;
pub use names::Names;
