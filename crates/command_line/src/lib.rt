//! The command line of `detio`: its subcommands, their arguments, and what `--help` prints of each.
//!
//! [`command`] gives it to `clap`, whose `Command::try_get_matches_from` reads the words. Each option is
//! defined once, in `options.rt`, and the lists of them stand in `tables.rt`: what `clap` reads, the help,
//! and by that the manual page and the completions of shells come from there. What is built of any such
//! table is pinned by contract, and so are the names of the subcommands. What the tables say is tested:
//! the examples hold to each range, each conflict and each need.
#![tactic(auto)]

mod building;
mod options;
mod tables;
mod texts;
mod words;

pub use building::command;
pub use words::seeds_of;
