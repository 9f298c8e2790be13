//! What the commands `plain`, `record`, `replay`, `show`, `make` and `upgrade` do, over any readers
//! and writers, for the program `detio` and for its tests.
//!
//! Each command is a function, as [`plain_over`]: it reads its [`Source`]s, writes what the command
//! prints to two writers, and returns the exit status. Its contract says what is printed for which
//! texts. Bad scripts, bad logs and lack of memory are faults that it prints; it fails only with an
//! error of the writer `errors`. [`record_over`] makes its log, a [`LogTo`], just before the run,
//! and asks for one outside for each script, of which none gave anything yet. [`upgrade_over`] and
//! [`make_over`] make their file, a [`NewFile`], only when they have the bytes of the new log; by
//! [`what_is_shown_is_made`] the second is the inverse of [`show_over`]. [`plain_over`] and
//! [`replay_over`] show a [`WatchesRun`] how far their run has come. [`DEFAULTS`] are the settings
//! where no option says otherwise. [`RunOptions`] have the [`View`] in which a run is printed, and
//! by them it is held to what the texts of its scripts expect: a bad expectation is a fault, and the
//! first unmet one has a line after the run's own last one. [`told_of`] replays for a command that
//! prints something else of what the threads saw.
//!
//! Where [`record_over`] is asked to, it says of a run that stands still which threads are outside,
//! in which call and line of which script, and who waits for whose turn, or for a lock that another
//! keeps. It may also write each row of the run once its call has a reply. Both go to a device of
//! their own, and what cannot be written there, or has no memory, is left out: a notice is no part
//! of a run. Lines are those of the scripts' texts, counted from 1, and scripts are named by their
//! numbers, as faults name them.
//!
//! ```rust
//! use commands::{DEFAULTS, NoWatch, RunOptions, Source, View, plain_over};
//!
//! let mut sources = Vec::new(alloc);
//! sources.push(Source {
//!     path: "a.script",
//!     reader: "open /a r\n#= fail ENOENT\n".as_bytes(),
//! })?;
//! let mut output: Vec<u8> = Vec::new(alloc);
//! let mut errors: Vec<u8> = Vec::new(alloc);
//! let options = RunOptions {
//!     view: View::default(),
//!     json: false,
//!     why: true,
//!     expect: true,
//! };
//! let status = plain_over(
//!     alloc, DEFAULTS, options, sources, &mut NoWatch, &mut output, &mut errors,
//! )?;
//! // Another status would say that there was no memory.
//! if status == 0 {
//!     assert!(rt; output.as_slice() == b"0 0 open fail ENOENT\nend\n".as_slice());
//! }
//! ```
#![tactic(auto)]

mod follower;
mod make;
mod notice;
mod places;
mod plain;
mod ran;
mod record;
mod replay;
mod show;
mod standing;
mod told;
mod upgrade;

pub use call_machine::{NoWatch, Phase, WatchesRun};
pub use command_inputs::{DEFAULTS, RunOptions, View, settings_of};
pub use command_texts::{
    LARGEST_FILE, Source, SourceFault, TextReader, cannot_write, no_memory, print, read_once,
};
pub use make::{LogMade, make_over, what_is_shown_is_made};
pub use plain::plain_over;
pub use ran::{Ran, Run, RunHistory, run_ran};
pub use record::{LogTo, NewLog, NotCreated, RecordOptions, Recorded, log_sink, record_over};
pub use replay::{replay_over, replay_threads_over};
pub use show::show_over;
pub use told::{Told, told_of};
pub use upgrade::{NewFile, OutFile, Upgraded, upgrade_over};
