//! The scripts of threads, for whoever gives a run its threads: a text is read into a script, and a
//! script run line by line gives a thread's steps.
//!
//! [`parse`] reads a text, or gives a [`ScriptFault`]: its first bad line, too many lines, or no
//! memory. A [`Script`] can also be made in code from [`Line`]s, by `Script::of`, whose condition
//! `Script::accepts` tests. An [`Actor`] gives a thread's next [`Step`] and is handed the reply to
//! the last one; a [`ScriptActor`] follows a script, and a [`BoxedActor`] is an actor of any type.
//! By the contract each step is the one that the script's meaning gives, and each but the end
//! leaves fewer lines to be executed. Without memory for a step the actor is as it was.
//!
//! [`text_readings`] gives what each line of a text says, the bad ones among them as well. [`text_lines`],
//! [`line_words`], [`kind_named`], [`natural`], [`number`], [`register`] and [`byte_register`] read
//! the parts of a text as [`parse`] does.
//!
//! ```rust
//! use posix_terms::{Call, Reply};
//! use thread_scripts::{Actor, Line, Script, ScriptActor, Step, parse};
//!
//! let script = parse(alloc, b"close 0\njzero r0 a\nwork 7\nlabel a")?;
//! let mut actor = ScriptActor::new(script);
//! assert!(rt; actor.next(None)? == Step::Call(Call::Close { descriptor: 0 }));
//! // The reply is a count that is not 0, so the script does not jump.
//! assert!(rt; actor.next(Some(&Reply::Count(1)))? == Step::Work(7));
//! assert!(rt; actor.next(None)? == Step::End);
//!
//! let mut lines = Vec::new(alloc);
//! lines.push(Line::Work(7))?;
//! lines.push(Line::End)?;
//! if Script::accepts(&lines) {
//!     let mut actor = ScriptActor::new(Script::of(lines));
//!     assert!(rt; actor.next(None)? == Step::Work(7));
//! }
//! ```
#![tactic(auto)]

mod actor;
mod boxed;
mod calls;
mod fault;
mod grammar;
mod labels;
mod laws;
mod line;
mod lines;
mod numbers;
mod readings;
mod rules;
mod script;
mod state;
mod texts;
mod words;

pub use actor::{Actor, ScriptActor, ScriptState};
pub use boxed::BoxedActor;
pub use calls::kind_named;
pub use fault::{Memory, ScriptFault};
pub use grammar::parse;
pub use laws::{
    accepted_exactly, bad_line_is_the_first, jumps_lead_to_labels, programs_of_scripts,
    read_scripts_keep_rules, runs_end, script_stays, too_long_is_counted, words_name_calls,
};
pub use line::{ByteRegister, CallLine, Data, Line, Number, NumberRegister, Register};
pub use numbers::{byte_register, natural, number, register};
pub use posix_terms::Step;
pub use readings::{LineReading, text_readings};
pub use script::Script;
pub use words::{line_words, text_lines};
