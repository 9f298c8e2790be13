ghost use Rattle.std.specs.Prelude.{◌≡◌, ◌∷◌, [], ◌++◌, List, OnOk, OnErr};
ghost use Rattle.posix_terms.specs.declared.transcript.Row.{Row};

use crate::call::Call;
use crate::outcome::Outcome;
use crate::reply::{Answer, Reply};
use std::alloc::{AllocError, Global};
use std::marker::Model;

/// A granted turn: the thread's logical clock when it made its attempt, and the thread.
#[derive(Clone, Copy, Debug, PartialEq, Eq, PartialOrd, Ord, Hash)]
pub struct Turn {
    pub clock: u64,
    pub thread: usize,
}

/// What a run is made with: for how many turns a call may be blocked, and what a call that goes
/// outside adds to its thread's clock, each 1 to 1,000,000; and the version of the log that it
/// writes, 1 or 2 (docs/log.md).
#[derive(Clone, Copy, Debug, PartialEq, Eq, Hash)]
pub struct Settings {
    pub patience: u32,
    pub door_cost: u32,
    pub version: u16,
}

/// One call of a thread with its granted turn and its reply.
#[derive(Debug, PartialEq, Eq, Drop)]
pub struct Row {
    pub call: Call,
    pub turn: Turn,
    pub reply: Reply,
}

/// One granted turn of a run: which call, when and by which thread, what came from outside, and how it
/// was answered. The last two stay out until they come. A run keeps it as a
/// [`PackedRow`](crate::PackedRow).
#[derive(Debug, PartialEq, Eq, Drop)]
pub struct HistoryRow {
    pub call: Call,
    pub turn: Turn,
    pub outcome: Option<Outcome>,
    pub answer: Option<Answer>,
}

/// What one thread saw: its calls with their replies, in order. Contracts see the list of its rows.
#[derive(Debug, Drop)]
pub struct Transcript {
    rows: Vec<Row>,
}

impl Model for Transcript {
    ghost Value = { List Row };

    ghost view = { λ t. t.rows.items };
}

impl Transcript {
    /// A transcript with no rows. It takes no memory.
    pub fn new(alloc: Global) -> Transcript
        ensures { result ≡ [] }
    {
        Transcript {
            rows: Vec::new(alloc),
        }
    }

    /// The transcript of these rows. It takes no memory.
    pub fn from_vec(rows: Vec<Row>) -> Transcript
        ensures { result ≡ rows.items }
    {
        Transcript { rows }
    }

    /// The rows, in order.
    pub fn rows(&self) -> &[Row]
        ensures { result.now ≡ self.now }
    {
        self.rows.as_slice()
    }

    /// Adds a row at the end; without memory for it the transcript is as it was.
    pub fn push(&mut self, row: Row) -> Result<(), AllocError>
        ensures ok { OnOk result (self.new ≡ self.old ++ row ∷ []) }
        ensures err { OnErr result (self.new ≡ self.old) }
    {
        self.rows.push(row)?;
        Ok(())
    }
}

/// The transcripts of all threads, by thread. Contracts see the list of them.
#[derive(Debug, Drop)]
pub struct Transcripts {
    threads: Vec<Transcript>,
}

impl Model for Transcripts {
    ghost Value = { List (List Row) };

    ghost view = { λ t. t.threads.items };
}

impl Transcripts {
    /// The transcripts of threads 0, 1 and so on. It takes no memory.
    pub fn from_vec(threads: Vec<Transcript>) -> Transcripts
        ensures { result ≡ threads.items }
    {
        Transcripts { threads }
    }

    /// The transcripts, by thread.
    pub fn threads(&self) -> &[Transcript]
        ensures { result.now ≡ self.now }
    {
        self.threads.as_slice()
    }
}
