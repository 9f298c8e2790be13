use crate::history::RecordedHistory;
use input_log::LogSink;
use machine::Stop;
use posix_terms::{Limits, Transcripts};
use thiserror::Error;
use worker_notes::Own;

/// A recorded run that is over.
#[derive(Drop)]
pub struct Ended<A: Drop, O: Drop, S: LogSink + Drop> {
    /// What each thread saw: the replies of its rows. Where there was no memory for all of them
    /// each is a beginning, and the stop is `Memory`, unless it is `Strayed`.
    pub transcripts: Transcripts,
    /// What the worker of each thread noted itself.
    pub own: Vec<Own>,
    pub actors: Vec<A>,
    pub outsides: Vec<O>,
    pub history: RecordedHistory,
    pub sink: S,
    /// Why the run is not whole: none where all threads ended, the log has its end, and all that
    /// they saw is here.
    pub stop: Option<Stop>,
}

/// Why no run was started. The first that applies, in this order.
#[derive(Clone, Copy, Debug, PartialEq, Eq, Error)]
pub enum StartFault {
    #[error("needs an actor")]
    NoThreads,
    #[error("needs at most {} actors", Limits::THREADS)]
    TooManyThreads,
    /// The patience or the door cost is not 1 to 1,000,000, or there is not one outside for each
    /// actor.
    #[error("patience and door cost must be 1 to 1,000,000, with an outside for each actor")]
    Settings,
    /// Of the log its sink has taken the header at most.
    #[error("no memory")]
    Memory,
}

/// What was handed in for a run that was not started.
#[derive(Drop)]
pub struct NotStarted<A: Drop, O: Drop, S: LogSink + Drop> {
    pub fault: StartFault,
    pub actors: Vec<A>,
    pub outsides: Vec<O>,
    pub sink: S,
}
