use crate::history::History;
use machine::Stop;
use posix_terms::{Bytes, Transcripts};

/// A plain run: what each thread saw, the history, the bytes of the log, and why it stopped, if it did
/// before all threads had ended.
#[derive(Debug, Drop)]
pub struct Plain {
    pub transcripts: Transcripts,
    pub history: History,
    pub log: Bytes,
    pub stop: Option<Stop>,
}
