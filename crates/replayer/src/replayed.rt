use call_machine::History;
use posix_terms::Transcripts;

/// What a replay shows that came to its end: what each thread saw, and the history.
#[derive(Debug, Drop)]
pub struct Replayed {
    pub transcripts: Transcripts,
    pub history: History,
}
