use posix_terms::{Errno, Reply, Row, Transcripts};

// A reply, in short.
#[derive(Clone, Copy)]
pub(crate) enum SeenReply {
    Count(u64),
    // data of one byte
    Byte(u8),
    // data of none
    NoData,
    Number(i64),
    Pair(i64, i64),
    Done,
    Fail(Errno),
}

// What each thread saw: replies with the clocks at which they were granted.
pub(crate) type Rows = &'static [&'static [(u64, SeenReply)]];

pub(crate) fn is_reply(reply: &Reply, seen: SeenReply) -> bool {
    match (reply, seen) {
        (Reply::Count(count), SeenReply::Count(wanted)) => *count == wanted,
        (Reply::Data(data), SeenReply::Byte(wanted)) => data.as_slice() == [wanted].as_slice(),
        (Reply::Data(data), SeenReply::NoData) => data.as_slice().is_empty(),
        (Reply::Number(number), SeenReply::Number(wanted)) => *number == wanted,
        (Reply::Pair(one, other), SeenReply::Pair(first, second)) => {
            *one == first && *other == second
        }
        (Reply::Done, SeenReply::Done) => true,
        (Reply::Fail(error), SeenReply::Fail(wanted)) => *error == wanted,
        _ => false,
    }
}

// Whether the first rows of a thread are these, as far as there are any.
fn begin(rows: &[Row], wanted: &[(u64, SeenReply)]) -> bool {
    rows.len() <= wanted.len()
        && rows.iter().zip(wanted).all(|(row, (clock, seen))| row.turn.clock == *clock
            && is_reply(&row.reply, *seen))
}

// Whether the rows of a thread are these.
pub(crate) fn are_seen(rows: &[Row], wanted: &[(u64, SeenReply)]) -> bool {
    rows.len() == wanted.len() && begin(rows, wanted)
}

// Whether each thread saw a beginning of this.
pub(crate) fn saw_beginning(transcripts: &Transcripts, wanted: Rows) -> bool {
    let threads = transcripts.threads();
    threads.len() == wanted.len()
        && threads
            .iter()
            .zip(wanted)
            .all(|(transcript, rows)| begin(transcript.rows(), rows))
}

// Whether each thread saw this.
pub(crate) fn saw(transcripts: &Transcripts, wanted: Rows) -> bool {
    let threads = transcripts.threads();
    threads.len() == wanted.len()
        && threads
            .iter()
            .zip(wanted)
            .all(|(transcript, rows)| are_seen(transcript.rows(), rows))
}
