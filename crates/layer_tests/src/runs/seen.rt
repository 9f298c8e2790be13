use posix_terms::{Errno, PackedRow, Reply, Turn};

// A reply, in short.
#[derive(Clone, Copy)]
pub(crate) enum RowReply {
    Count(u64),
    Data(&'static [u8]),
    Number(i64),
    Pair(i64, i64),
    Done,
    Fail(Errno),
}

// Whether a row was answered with this reply.
fn has_reply(row: &PackedRow, seen: RowReply) -> bool {
    match seen {
        RowReply::Count(count) => row.is_reply(&Reply::Count(count)),
        RowReply::Data(bytes) => row.bytes() == Some(bytes),
        RowReply::Number(number) => row.is_reply(&Reply::Number(number)),
        RowReply::Pair(first, second) => row.is_reply(&Reply::Pair(first, second)),
        RowReply::Done => row.is_reply(&Reply::Done),
        RowReply::Fail(error) => row.is_reply(&Reply::Fail(error)),
    }
}

// Whether a row is this thread's, and was granted at this clock.
fn granted(row: &PackedRow, thread: usize, clock: u64) -> bool {
    row.turn() == Turn { clock, thread }
}

// Whether it also has this reply.
pub(crate) fn replied(row: &PackedRow, thread: usize, clock: u64, seen: RowReply) -> bool {
    granted(row, thread, clock) && has_reply(row, seen)
}

// Whether it was blocked.
pub(crate) fn was_blocked(row: &PackedRow, thread: usize, clock: u64) -> bool {
    granted(row, thread, clock) && row.is_answered() && !row.has_reply()
}
