ghost use Rattle.std.specs.Prelude.{◌≡◌, ◌≤◌, length, take};
ghost use Rattle.c_words.specs.Words.{bytes_in, blank_reply, reply_words};

use crate::fronts::put_front;
use crate::words::ReplyWords;
use posix_terms::Reply;

/// A reply as C reads it, with its bytes at the front of `buffer`, if they have room there.
pub fn reply_words(reply: &Reply, buffer: &mut [u8]) -> ReplyWords
    ensures words { result ≡ reply_words reply.now }
    ensures bytes { length (bytes_in reply.now) ≤ length buffer.old
        → take (length (bytes_in reply.now)) buffer.new ≡ bytes_in reply.now }
{
    match reply {
        Reply::Count(count) => blank(1, *count, 0),
        Reply::Data(bytes) => blank(2, put_front(bytes.as_slice(), buffer) as u64, 0),
        Reply::Number(number) => blank(3, 0, *number),
        Reply::Pair(first, second) => ReplyWords {
            second: *second,
            ..blank(4, 0, *first)
        },
        Reply::Stat {
            kind,
            number,
            links,
        } => ReplyWords {
            links: *links,
            ..blank(5, *number, i64::from(kind.code()))
        },
        Reply::Done => blank(6, 0, 0),
        Reply::Fail(error) => ReplyWords {
            error: u32::from(error.code()),
            ..blank(7, 0, 0)
        },
    }
}

// A reply of this kind, with this count and this number.
fn blank(kind: u32, count: u64, first: i64) -> ReplyWords
    ensures { result ≡ blank_reply kind count first }
{
    ReplyWords {
        kind,
        error: 0,
        count,
        first,
        second: 0,
        links: 0,
    }
}
