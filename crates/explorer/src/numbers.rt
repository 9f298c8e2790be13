ghost use Rattle.std.specs.Prelude.{◌≡◌, length};
ghost use Rattle.std.specs.List.{fold};
ghost use Rattle.explorer.specs.Delays.{mixed};
ghost use Rattle.explorer.specs.Numbers.{number_of, with_reply, with_row, with_thread};

use crate::chance::mixed;
use posix_terms::{Reply, Row, Transcript, Transcripts};

/// A number for what threads saw, by their replies. What is the same has the same number. What
/// differs has another one but for a collision, as of a hash.
#[tactic(auto, unfolding(crate::specs::Numbers::number_of))]
pub fn number_of(seen: &Transcripts) -> u64
    ensures { result ≡ number_of seen.now }
{
    seen.threads()
        .iter()
        .fold(0, |number, thread| with_thread(number, thread))
}

fn with_thread(number: u64, thread: &Transcript) -> u64
    ensures { result ≡ with_thread number thread.now }
{
    let rows = thread.rows();
    rows.iter()
        .fold(mixed(number, rows.len() as u64), |number, row| {
            with_row(number, row)
        })
}

fn with_row(number: u64, row: &Row) -> u64
    ensures { result ≡ with_row number row.now }
{
    with_reply(number, &row.reply)
}

fn with_reply(number: u64, reply: &Reply) -> u64
    ensures { result ≡ with_reply number reply.now }
{
    match reply {
        Reply::Count(count) => mixed(number, *count),
        Reply::Data(bytes) => with_bytes(number, bytes.as_slice()),
        Reply::Number(value) => mixed(number, value.unsigned_abs()),
        Reply::Pair(first, second) => {
            mixed(mixed(number, first.unsigned_abs()), second.unsigned_abs())
        }
        Reply::Stat {
            kind,
            number: value,
            links,
        } => mixed(mixed(mixed(number, u64::from(kind.code())), *value), *links),
        Reply::Done => mixed(number, 0),
        Reply::Fail(error) => mixed(number, u64::from(error.code())),
    }
}

fn with_bytes(number: u64, bytes: &[u8]) -> u64
    ensures { result ≡ fold mixed (mixed number (length bytes.now)) bytes.now }
{
    bytes
        .iter()
        .fold(mixed(number, bytes.len() as u64), |number, byte| {
            mixed(number, u64::from(*byte))
        })
}
