ghost use Rattle.std.specs.Prelude.{◌≡◌, ◌≤◌, length, nat_le, pos, take, true};
ghost use Rattle.posix_terms.specs.declared.reply.Reply.TheVariants.{Number};
ghost use Rattle.posix_terms.specs.Outcomes.{fits};
ghost use Rattle.posix_terms.specs.declared.outcome.Outcome.TheVariants.{Fail as failure};
ghost use Rattle.sequential_object.specs.Bytes.{reply_bytes};
ghost use Rattle.descriptor_table.specs.Plans.{bytes_asked};
ghost use Rattle.call_turns.specs.Patience.{EndsOutside, Waits, act_bytes, stopped_ending};
ghost use Rattle.call_turns.specs.Patience.{turn_bytes};

use descriptor_table::Errand;
use posix_terms::{Bytes, Carried, Errno, Moved, OutKind, Outcome, Reply};
use sequential_object::{ActEnd, Deed, TurnEnd};
use std::mem::replace;

/// What a call comes to once its thread has the table.
#[derive(Drop)]
pub enum AtTable {
    /// The table alone answers it: its turn ended with this reply.
    Answers(Reply),
    /// It has to lock an object, too.
    Locks(Locking),
}

/// What was decided of a call that takes the lock of an object: the object's number, and what the
/// call does. It holds as long as the table stays as it is.
#[derive(Clone, Copy)]
pub struct Locking {
    pub object: usize,
    pub deed: Deed,
}

/// How far a turn of a call came at its grant.
#[derive(Drop)]
pub enum TurnStart {
    /// It ended so.
    Ended(TurnEnd),
    /// It goes outside with this, and ends once the outcome came.
    GoesOut(Errand),
}

// The end of an act that cannot go on and moved nothing: it waits, or fails where its description
// is not to block.
pub(crate) fn stopped(nonblock: bool) -> ActEnd
    ensures shown { result ≡ stopped_ending nonblock }
    ensures few { act_bytes result ≡ 0 }
{
    if nonblock {
        ActEnd::Reply(Reply::Fail(Errno::EAGAIN))
    } else {
        ActEnd::Waits(Moved::NOTHING)
    }
}

// The end of a turn of a call that cannot go on, and carries this: it is made again, until it was blocked for as
// many turns as its patience.
pub(crate) fn blocked(patience: u32, moved: Moved, carried: Carried) -> TurnEnd
    ensures waits { Waits patience moved carried result }
    ensures few { turn_bytes result ≡ 0 }
{
    if u64::from(carried.turns) + 1 < u64::from(patience) {
        TurnEnd::Blocked(Carried {
            turns: carried.turns + 1,
            moved,
        })
    } else if moved.bytes == 0 {
        TurnEnd::Reply(Reply::Fail(Errno::EINTR))
    } else {
        TurnEnd::Reply(Reply::Count(moved.bytes))
    }
}

/// The end of a turn of a call that went outside and did not keep the table, by the outcome that came and fits: a
/// success is the call's reply; the failure EAGAIN may make it wait, and every other one is its reply. The bytes
/// of a read take the room with them, which has to be as many bytes as the read asks, whatever they are; there are
/// no more than it had (`few`).
pub fn end_outside(
    errand: Errand,
    outcome: &Outcome,
    patience: u32,
    carried: Carried,
    room: &mut Vec<u8>,
) -> TurnEnd
    ensures ends { fits errand.kind errand.asked outcome.now ≡ true
        → bytes_asked errand ≤ length room.old.items
        → EndsOutside patience carried errand outcome.now result }
    ensures few { turn_bytes result ≤ length room.old.items }
{
    let (value, bytes) = match outcome {
        Outcome::Ok { value, bytes } => (*value, bytes),
        Outcome::Fail(error) => return fail_outside(errand, *error, patience, carried),
    };
    TurnEnd::Reply(match errand.kind {
        OutKind::Read => Reply::Data(filled(room, bytes.as_slice())),
        OutKind::Write => Reply::Count(value),
        OutKind::Seek => seek_reply(value),
        _ => Reply::Done,
    })
}

/// A copy of a reply. Its bytes take the room with them, which has to
/// be as many bytes as there are in the reply, whatever
/// they are.
pub fn copied(reply: &Reply, room: &mut Vec<u8>) -> Reply
    ensures { reply_bytes reply.now ≤ length room.old.items → result ≡ reply.now }
{
    match reply {
        Reply::Count(count) => Reply::Count(*count),
        Reply::Data(bytes) => Reply::Data(filled(room, bytes.as_slice())),
        Reply::Number(number) => Reply::Number(*number),
        Reply::Pair(first, second) => Reply::Pair(*first, *second),
        Reply::Stat {
            kind,
            number,
            links,
        } => Reply::Stat {
            kind: *kind,
            number: *number,
            links: *links,
        },
        Reply::Done => Reply::Done,
        Reply::Fail(error) => Reply::Fail(*error),
    }
}

// A copy of these bytes in the room, in which nothing is left; of more than there is room for, the first.
fn filled(room: &mut Vec<u8>, bytes: &[u8]) -> Bytes
    ensures { result ≡ take (length room.old.items) bytes.now }
{
    let alloc = *room.allocator();
    let mut copy = replace(room, Vec::new(alloc));
    copy.truncate(bytes.len());
    let count = copy.len();
    copy.copy_from_slice(&bytes[..count]);
    Bytes::from_vec(copy)
}

// The reply of a seek that ended at this offset. None that fits is beyond those of this type.
fn seek_reply(offset: u64) -> Reply
    ensures number { nat_le offset 9223372036854775807 ≡ true → result ≡ Number (pos offset) }
    ensures few { reply_bytes result ≡ 0 }
{
    match i64::try_from(offset) {
        Ok(offset) => Reply::Number(offset),
        Err(_) => Reply::Fail(Errno::EOVERFLOW),
    }
}

// The end of a turn of a call that failed outside.
pub(crate) fn fail_outside(errand: Errand, error: Errno, patience: u32, carried: Carried) -> TurnEnd
    ensures ends { EndsOutside patience carried errand (failure error) result }
    ensures few { turn_bytes result ≡ 0 }
{
    if errand.waits && error == Errno::EAGAIN {
        return blocked(patience, Moved::NOTHING, carried);
    }
    TurnEnd::Reply(Reply::Fail(error))
}
