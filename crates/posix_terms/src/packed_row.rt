ghost use Rattle.std.specs.Prelude.{◌≡◌, ◌↔◌, ◌<◌, ◌^◌, Some, None, IfOk, IsTrue};
ghost use Rattle.std.specs.Prelude.{is_some, option_copied};
ghost use Rattle.posix_terms.specs.Answers.{reply_of};
ghost use Rattle.posix_terms.specs.Packed.{answer_packed, bytes_in, outcome_packed, thread_packed};
ghost use Rattle.posix_terms.specs.declared.reply.Answer.TheVariants as answer;

use crate::bytes::Bytes;
use crate::call::Call;
use crate::errno::Errno;
use crate::outcome::Outcome;
use crate::reply::{Answer, ObjectKind, Reply};
use crate::transcript::Turn;
use std::alloc::{AllocError, Global};
use std::marker::Model;
use std::mem;

/// A row of a history in 72 bytes, whatever its call holds: so much a turn leaves that was
/// blocked. A reply of some bytes has them beside it, and an outcome stands with its answer in an
/// [`OutcomeRoom`]. Contracts see the [`HistoryRow`](crate::HistoryRow).
#[derive(Debug, Drop)]
pub struct PackedRow {
    call: Call,
    clock: u64,
    course: Course,
}

impl Model for PackedRow {
    ghost use Rattle.posix_terms.specs.Packed.{unpacked};
    ghost use Rattle.posix_terms.specs.declared.transcript.HistoryRow.{HistoryRow};

    ghost Value = { HistoryRow };

    ghost view = { λ r. unpacked r.call r.clock r.course };
}

// What came of a turn, and its thread: that fits in beside each, and would take eight bytes more
// as a field of its own.
#[derive(Debug, Drop)]
enum Course {
    Granted {
        thread: u8,
    },
    Again {
        thread: u8,
    },
    Count {
        thread: u8,
        count: u64,
    },
    Data {
        thread: u8,
        bytes: Bytes,
    },
    Number {
        thread: u8,
        number: i64,
    },
    Pair {
        thread: u8,
        first: i64,
        second: i64,
    },
    Stat {
        thread: u8,
        kind: ObjectKind,
        number: u64,
        links: u64,
    },
    Done {
        thread: u8,
    },
    Fail {
        thread: u8,
        error: Errno,
    },
    Outside {
        thread: u8,
        passage: Box<Passage>,
    },
}

// What came from outside for a turn, and how it was answered then.
#[derive(Debug, Drop)]
struct Passage {
    outcome: Option<Outcome>,
    answer: Option<Answer>,
}

/// The memory that an outcome takes in a row, for it and for its answer.
#[derive(Debug, Drop)]
pub struct OutcomeRoom {
    passage: Box<Passage>,
}

impl OutcomeRoom {
    /// Room for one outcome.
    pub fn new(alloc: Global) -> Result<OutcomeRoom, AllocError> {
        let empty = Passage {
            outcome: None,
            answer: None,
        };
        Ok(OutcomeRoom {
            passage: Box::new(alloc, empty)?,
        })
    }
}

impl PackedRow {
    /// The row of a call that got this turn, of a thread below 256: nothing came from outside for
    /// it yet, and it has no answer. It takes no memory.
    pub fn granted(call: Call, turn: Turn) -> PackedRow
        requires { turn.thread < 2 ^ 8 }
        ensures { result ≡ record { call = call; turn = turn; outcome = None; answer = None } }
    {
        PackedRow {
            call,
            clock: turn.clock,
            course: Course::Granted {
                thread: turn.thread as u8,
            },
        }
    }

    /// The call.
    pub fn call(&self) -> &Call
        ensures { result.now ≡ self.now.call }
    {
        &self.call
    }

    /// The turn that was granted.
    pub fn turn(&self) -> Turn
        ensures { result ≡ self.now.turn }
    {
        Turn {
            clock: self.clock,
            thread: usize::from(self.course.thread()),
        }
    }

    /// What came from outside, once it came.
    pub fn outcome(&self) -> Option<&Outcome>
        ensures { option_copied result ≡ self.now.outcome }
    {
        match &self.course {
            Course::Outside { passage, .. } => passage.outcome.as_ref(),
            _ => None,
        }
    }

    /// Whether it has its answer.
    pub fn is_answered(&self) -> bool
        ensures { result ≡ is_some self.now.answer }
    {
        match &self.course {
            Course::Granted { .. } => false,
            Course::Outside { passage, .. } => passage.answer.is_some(),
            _ => true,
        }
    }

    /// Whether it was answered with a reply, and not blocked.
    pub fn has_reply(&self) -> bool
        ensures { result ≡ is_some (reply_of self.now.answer) }
    {
        match &self.course {
            Course::Granted { .. } | Course::Again { .. } => false,
            Course::Outside { passage, .. } => matches!(passage.answer, Some(Answer::Reply(_))),
            _ => true,
        }
    }

    /// A copy of its reply, if it was answered with one.
    pub fn reply(&self) -> Result<Option<Reply>, AllocError>
        ensures { IfOk result (λ reply. reply ≡ reply_of self.now.answer) }
    {
        Ok(Some(match &self.course {
            Course::Granted { .. } | Course::Again { .. } => return Ok(None),
            Course::Count { count, .. } => Reply::Count(*count),
            Course::Data { bytes, .. } => Reply::Data(bytes.try_clone()?),
            Course::Number { number, .. } => Reply::Number(*number),
            Course::Pair { first, second, .. } => Reply::Pair(*first, *second),
            Course::Stat {
                kind,
                number,
                links,
                ..
            } => Reply::Stat {
                kind: *kind,
                number: *number,
                links: *links,
            },
            Course::Done { .. } => Reply::Done,
            Course::Fail { error, .. } => Reply::Fail(*error),
            Course::Outside { passage, .. } => match &passage.answer {
                Some(Answer::Reply(reply)) => reply.try_clone()?,
                _ => return Ok(None),
            },
        }))
    }

    /// The bytes of its reply, if it was answered with bytes that were read.
    pub fn bytes(&self) -> Option<&[u8]>
        ensures { option_copied result ≡ bytes_in self.now.answer }
    {
        match &self.course {
            Course::Data { bytes, .. } => Some(bytes.as_slice()),
            Course::Outside { passage, .. } => match &passage.answer {
                Some(Answer::Reply(Reply::Data(bytes))) => Some(bytes.as_slice()),
                _ => None,
            },
            _ => None,
        }
    }

    /// Whether it was answered with this reply.
    pub fn is_reply(&self, reply: &Reply) -> bool
        ensures { IsTrue result ↔ (self.now.answer ≡ Some (answer.Reply reply.now)) }
    {
        match (&self.course, reply) {
            (Course::Count { count, .. }, Reply::Count(other)) => count == other,
            (Course::Data { bytes, .. }, Reply::Data(other)) => bytes == other,
            (Course::Number { number, .. }, Reply::Number(other)) => number == other,
            (Course::Done { .. }, Reply::Done) => true,
            (Course::Fail { error, .. }, Reply::Fail(other)) => error == other,
            (Course::Pair { first, second, .. }, other) => {
                *other == Reply::Pair(*first, *second)
            }
            (
                Course::Stat {
                    kind,
                    number,
                    links,
                    ..
                },
                other,
            ) => {
                *other
                    == Reply::Stat {
                        kind: *kind,
                        number: *number,
                        links: *links,
                    }
            }
            (Course::Outside { passage, .. }, other) => match &passage.answer {
                Some(Answer::Reply(reply)) => reply == other,
                _ => false,
            },
            _ => false,
        }
    }

    /// Whether two rows are the same.
    #[tactic(auto, using(crate::proofs::Rows::row_is, crate::proofs::Rows::row_parts))]
    pub fn is_same(&self, other: &PackedRow) -> bool
        ensures { IsTrue result ↔ (self.now ≡ other.now) }
    {
        is_same_call(&self.call, &other.call)
            && is_same_turn(self.turn(), other.turn())
            && is_same_outcome(self.outcome(), other.outcome())
            && self.has_same_answer(other)
    }

    fn has_same_answer(&self, other: &PackedRow) -> bool
        ensures { IsTrue result ↔ (self.now.answer ≡ other.now.answer) }
    {
        match &self.course {
            Course::Granted { .. } => !other.is_answered(),
            Course::Again { .. } => other.is_answered() && !other.has_reply(),
            Course::Count { count, .. } => other.is_reply(&Reply::Count(*count)),
            Course::Data { bytes, .. } => other.bytes() == Some(bytes.as_slice()),
            Course::Number { number, .. } => other.is_reply(&Reply::Number(*number)),
            Course::Pair { first, second, .. } => other.is_reply(&Reply::Pair(*first, *second)),
            Course::Stat {
                kind,
                number,
                links,
                ..
            } => other.is_reply(&Reply::Stat {
                kind: *kind,
                number: *number,
                links: *links,
            }),
            Course::Done { .. } => other.is_reply(&Reply::Done),
            Course::Fail { error, .. } => other.is_reply(&Reply::Fail(*error)),
            Course::Outside { passage, .. } => match &passage.answer {
                None => !other.is_answered(),
                Some(Answer::Again) => other.is_answered() && !other.has_reply(),
                Some(Answer::Reply(reply)) => other.is_reply(reply),
            },
        }
    }

    /// This came from outside, for which there is room.
    pub fn bring(&mut self, room: OutcomeRoom, outcome: Outcome)
        ensures { self.new ≡ record self.old { outcome = Some outcome } }
    {
        let thread = self.course.thread();
        let before = mem::replace(&mut self.course, Course::Granted { thread });
        let mut passage = room.passage;
        *passage = Passage {
            outcome: Some(outcome),
            answer: before.into_answer(),
        };
        self.course = Course::Outside { thread, passage };
    }

    /// It was answered so.
    pub fn answer(&mut self, answer: Answer)
        ensures { self.new ≡ record self.old { answer = Some answer } }
    {
        if let Course::Outside { passage, .. } = &mut self.course {
            passage.answer = Some(answer);
            return;
        }
        self.course = Course::answered(self.course.thread(), answer);
    }
}

fn is_same_call(one: &Call, other: &Call) -> bool
    ensures { IsTrue result ↔ (one.now ≡ other.now) }
{
    one == other
}

fn is_same_turn(one: Turn, other: Turn) -> bool
    ensures { IsTrue result ↔ (one ≡ other) }
{
    one == other
}

fn is_same_outcome(one: Option<&Outcome>, other: Option<&Outcome>) -> bool
    ensures { IsTrue result ↔ (option_copied one.entry ≡ option_copied other.entry) }
{
    match (one, other) {
        (Some(one), Some(other)) => one == other,
        (None, None) => true,
        _ => false,
    }
}

impl Course {
    fn thread(&self) -> u8
        ensures { result ≡ thread_packed self.now }
    {
        match self {
            Course::Granted { thread }
            | Course::Again { thread }
            | Course::Count { thread, .. }
            | Course::Data { thread, .. }
            | Course::Number { thread, .. }
            | Course::Pair { thread, .. }
            | Course::Stat { thread, .. }
            | Course::Done { thread }
            | Course::Fail { thread, .. }
            | Course::Outside { thread, .. } => *thread,
        }
    }

    // That of a turn for which nothing came from outside.
    fn answered(thread: u8, answer: Answer) -> Course
        ensures thread { thread_packed result ≡ thread }
        ensures answer { answer_packed result ≡ Some answer }
        ensures outcome { outcome_packed result ≡ None }
    {
        match answer {
            Answer::Again => Course::Again { thread },
            Answer::Reply(Reply::Count(count)) => Course::Count { thread, count },
            Answer::Reply(Reply::Data(bytes)) => Course::Data { thread, bytes },
            Answer::Reply(Reply::Number(number)) => Course::Number { thread, number },
            Answer::Reply(Reply::Pair(first, second)) => Course::Pair {
                thread,
                first,
                second,
            },
            Answer::Reply(
                Reply::Stat {
                    kind,
                    number,
                    links,
                },
            ) => Course::Stat {
                thread,
                kind,
                number,
                links,
            },
            Answer::Reply(Reply::Done) => Course::Done { thread },
            Answer::Reply(Reply::Fail(error)) => Course::Fail { thread, error },
        }
    }

    fn into_answer(self) -> Option<Answer>
        ensures { result ≡ answer_packed self }
    {
        Some(match self {
            Course::Granted { .. } => return None,
            Course::Again { .. } => Answer::Again,
            Course::Count { count, .. } => Answer::Reply(Reply::Count(count)),
            Course::Data { bytes, .. } => Answer::Reply(Reply::Data(bytes)),
            Course::Number { number, .. } => Answer::Reply(Reply::Number(number)),
            Course::Pair { first, second, .. } => Answer::Reply(Reply::Pair(first, second)),
            Course::Stat {
                kind,
                number,
                links,
                ..
            } => Answer::Reply(Reply::Stat {
                kind,
                number,
                links,
            }),
            Course::Done { .. } => Answer::Reply(Reply::Done),
            Course::Fail { error, .. } => Answer::Reply(Reply::Fail(error)),
            Course::Outside { passage, .. } => return Box::into_inner(passage).answer,
        })
    }
}
