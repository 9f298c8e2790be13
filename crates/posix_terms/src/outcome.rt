ghost use Rattle.std.specs.Prelude.{◌≡◌, List, IfOk};
ghost use Rattle.posix_terms.specs.Outcomes.{answers, fits, is_at, suits};
ghost use Rattle.posix_terms.specs.declared.outcome.Given.{Given};

use crate::bytes::Bytes;
use crate::errno::Errno;
use crate::limits::Limits;
use crate::request::Request;
use crate::transcript::Turn;
use std::alloc::AllocError;
use std::marker::Model;

/// What a call asks of a door to the outside.
#[derive(Clone, Copy, Debug, PartialEq, Eq, Hash)]
pub enum OutKind {
    Open,
    Read,
    Write,
    Seek,
    Listen,
    Connect,
    Accept,
    Shutdown,
    Close,
}

/// What came back from outside: a value and, from a read, bytes; or a failure.
#[derive(Debug, PartialEq, Eq, Drop)]
pub enum Outcome {
    Ok { value: u64, bytes: Bytes },
    Fail(Errno),
}

impl Outcome {
    /// Whether the outcome answers a request of this kind that asks this: for a read and a write the count
    /// of bytes, for a listener the port, or 0 for any port, for a connection the port of its peer, and for the
    /// other kinds 0. Every failure fits.
    #[tactic(auto, unfolding(crate::specs::Outcomes::fits))]
    pub fn fits(&self, kind: OutKind, asked: u64) -> bool
        ensures { result ≡ fits kind asked self.now }
    {
        let Outcome::Ok { value, bytes } = self else {
            return true;
        };
        let value = *value;
        let bytes = bytes.as_slice();
        match kind {
            OutKind::Read => value == bytes.len() as u64 && value <= asked,
            OutKind::Write => value <= asked && bytes.is_empty(),
            OutKind::Seek => value <= i64::MAX as u64 && bytes.is_empty(),
            OutKind::Listen => {
                (1..=Limits::PORT).contains(&value)
                    && (asked == 0 || value == asked)
                    && bytes.is_empty()
            }
            OutKind::Open
            | OutKind::Connect
            | OutKind::Accept
            | OutKind::Shutdown
            | OutKind::Close => value == 0 && bytes.is_empty(),
        }
    }

    /// A copy of the outcome.
    pub fn try_clone(&self) -> Result<Outcome, AllocError>
        ensures { IfOk result (λ outcome. outcome ≡ self.now) }
    {
        Ok(match self {
            Outcome::Ok { value, bytes } => Outcome::Ok {
                value: *value,
                bytes: bytes.try_clone()?,
            },
            Outcome::Fail(error) => Outcome::Fail(*error),
        })
    }
}

/// One outcome of a thread's list, with the kind of the request that it answers.
#[derive(Debug, PartialEq, Eq, Drop)]
pub struct Given {
    pub kind: OutKind,
    /// The logical clock of the granted turn that it belongs to, where that is known: it answers
    /// no request of another clock then.
    pub clock: Option<u64>,
    pub outcome: Outcome,
}

impl Given {
    /// Whether this answers the request: it is of the request's kind, its outcome fits what was
    /// asked, and its clock, where it has one, is that of the request's turn.
    pub fn answers(&self, request: &Request) -> bool
        ensures { result ≡ answers request.now self.now }
    {
        self.suits(request.kind, request.asked) && self.is_at(request.turn)
    }

    /// Whether this is an outcome of this kind that fits what was asked, at whatever turn.
    pub fn suits(&self, kind: OutKind, asked: u64) -> bool
        ensures { result ≡ suits kind asked self.now }
    {
        self.kind == kind && self.outcome.fits(kind, asked)
    }

    /// Whether it may belong to this turn: it has no clock, or this one.
    pub fn is_at(&self, turn: Turn) -> bool
        ensures { result ≡ is_at turn self.now.clock }
    {
        match self.clock {
            Some(clock) => clock == turn.clock,
            None => true,
        }
    }
}

/// The outcomes of one thread, in order. Contracts see the list of them.
#[derive(Debug, Drop)]
pub struct Outcomes {
    list: Vec<Given>,
}

impl Model for Outcomes {
    ghost Value = { List Given };

    ghost view = { λ o. o.list.items };
}

impl Outcomes {
    /// The outcomes of a thread. It takes no memory.
    pub fn from_vec(list: Vec<Given>) -> Outcomes
        ensures { result ≡ list.items }
    {
        Outcomes { list }
    }

    /// The outcomes, in order.
    pub fn as_slice(&self) -> &[Given]
        ensures { result.now ≡ self.now }
    {
        self.list.as_slice()
    }
}
