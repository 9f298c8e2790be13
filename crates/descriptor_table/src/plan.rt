ghost use Rattle.std.specs.Prelude.{◌≡◌};
ghost use Rattle.sequential_object.specs.Meant.{natural_of, request_asked, request_kind};
ghost use Rattle.descriptor_table.specs.Plans.{errand_of, is_refused, op_of, plan_of};

use posix_terms::{Call, Errno, OutKind, Reply};
use sequential_object::{Act, Decision, Deed};

/// What a call asks of the outside.
#[derive(Clone, Copy, Debug, PartialEq, Eq)]
pub struct Errand {
    pub kind: OutKind,
    /// For a read and a write the count of bytes; for a listener the port, or 0 for any port; for a
    /// connection the port; else 0.
    pub asked: u64,
    /// Whether the failure EAGAIN is not a reply, but makes the call wait.
    pub waits: bool,
    /// The object whose door is taken along; none where a file or a listener is opened, or a peer
    /// connected to.
    pub door: Option<usize>,
}

/// What a call does to the object that it locks.
#[derive(Clone, Copy, Debug, PartialEq, Eq)]
pub enum Op {
    Act(Act),
    /// The call goes outside: to the object, which is a door, or for the door that the object becomes.
    Ask(Errand),
}

/// The numbers of the descriptors that a call opened, where its plan does not give them: those of a
/// call that opens a door, which are given only where that succeeds, and those of an act that opens
/// descriptors.
#[derive(Clone, Copy, Debug, PartialEq, Eq)]
pub enum NewNumbers {
    None,
    One(i64),
    Two(i64, i64),
}

/// What the table makes of a call.
#[derive(Debug, PartialEq, Eq, Drop)]
pub enum Plan {
    /// The table alone answers.
    Reply(Reply),
    /// The call takes the lock of an object. `keep_table`: it keeps the table's lock to its answer.
    Node {
        node: usize,
        op: Op,
        keep_table: bool,
    },
}

impl Plan {
    /// Whether the table refuses the call.
    pub fn is_refused(&self) -> bool
        ensures { result ≡ is_refused self.now }
    {
        matches!(self, Plan::Reply(Reply::Fail(_)))
    }
}

// What is left of a decision without its change.
pub(crate) fn plan_of(call: &Call, decided: Result<Decision, Errno>) -> Plan
    ensures { result ≡ plan_of call.now decided }
{
    match decided {
        Ok(Decision::Replies { reply, .. }) => Plan::Reply(reply),
        Ok(Decision::Locks { object, deed }) => Plan::Node {
            node: object,
            op: op_of(call, object, deed),
            keep_table: matches!(deed, Deed::Opens { .. }),
        },
        Err(error) => Plan::Reply(Reply::Fail(error)),
    }
}

fn op_of(call: &Call, object: usize, deed: Deed) -> Op
    ensures { result ≡ op_of call.now object deed }
{
    match deed {
        Deed::Acts { act, .. } => Op::Act(act),
        Deed::Asks { blocks } => Op::Ask(errand_of(call, blocks, Some(object))),
        Deed::Closes { .. } => Op::Ask(errand_of(call, false, Some(object))),
        Deed::Opens {
            blocks,
            listener,
            ..
        } => Op::Ask(errand_of(call, blocks, listener)),
    }
}

/// What a call asks of the outside, which takes along the door of this object. A call that asks
/// nothing has the kind `Close` here.
pub fn errand_of(call: &Call, waits: bool, door: Option<usize>) -> Errand
    ensures { result ≡ errand_of call.now waits door }
{
    Errand {
        kind: request_kind(call),
        asked: request_asked(call),
        waits,
        door,
    }
}

fn request_kind(call: &Call) -> OutKind
    ensures { result ≡ request_kind call.now }
{
    match call {
        Call::Read { .. } => OutKind::Read,
        Call::Write { .. } => OutKind::Write,
        Call::Lseek { .. } => OutKind::Seek,
        Call::Shutdown { .. } => OutKind::Shutdown,
        Call::HostOpen { .. } => OutKind::Open,
        Call::TcpListen { .. } => OutKind::Listen,
        Call::TcpConnect { .. } => OutKind::Connect,
        Call::TcpAccept { .. } => OutKind::Accept,
        _ => OutKind::Close,
    }
}

fn request_asked(call: &Call) -> u64
    ensures { result ≡ request_asked call.now }
{
    match call {
        Call::Read { count, .. } => natural_of(*count),
        Call::Write { bytes, .. } => bytes.as_slice().len() as u64,
        Call::TcpListen { port } | Call::TcpConnect { port } => natural_of(*port),
        _ => 0,
    }
}

fn natural_of(number: i64) -> u64
    ensures { result ≡ natural_of number }
{
    u64::try_from(number).unwrap_or(0)
}
