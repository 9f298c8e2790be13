ghost use Rattle.std.specs.Prelude.{◌≡◌, ◌↔◌, IfOk, IsTrue, Some};
ghost use Rattle.lock_machine.specs.Requests.{kind_asked};
ghost use Rattle.sequential_object.specs.Meant.{natural_of, request_asked};
ghost use Rattle.worker_notes.specs.Requests.{request_for};

use crate::same::same_call;
use posix_terms::{Call, OutKind, Request, Turn};
use std::alloc::AllocError;

/// The request with which a call goes outside that was granted at this turn, with a copy of the
/// call; none of a call that never goes there.
pub fn request_for(turn: Turn, call: &Call) -> Result<Option<Request>, AllocError>
    ensures { IfOk result (λ request. request ≡ request_for turn call.now) }
{
    let Some(kind) = kind_asked(call) else {
        return Ok(None);
    };
    Ok(Some(Request {
        kind,
        asked: amount_asked(call),
        call: call.try_clone()?,
        turn,
    }))
}

/// Whether this is the request with which a call goes outside that was granted at this turn.
pub fn is_request_of(request: &Request, turn: Turn, call: &Call) -> bool
    ensures { IsTrue result ↔ (request_for turn call.now ≡ Some request.now) }
{
    kind_asked(call) == Some(request.kind)
        && amount_asked(call) == request.asked
        && request.turn == turn
        && same_call(&request.call, call)
}

// The kind of the request, if the call may go outside.
pub fn kind_asked(call: &Call) -> Option<OutKind>
    ensures { result ≡ kind_asked call.now }
{
    match call {
        Call::HostOpen { .. } => Some(OutKind::Open),
        Call::TcpListen { .. } => Some(OutKind::Listen),
        Call::TcpConnect { .. } => Some(OutKind::Connect),
        Call::TcpAccept { .. } => Some(OutKind::Accept),
        Call::Read { .. } => Some(OutKind::Read),
        Call::Write { .. } => Some(OutKind::Write),
        Call::Lseek { .. } => Some(OutKind::Seek),
        Call::Shutdown { .. } => Some(OutKind::Shutdown),
        Call::Close { .. } => Some(OutKind::Close),
        _ => None,
    }
}

fn amount_asked(call: &Call) -> u64
    ensures { result ≡ request_asked call.now }
{
    match call {
        Call::Read { count, .. } => counted(*count),
        Call::Write { bytes, .. } => bytes.as_slice().len() as u64,
        Call::TcpListen { port } | Call::TcpConnect { port } => counted(*port),
        _ => 0,
    }
}

fn counted(number: i64) -> u64
    ensures { result ≡ natural_of number }
{
    if number < 0 { 0 } else { number as u64 }
}
