use host_doors::DoorStop;
use posix_terms::{Bytes, Call, Errno, OutKind, Outcome, Request, Turn};
use std::alloc::{AllocError, Global};

/// A success with this value and these bytes.
pub(crate) fn success(alloc: Global, value: u64, bytes: &[u8]) -> Result<Outcome, AllocError> {
    Ok(Outcome::Ok {
        value,
        bytes: Bytes::from_slice(alloc, bytes)?,
    })
}

/// The turn of each request in these tests.
pub(crate) const FIRST_TURN: Turn = Turn {
    clock: 1,
    thread: 0,
};

/// A request whose call says nothing more.
pub(crate) fn plain(kind: OutKind, asked: u64) -> Request {
    Request {
        kind,
        asked,
        call: Call::Close { descriptor: 3 },
        turn: FIRST_TURN,
    }
}

/// What comes of a request.
#[derive(Clone, Copy)]
pub enum WantedOutcome {
    /// A success with this value and these bytes.
    Success(u64, &'static [u8]),
    Failure(Errno),
}

/// Whether what came is this.
pub(crate) fn is_so(came: &Result<Outcome, DoorStop>, wanted: &WantedOutcome) -> bool {
    match (came, wanted) {
        (Ok(Outcome::Ok { value, bytes }), WantedOutcome::Success(count, data)) => {
            value == count && bytes.as_slice() == *data
        }
        (Ok(Outcome::Fail(found)), WantedOutcome::Failure(error)) => found == error,
        _ => false,
    }
}
