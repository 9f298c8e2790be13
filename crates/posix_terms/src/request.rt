ghost use Rattle.std.specs.Prelude.{◌≡◌, IfOk};

use crate::call::Call;
use crate::outcome::OutKind;
use crate::transcript::Turn;
use std::alloc::AllocError;

/// What a call asks of the outside, with the turn at which it was granted.
#[derive(Debug, PartialEq, Eq, Drop)]
pub struct Request {
    pub kind: OutKind,
    /// For a read and a write the count of bytes; for a listener the port, or 0 for any port; for a
    /// connection the port; else 0.
    pub asked: u64,
    /// The call itself, which says the rest: a path, bytes or an offset.
    pub call: Call,
    /// The call's granted turn. An outcome with a clock answers at this clock alone.
    pub turn: Turn,
}

impl Request {
    /// A copy of the request.
    pub fn try_clone(&self) -> Result<Request, AllocError>
        ensures { IfOk result (λ request. request ≡ self.now) }
    {
        Ok(Request {
            kind: self.kind,
            asked: self.asked,
            call: self.call.try_clone()?,
            turn: self.turn,
        })
    }
}
