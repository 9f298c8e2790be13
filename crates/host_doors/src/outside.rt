ghost use Rattle.std.specs.Prelude.{◌≡◌, ℕ, IfOk, OnErr};
ghost use Rattle.posix_terms.specs.declared.outcome.Outcome.{Outcome};
ghost use Rattle.posix_terms.specs.declared.request.Request.{Request};
ghost use Rattle.host_doors.specs.Giving.{CanCount, GivesOne};
ghost use Rattle.host_doors.specs.Opening.{HasDoor};

use crate::opened::Opened;
use crate::stop::DoorStop;
use posix_terms::{Outcome, Request};

/// What one thread reaches outside. Each call has the thread, the number of its outcome among those of the
/// thread, the request and, where there is one, the door. It gives an outcome that answers the request, and
/// with a success of an opening a door; or it says why there is none, and then the outside is as it was.
///
/// A read, a write and an accept are also given what `EAGAIN` makes of them. Where it `waits`, the call is blocked
/// and made again at a later turn; else `EAGAIN` is its reply.
pub trait Outside {
    type Door: Send + Drop;

    /// How many outcomes it gave.
    ghost given: { Self → ℕ };

    /// How many of them were failures.
    ghost failures: { Self → ℕ };

    /// Which outcome of a number it may give to a request: how it stood before, and how it stands after.
    ghost gives: { Self → ℕ → Request → Outcome → Self → Type 0 };

    /// Opens a host file (`open`): path, access and flags are the call's.
    fn open(
        &mut self,
        thread: usize,
        number: u64,
        request: &Request,
    ) -> Result<Opened<Self::Door>, DoorStop>
        requires count { CanCount (given self.old) (failures self.old) }
        ensures gives { IfOk result (λ o. GivesOne given failures gives self.old number request.now
            o.outcome self.new) }
        ensures door { IfOk result (λ o. HasDoor o.outcome o.door) }
        ensures same { OnErr result (self.new ≡ self.old) };

    /// Reads at most the bytes asked for from a host file or a stream (`read`). On a stream it may wait
    /// for the peer.
    fn read(
        &mut self,
        thread: usize,
        number: u64,
        request: &Request,
        door: &mut Self::Door,
        waits: bool,
    ) -> Result<Outcome, DoorStop>
        requires count { CanCount (given self.old) (failures self.old) }
        ensures gives { IfOk result (λ o. GivesOne given failures gives self.old number request.now
            o self.new) }
        ensures same { OnErr result (self.new ≡ self.old) };

    /// Writes the call's bytes, or the first of them, to a host file or a stream (`write`). On a stream it may
    /// wait for the peer.
    fn write(
        &mut self,
        thread: usize,
        number: u64,
        request: &Request,
        door: &mut Self::Door,
        waits: bool,
    ) -> Result<Outcome, DoorStop>
        requires count { CanCount (given self.old) (failures self.old) }
        ensures gives { IfOk result (λ o. GivesOne given failures gives self.old number request.now
            o self.new) }
        ensures same { OnErr result (self.new ≡ self.old) };

    /// Moves the offset of a host file (`lseek`). The value is the new offset.
    fn seek(
        &mut self,
        thread: usize,
        number: u64,
        request: &Request,
        door: &mut Self::Door,
    ) -> Result<Outcome, DoorStop>
        requires count { CanCount (given self.old) (failures self.old) }
        ensures gives { IfOk result (λ o. GivesOne given failures gives self.old number request.now
            o self.new) }
        ensures same { OnErr result (self.new ≡ self.old) };

    /// Makes a listener on the loopback address (`socket`, `bind`, `listen`). The value is its port.
    fn listen(
        &mut self,
        thread: usize,
        number: u64,
        request: &Request,
    ) -> Result<Opened<Self::Door>, DoorStop>
        requires count { CanCount (given self.old) (failures self.old) }
        ensures gives { IfOk result (λ o. GivesOne given failures gives self.old number request.now
            o.outcome self.new) }
        ensures door { IfOk result (λ o. HasDoor o.outcome o.door) }
        ensures same { OnErr result (self.new ≡ self.old) };

    /// Makes a stream to a port of the loopback address (`connect`). It may wait for the peer.
    fn connect(
        &mut self,
        thread: usize,
        number: u64,
        request: &Request,
    ) -> Result<Opened<Self::Door>, DoorStop>
        requires count { CanCount (given self.old) (failures self.old) }
        ensures gives { IfOk result (λ o. GivesOne given failures gives self.old number request.now
            o.outcome self.new) }
        ensures door { IfOk result (λ o. HasDoor o.outcome o.door) }
        ensures same { OnErr result (self.new ≡ self.old) };

    /// Takes a connection of a listener (`accept`). Where there is none it answers `EAGAIN`; it may wait for one
    /// before that.
    fn accept(
        &mut self,
        thread: usize,
        number: u64,
        request: &Request,
        door: &mut Self::Door,
        waits: bool,
    ) -> Result<Opened<Self::Door>, DoorStop>
        requires count { CanCount (given self.old) (failures self.old) }
        ensures gives { IfOk result (λ o. GivesOne given failures gives self.old number request.now
            o.outcome self.new) }
        ensures door { IfOk result (λ o. HasDoor o.outcome o.door) }
        ensures same { OnErr result (self.new ≡ self.old) };

    /// Ends one direction of a stream or both (`shutdown`).
    fn shutdown(
        &mut self,
        thread: usize,
        number: u64,
        request: &Request,
        door: &mut Self::Door,
    ) -> Result<Outcome, DoorStop>
        requires count { CanCount (given self.old) (failures self.old) }
        ensures gives { IfOk result (λ o. GivesOne given failures gives self.old number request.now
            o self.new) }
        ensures same { OnErr result (self.new ≡ self.old) };

    /// Closes a door (`close`). The door is gone in any case, also where no outcome is given. The host's own
    /// `close` always succeeds.
    fn close(
        &mut self,
        thread: usize,
        number: u64,
        request: &Request,
        door: Self::Door,
    ) -> Result<Outcome, DoorStop>
        requires count { CanCount (given self.old) (failures self.old) }
        ensures gives { IfOk result (λ o. GivesOne given failures gives self.old number request.now
            o self.new) }
        ensures same { OnErr result (self.new ≡ self.old) };
}
