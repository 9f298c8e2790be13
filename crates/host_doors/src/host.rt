ghost use Rattle.std.specs.Prelude.{◌≡◌, true, [], Ok, None, Some, IfErr, IfOk, IfSome, IsOk};
ghost use Rattle.std.specs.Prelude.{OnErr};
ghost use Rattle.std.specs.IoError.{error_kind};
ghost use Rattle.posix_terms.specs.Outcomes.{fits};
ghost use Rattle.posix_terms.specs.declared.errno.Errno.TheVariants as errno;
ghost use Rattle.posix_terms.specs.declared.outcome.OutKind.TheVariants as kind;
ghost use Rattle.posix_terms.specs.declared.outcome.Outcome.TheVariants as outcome;
ghost use Rattle.host_doors.specs.declared.counts.Counts.{Counts};
ghost use Rattle.host_doors.specs.Asked.{bytes_of};
ghost use Rattle.host_doors.specs.Channels.{TellsRead, TellsWrite};
ghost use Rattle.host_doors.specs.Counting.{counted};
ghost use Rattle.host_doors.specs.Giving.{CanCount};
ghost use Rattle.host_doors.specs.Host.{GivesAny, error_of};
ghost use Rattle.host_doors.specs.Opening.{outcome_of, HasDoor};

use crate::channel::{Channel, read_asked, write_asked};
use crate::counts::Counts;
use crate::door::{HostDoor, bounded, connect, listen, open_file};
use crate::error::error_of;
use crate::opened::Opened;
use crate::outside::Outside;
use crate::stop::DoorStop;
use posix_terms::{Bytes, Errno, Outcome, Request};
use std::alloc::Global;
use std::fs::{File, Files};
use std::io;
use std::marker::Model;
use std::net::{Net, TcpListener, TcpStream};
use std::time::{Clock, Duration};

/// The real outside: host files, and TCP on the loopback address. Contracts see the counts of outcomes given
/// and of failures.
///
/// A failure has the code of the error that the host names, where the host names it as a kind of its own:
/// `ENOENT`, `EACCES`, `EEXIST`, `EAGAIN`, `EINTR`, `EPIPE`, `ECONNREFUSED`, `ECONNRESET`, `EADDRINUSE`,
/// `ETIMEDOUT` or `EINVAL`. Every other failure is `EIO`: a full device, a directory, or a value that does
/// not answer the request. A door of another kind is `EINVAL`, and so is a call that lacks what the request
/// needs: a path in UTF-8, bytes or an offset. An opening passes `O_EXCL` and `O_NONBLOCK` by. A `close` always
/// succeeds, since what the host says to it is not returned.
///
/// How long a read or a write of a stream and an accept wait for the peer is said where the outside is made. No
/// contract states it, and no other call has a bound: a `connect` waits where too many connections are under way, and
/// so does the opening of a named pipe.
#[derive(Drop)]
pub struct HostDoors<R> {
    rt: R,
    alloc: Global,
    /// The longest that a call waits for its peer, where that has a bound.
    longest: Option<Duration>,
    counts: Counts,
}

impl<R> Model for HostDoors<R> {
    ghost Value = { Counts };

    ghost view = { λ d. d.counts };
}

impl<R> HostDoors<R> {
    /// No outcome was given yet. The memory for what is read comes from `alloc`. A read or a write of a stream
    /// waits for as long as the peer likes, also where the call is not to wait; an accept never waits.
    pub fn new(rt: R, alloc: Global) -> HostDoors<R>
        ensures { result ≡ record { given = 0; failures = 0 } }
    {
        HostDoors {
            rt,
            alloc,
            longest: None,
            counts: Counts::NONE,
        }
    }

    /// As `new`, but a read or a write of a stream and an accept wait no longer than `wait`, and then fail with
    /// `EAGAIN`. Where the call is not to wait, or `wait` is zero, they take what is there, or fail with
    /// `EAGAIN` at once. A stream keeps the bound with which it was opened.
    pub fn waiting(rt: R, alloc: Global, wait: Duration) -> HostDoors<R>
        ensures { result ≡ record { given = 0; failures = 0 } }
    {
        let mut doors = HostDoors::new(rt, alloc);
        doors.longest = Some(wait);
        doors
    }

    /// How long an accept is to wait for a connection.
    fn time_to_accept(&self, waits: bool) -> Duration {
        match self.longest {
            Some(wait) if waits => wait,
            _ => Duration::ZERO,
        }
    }

    /// Has the next read or write of a stream wait or not. Without a bound each of them waits.
    fn set_waits(&self, door: &HostDoor, waits: bool) -> io::Result<()> {
        match self.longest {
            Some(wait) => door.set_waits(waits && !wait.is_zero()),
            None => Ok(()),
        }
    }

    /// Counts a failure.
    fn fail(&mut self, error: Errno) -> Outcome
        requires count { CanCount self.old.given self.old.failures }
        ensures outcome { result ≡ outcome.Fail error }
        ensures counted { self.new ≡ counted self.old result }
    {
        let outcome = Outcome::Fail(error);
        self.counts.count(&outcome);
        outcome
    }

    /// Counts a success, or `EIO` where what the host gave does not answer the request.
    #[tactic(auto, unfolding(posix_terms::specs::Outcomes::fits))]
    fn succeed(&mut self, request: &Request, value: u64, bytes: Bytes) -> Outcome
        requires count { CanCount self.old.given self.old.failures }
        ensures fits { fits request.now.kind request.now.asked result ≡ true }
        ensures value { fits request.now.kind request.now.asked (outcome.Ok value bytes) ≡ true
            → result ≡ outcome.Ok value bytes }
        ensures counted { self.new ≡ counted self.old result }
    {
        let outcome = Outcome::Ok { value, bytes };
        if !outcome.fits(request.kind, request.asked) {
            return self.fail(Errno::EIO);
        }
        self.counts.count(&outcome);
        outcome
    }

    /// The outcome of what the host gave, where it has no bytes.
    #[tactic(auto, unfolding(posix_terms::specs::Outcomes::fits))]
    fn answer(&mut self, request: &Request, found: io::Result<u64>) -> Outcome
        requires count { CanCount self.old.given self.old.failures }
        ensures fits { fits request.now.kind request.now.asked result ≡ true }
        ensures value { IfOk found (λ value. fits request.now.kind request.now.asked
            (outcome.Ok value []) ≡ true → result ≡ outcome.Ok value []) }
        ensures error { IfErr found (λ error. result ≡ outcome.Fail (error_of (error_kind error))) }
        ensures counted { self.new ≡ counted self.old result }
    {
        match found {
            Ok(value) => self.succeed(request, value, Bytes::from_vec(Vec::new(self.alloc))),
            Err(error) => self.fail(error_of(error.kind())),
        }
    }

    /// What comes of one read of the channel, with room for the bytes that were asked.
    #[tactic(auto, unfolding(posix_terms::specs::Outcomes::fits))]
    fn read_from<C: Channel>(
        &mut self,
        request: &Request,
        channel: &mut C,
    ) -> Result<Outcome, DoorStop>
        requires count { CanCount self.old.given self.old.failures }
        ensures gives { GivesAny request.now self.old self.new result }
        ensures read { IfOk result (TellsRead C.gave channel.old channel.new request.now) }
        ensures same { OnErr result (channel.new ≡ channel.old) }
    {
        match read_asked(channel, self.alloc, request.asked)? {
            Ok(bytes) => {
                let count = bytes.as_slice().len() as u64;
                Ok(self.succeed(request, count, bytes))
            }
            Err(error) => Ok(self.fail(error_of(error.kind()))),
        }
    }

    /// What comes of one write to the channel, of as many of the call's bytes as were asked.
    #[tactic(auto, unfolding(posix_terms::specs::Outcomes::fits))]
    fn write_to<C: Channel>(&mut self, request: &Request, channel: &mut C) -> Outcome
        requires count { CanCount self.old.given self.old.failures }
        ensures fits { fits request.now.kind request.now.asked result ≡ true }
        ensures counted { self.new ≡ counted self.old result }
        ensures wrote { IfSome (bytes_of request.now.call)
            (λ bytes. TellsWrite C.took channel.old channel.new request.now bytes result) }
        ensures invalid { bytes_of request.now.call ≡ None → result ≡ outcome.Fail errno.EINVAL }
        ensures same { bytes_of request.now.call ≡ None → channel.new ≡ channel.old }
    {
        let found = write_asked(channel, request);
        self.answer(request, found)
    }

    /// The outcome of an opening, with the door that the host gave and its value.
    #[tactic(auto, unfolding(posix_terms::specs::Outcomes::fits))]
    fn answer_opening(
        &mut self,
        request: &Request,
        found: io::Result<(HostDoor, u64)>,
    ) -> Opened<HostDoor>
        requires count { CanCount self.old.given self.old.failures }
        ensures fits { fits request.now.kind request.now.asked result.outcome ≡ true }
        ensures value { IfOk found (λ opened. fits request.now.kind request.now.asked
            (outcome.Ok opened.1 []) ≡ true → (result.outcome ≡ outcome.Ok opened.1 [])
            × (result.door ≡ Some opened.0)) }
        ensures error { IfErr found (λ error. result.outcome
            ≡ outcome.Fail (error_of (error_kind error))) }
        ensures counted { self.new ≡ counted self.old result.outcome }
        ensures door { HasDoor result.outcome result.door }
    {
        let (door, value) = match found {
            Ok(opened) => opened,
            Err(error) => {
                return Opened {
                    outcome: self.fail(error_of(error.kind())),
                    door: None,
                };
            }
        };
        let outcome = self.succeed(request, value, Bytes::from_vec(Vec::new(self.alloc)));
        let door = match &outcome {
            Outcome::Ok { .. } => Some(door),
            Outcome::Fail(_) => None,
        };
        Opened { outcome, door }
    }
}

impl<R: Files<File = File> + Net<Listener = TcpListener, Stream = TcpStream> + Clock> Outside
    for HostDoors<R> {
    type Door = HostDoor;

    ghost given = { λ d. d.given };

    ghost failures = { λ d. d.failures };

    ghost gives = { λ old _ request o new. GivesAny request old new (Ok o) };

    fn open(
        &mut self,
        _thread: usize,
        _number: u64,
        request: &Request,
    ) -> Result<Opened<HostDoor>, DoorStop>
        requires count { CanCount self.old.given self.old.failures }
        ensures gives { GivesAny request.now self.old self.new (outcome_of result) }
        ensures ok { IsOk result }
        ensures door { IfOk result (λ o. HasDoor o.outcome o.door) }
    {
        let found = open_file(&self.rt, request);
        Ok(self.answer_opening(request, found.map(|file| (HostDoor::File(file), 0))))
    }

    #[tactic(auto, unfolding(posix_terms::specs::Outcomes::fits))]
    fn read(
        &mut self,
        _thread: usize,
        _number: u64,
        request: &Request,
        door: &mut HostDoor,
        waits: bool,
    ) -> Result<Outcome, DoorStop>
        requires count { CanCount self.old.given self.old.failures }
        ensures { GivesAny request.now self.old self.new result }
    {
        if let Err(error) = self.set_waits(door, waits) {
            return Ok(self.fail(error_of(error.kind())));
        }
        self.read_from(request, door)
    }

    #[tactic(auto, unfolding(posix_terms::specs::Outcomes::fits))]
    fn write(
        &mut self,
        _thread: usize,
        _number: u64,
        request: &Request,
        door: &mut HostDoor,
        waits: bool,
    ) -> Result<Outcome, DoorStop>
        requires count { CanCount self.old.given self.old.failures }
        ensures gives { GivesAny request.now self.old self.new result }
        ensures ok { IsOk result }
    {
        if let Err(error) = self.set_waits(door, waits) {
            return Ok(self.fail(error_of(error.kind())));
        }
        Ok(self.write_to(request, door))
    }

    fn seek(
        &mut self,
        _thread: usize,
        _number: u64,
        request: &Request,
        door: &mut HostDoor,
    ) -> Result<Outcome, DoorStop>
        requires count { CanCount self.old.given self.old.failures }
        ensures gives { GivesAny request.now self.old self.new result }
        ensures ok { IsOk result }
    {
        Ok(self.answer(request, door.seek(request)))
    }

    fn listen(
        &mut self,
        _thread: usize,
        _number: u64,
        request: &Request,
    ) -> Result<Opened<HostDoor>, DoorStop>
        requires count { CanCount self.old.given self.old.failures }
        ensures gives { GivesAny request.now self.old self.new (outcome_of result) }
        ensures ok { IsOk result }
        ensures door { IfOk result (λ o. HasDoor o.outcome o.door) }
    {
        let found = listen(&self.rt, request);
        let found = found.map(|(listener, port)| (HostDoor::Listener(listener), u64::from(port)));
        Ok(self.answer_opening(request, found))
    }

    fn connect(
        &mut self,
        _thread: usize,
        _number: u64,
        request: &Request,
    ) -> Result<Opened<HostDoor>, DoorStop>
        requires count { CanCount self.old.given self.old.failures }
        ensures gives { GivesAny request.now self.old self.new (outcome_of result) }
        ensures ok { IsOk result }
        ensures door { IfOk result (λ o. HasDoor o.outcome o.door) }
    {
        let longest = self.longest;
        let found = connect(&self.rt, request).and_then(|stream| bounded(stream, longest));
        Ok(self.answer_opening(request, found.map(|stream| (HostDoor::Stream(stream), 0))))
    }

    fn accept(
        &mut self,
        _thread: usize,
        _number: u64,
        request: &Request,
        door: &mut HostDoor,
        waits: bool,
    ) -> Result<Opened<HostDoor>, DoorStop>
        requires count { CanCount self.old.given self.old.failures }
        ensures gives { GivesAny request.now self.old self.new (outcome_of result) }
        ensures ok { IsOk result }
        ensures door { IfOk result (λ o. HasDoor o.outcome o.door) }
    {
        let longest = self.longest;
        let found = door.accept_within(&self.rt, self.time_to_accept(waits));
        let found = found.and_then(|stream| bounded(stream, longest));
        Ok(self.answer_opening(request, found.map(|stream| (HostDoor::Stream(stream), 0))))
    }

    fn shutdown(
        &mut self,
        _thread: usize,
        _number: u64,
        request: &Request,
        door: &mut HostDoor,
    ) -> Result<Outcome, DoorStop>
        requires count { CanCount self.old.given self.old.failures }
        ensures gives { GivesAny request.now self.old self.new result }
        ensures ok { IsOk result }
    {
        let found = door.end(request);
        Ok(self.answer(request, found.map(|()| 0)))
    }

    #[tactic(auto, unfolding(posix_terms::specs::Outcomes::fits))]
    fn close(
        &mut self,
        _thread: usize,
        _number: u64,
        request: &Request,
        door: HostDoor,
    ) -> Result<Outcome, DoorStop>
        requires count { CanCount self.old.given self.old.failures }
        ensures gives { GivesAny request.now self.old self.new result }
        ensures ok { IsOk result }
        ensures closed { request.now.kind ≡ kind.Close → result ≡ Ok (outcome.Ok 0 []) }
    {
        drop(door);
        Ok(self.answer(request, Ok(0)))
    }
}
