ghost use Rattle.std.specs.Prelude.{IfErr, IfOk, Ok};
ghost use Rattle.host_doors.specs.Channels.{DoorGave, DoorTook};
ghost use Rattle.host_doors.specs.Files.{IsNotMade, IsNotOpened, IsOpened};

use crate::asked::{directions_to_end, file_to_open, place_to_seek, port_of};
use crate::channel::Channel;
use crate::opener::Opener;
use crate::options::HostOptions;
use posix_terms::Request;
use std::fs::{File, OpenOptions};
use std::io;
use std::io::{ErrorKind, Seek};
use std::net::{Net, TcpListener, TcpStream};
use std::thread::sleep;
use std::time::{Clock, Duration, Instant};

/// A door to the host. It has parameters so that contracts of reads and writes speak of whatever file or
/// stream there is.
#[derive(Drop)]
pub enum HostDoor<F = File, L = TcpListener, S = TcpStream> {
    File(F),
    Listener(L),
    Stream(S),
}

/// What is read and written is the file's or the stream's. `InvalidInput` at a listener.
impl<F: Channel, L, S: Channel> Channel for HostDoor<F, L, S> {
    ghost gave = { DoorGave F.gave S.gave };

    ghost took = { DoorTook F.took S.took };

    fn read_once(&mut self, room: &mut [u8]) -> io::Result<usize> {
        match self {
            HostDoor::File(file) => file.read_once(room),
            HostDoor::Stream(stream) => stream.read_once(room),
            HostDoor::Listener(_) => Err(ErrorKind::InvalidInput.into()),
        }
    }

    fn write_once(&mut self, bytes: &[u8]) -> io::Result<usize> {
        match self {
            HostDoor::File(file) => file.write_once(bytes),
            HostDoor::Stream(stream) => stream.write_once(bytes),
            HostDoor::Listener(_) => Err(ErrorKind::InvalidInput.into()),
        }
    }
}

/// The address of listeners and connections.
const LOOPBACK: &str = "127.0.0.1";

/// The host file that the request opens. One that is missing is made also where it is opened for reading
/// alone, and one that is opened to append may be cut, as by `open`.
pub(crate) fn open_file<F: Drop, O: Opener<F>>(opener: &O, request: &Request) -> io::Result<F>
    ensures opened { IfOk result (IsOpened O.opened O.cut request.now.call) }
    ensures failed { IfErr result (IsNotOpened O.opened O.cut request.now.call) }
{
    let wanted = file_to_open(&request.call)?;
    let how = HostOptions::new(wanted.access, wanted.flags);
    let file = if how.makes {
        open_or_make(opener, wanted.path, &how.options)?
    } else {
        opener.open_once(&how.options, wanted.path)?
    };
    if how.cuts {
        opener.cut_once(&file)?;
    }
    Ok(file)
}

/// Opens a file, and makes it first where it is missing.
fn open_or_make<F: Drop, O: Opener<F>>(
    opener: &O,
    path: &str,
    options: &OpenOptions,
) -> io::Result<F>
    ensures opened { IfOk result (λ file. O.opened options.now path.now (Ok file)) }
    ensures failed { IfErr result (IsNotMade O.opened options.now path.now) }
{
    match opener.open_once(options, path) {
        Err(error) if error.kind() == ErrorKind::NotFound => {
            let mut making = File::options();
            making.write(true).create(true);
            opener.open_once(&making, path)?;
            opener.open_once(options, path)
        }
        opened => opened,
    }
}

/// A listener that never waits by itself, and its port.
pub(crate) fn listen<R: Net<Listener = TcpListener, Stream = TcpStream>>(
    rt: &R,
    request: &Request,
) -> io::Result<(TcpListener, u16)> {
    let listener = TcpListener::bind(rt, (LOOPBACK, port_of(request.asked)?))?;
    listener.set_nonblocking(true)?;
    let port = listener.local_addr()?.port();
    Ok((listener, port))
}

/// A stream to the port that was asked for.
pub(crate) fn connect<R: Net<Listener = TcpListener, Stream = TcpStream>>(
    rt: &R,
    request: &Request,
) -> io::Result<TcpStream> {
    TcpStream::connect(rt, (LOOPBACK, port_of(request.asked)?))
}

/// The stream, whose reads and writes wait no longer than this where they wait. It stays as it is without a bound,
/// and with one of no time, which the host has none for: then no call is to wait.
pub(crate) fn bounded(stream: TcpStream, longest: Option<Duration>) -> io::Result<TcpStream> {
    if longest.is_some_and(|wait| !wait.is_zero()) {
        stream.set_read_timeout(longest)?;
        stream.set_write_timeout(longest)?;
    }
    Ok(stream)
}

impl HostDoor {
    /// Moves the offset of a file. `InvalidInput` at any other door.
    pub(crate) fn seek(&mut self, request: &Request) -> io::Result<u64> {
        match self {
            HostDoor::File(file) => file.seek(place_to_seek(&request.call)?),
            HostDoor::Listener(_) | HostDoor::Stream(_) => Err(ErrorKind::InvalidInput.into()),
        }
    }

    /// Takes a connection of a listener, which blocks as any other stream does: on some systems it would not,
    /// since the listener never waits. `InvalidInput` at any other door.
    pub(crate) fn accept(&self) -> io::Result<TcpStream> {
        match self {
            HostDoor::Listener(listener) => {
                let (stream, _) = listener.accept()?;
                stream.set_nonblocking(false)?;
                Ok(stream)
            }
            HostDoor::File(_) | HostDoor::Stream(_) => Err(ErrorKind::InvalidInput.into()),
        }
    }

    /// The same. Where there is no connection it looks again, a millisecond apart, until so much time is over.
    pub(crate) fn accept_within<C: Clock>(
        &self,
        clock: &C,
        wait: Duration,
    ) -> io::Result<TcpStream> {
        if wait.is_zero() {
            return self.accept();
        }
        let begun = Instant::now(clock)?;
        // Each sleep takes a millisecond or more, except for the last, so there are never more of them.
        for _ in 0..=wait.as_millis() {
            match self.accept() {
                Err(error) if error.kind() == ErrorKind::WouldBlock => {}
                found => return found,
            }
            let left = wait.saturating_sub(begun.elapsed(clock)?);
            if left.is_zero() {
                break;
            }
            sleep(clock, left.min(Duration::from_millis(1)));
        }
        self.accept()
    }

    /// Has the reads and writes of a stream wait from now on, or not. Any other door stays as it is.
    pub(crate) fn set_waits(&self, waits: bool) -> io::Result<()> {
        match self {
            HostDoor::Stream(stream) => stream.set_nonblocking(!waits),
            HostDoor::File(_) | HostDoor::Listener(_) => Ok(()),
        }
    }

    /// Ends directions of a stream. `InvalidInput` at any other door.
    pub(crate) fn end(&self, request: &Request) -> io::Result<()> {
        match self {
            HostDoor::Stream(stream) => stream.shutdown(directions_to_end(&request.call)?),
            HostDoor::File(_) | HostDoor::Listener(_) => Err(ErrorKind::InvalidInput.into()),
        }
    }
}
