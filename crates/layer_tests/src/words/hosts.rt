ghost use Rattle.std.specs.Prelude.{◌≡◌};

use crate::words::doors::{FIRST_TURN, WantedOutcome, is_so, plain};
use host_doors::{DoorStop, HostDoor, HostDoors, Opened, Outside};
use posix_terms::{
    Access, Call, Errno, OpenFlags, OutKind, Outcome, Request, SharedBytes, ShutdownHow, Whence,
};
use std::alloc::{AllocError, Global};
use std::fs::remove_file;
use std::process;
use std::test::Fail;
use std::thread::{Threads, join, sleep};
use std::time::{Duration, Instant};

/// How a call is made: the longest that it waits for its peer, in milliseconds, where that has a
/// bound; and whether it waits.
#[derive(Clone, Copy)]
struct Way {
    longest: Option<u64>,
    waits: bool,
}

const UNBOUNDED: Way = Way {
    longest: None,
    waits: true,
};

fn host(rt: HostRuntime, way: Way) -> HostDoors<HostRuntime>
    ensures { result ≡ record { given = 0; failures = 0 } }
{
    match way.longest {
        Some(longest) => HostDoors::waiting(rt, rt.alloc(), Duration::from_millis(longest)),
        None => HostDoors::new(rt, rt.alloc()),
    }
}

/// What is asked at a door.
#[derive(Clone, Copy)]
enum Ask {
    Write(&'static [u8]),
    /// A read of at most so many bytes.
    Read(u64),
    Seek(i64, Whence),
    Shut(ShutdownHow),
}

fn request_of(alloc: Global, ask: Ask) -> Result<Request, AllocError> {
    let (kind, asked, call) = match ask {
        Ask::Write(bytes) => {
            let text = SharedBytes::from_slice(alloc, bytes)?;
            let call = Call::Write {
                descriptor: 3,
                bytes: text,
            };
            (OutKind::Write, bytes.len() as u64, call)
        }
        Ask::Read(count) => return Ok(plain(OutKind::Read, count)),
        Ask::Seek(offset, whence) => {
            let call = Call::Lseek {
                descriptor: 3,
                offset,
                whence,
            };
            (OutKind::Seek, 0, call)
        }
        Ask::Shut(how) => (OutKind::Shutdown, 0, Call::Shutdown { descriptor: 3, how }),
    };
    Ok(Request {
        kind,
        asked,
        call,
        turn: FIRST_TURN,
    })
}

/// What comes of a request at a door.
fn reach(
    rt: HostRuntime,
    way: Way,
    request: &Request,
    door: &mut HostDoor,
) -> Result<Outcome, DoorStop> {
    let mut outside = host(rt, way);
    match request.kind {
        OutKind::Read => outside.read(0, 0, request, door, way.waits),
        OutKind::Write => outside.write(0, 0, request, door, way.waits),
        OutKind::Seek => outside.seek(0, 0, request, door),
        _ => outside.shutdown(0, 0, request, door),
    }
}

fn came(rt: HostRuntime, way: Way, ask: Ask, door: &mut HostDoor) -> Result<Outcome, DoorStop> {
    let request = request_of(rt.alloc(), ask)?;
    reach(rt, way, &request, door)
}

/// Whether this comes of what is asked, without a bound.
fn answers(rt: HostRuntime, door: &mut HostDoor, ask: Ask, wanted: WantedOutcome) -> bool {
    is_so(&came(rt, UNBOUNDED, ask, door), &wanted)
}

/// Whether this comes of what is asked, one after another.
fn all_answer(rt: HostRuntime, door: &mut HostDoor, asks: &[(Ask, WantedOutcome)]) -> bool {
    for (ask, wanted) in asks {
        if !answers(rt, door, *ask, *wanted) {
            return false;
        }
    }
    true
}

/// Whether a door is closed.
fn closes(rt: HostRuntime, door: HostDoor) -> bool {
    let came = host(rt, UNBOUNDED).close(0, 0, &plain(OutKind::Close, 0), door);
    is_so(&came, &WantedOutcome::Success(0, b""))
}

/// What comes of a request for a new door.
fn opened(rt: HostRuntime, way: Way, request: &Request) -> Result<Opened<HostDoor>, DoorStop> {
    let mut outside = host(rt, way);
    match request.kind {
        OutKind::Listen => outside.listen(0, 0, request),
        OutKind::Connect => outside.connect(0, 0, request),
        _ => outside.open(0, 0, request),
    }
}

/// The door of an opening, which there is exactly when it succeeded.
fn door_of(made: Result<Opened<HostDoor>, DoorStop>) -> Option<HostDoor> {
    match made {
        Ok(opened) => opened.door,
        Err(_) => None,
    }
}

/// Whether a call for a new door fails so.
fn refuses(made: &Result<Opened<HostDoor>, DoorStop>, wanted: Errno) -> bool {
    match made {
        Ok(
            Opened {
                outcome: Outcome::Fail(error),
                ..
            },
        ) => *error == wanted,
        _ => false,
    }
}

/// The opening of a host file that is made where it is missing, with the two flags that are passed by.
fn opening(alloc: Global, path: &[u8], access: Access) -> Result<Request, AllocError> {
    let call = Call::HostOpen {
        path: SharedBytes::from_slice(alloc, path)?,
        access,
        flags: OpenFlags {
            create: true,
            exclusive: true,
            truncate: false,
            append: false,
            nonblock: true,
        },
    };
    Ok(Request {
        kind: OutKind::Open,
        asked: 0,
        call,
        turn: FIRST_TURN,
    })
}

/// The door of a host file that opens for this access.
fn file_door(rt: HostRuntime, path: &str, access: Access) -> Result<Option<HostDoor>, AllocError> {
    let request = opening(rt.alloc(), path.as_bytes(), access)?;
    Ok(door_of(opened(rt, UNBOUNDED, &request)))
}

/// Whether a host file opens for this access, gives these answers, and is closed.
fn file_answers(
    rt: HostRuntime,
    path: &str,
    access: Access,
    asks: &[(Ask, WantedOutcome)],
) -> Result<bool, AllocError> {
    let Some(mut file) = file_door(rt, path, access)? else {
        return Ok(false);
    };
    let all = all_answer(rt, &mut file, asks);
    Ok(closes(rt, file) && all)
}

const UNREAD: &[(Ask, WantedOutcome)] = &[
    (Ask::Write(b"x"), WantedOutcome::Success(1, b"")),
    (Ask::Read(1), WantedOutcome::Failure(Errno::EIO)),
];

const UNWRITTEN: &[(Ask, WantedOutcome)] = &[
    (Ask::Read(9), WantedOutcome::Success(1, b"x")),
    (Ask::Write(b"y"), WantedOutcome::Failure(Errno::EIO)),
];

// The file is missing at first, and then it is there. The path is one that no other process takes.
#[test]
fn a_host_file_is_used_by_its_access(rt: HostRuntime) -> Result<(), Fail> {
    let id = process::id(rt.process());
    let path = format!(in rt.alloc(); "/tmp/detio_host_doors_{id}")?;
    let _ = remove_file(&rt, path.as_str());
    assert!(rt; file_answers(rt, path.as_str(), Access::WriteOnly, UNREAD)?);
    assert!(rt; file_answers(rt, path.as_str(), Access::ReadOnly, UNWRITTEN)?);
    remove_file(&rt, path.as_str())?;
    Ok(())
}

/// No script spells such a path.
const REFUSED: &[&[u8]] = &[b"/tmp/\xff", b"/tmp/a\0b"];

fn is_refused(rt: HostRuntime, path: &[u8]) -> Result<bool, AllocError> {
    let request = opening(rt.alloc(), path, Access::ReadOnly)?;
    Ok(refuses(&opened(rt, UNBOUNDED, &request), Errno::EINVAL))
}

#[test]
fn paths_that_are_refused(rt: HostRuntime) -> Result<(), Fail> {
    for path in REFUSED {
        assert!(rt; is_refused(rt, path)?);
    }
    Ok(())
}

fn listen(rt: HostRuntime, port: u64) -> Result<Opened<HostDoor>, DoorStop> {
    opened(rt, UNBOUNDED, &plain(OutKind::Listen, port))
}

fn connect(rt: HostRuntime, way: Way, port: u64) -> Result<Opened<HostDoor>, DoorStop> {
    opened(rt, way, &plain(OutKind::Connect, port))
}

fn accept(
    rt: HostRuntime,
    way: Way,
    listener: &mut HostDoor,
) -> Result<Opened<HostDoor>, DoorStop> {
    host(rt, way).accept(0, 0, &plain(OutKind::Accept, 0), listener, way.waits)
}

/// A listener at a port that the host chose.
fn any_listener(rt: HostRuntime) -> Result<(HostDoor, u64), Fail> {
    match listen(rt, 0) {
        Ok(
            Opened {
                outcome: Outcome::Ok { value, .. },
                door: Some(listener),
            },
        ) => Ok((listener, value)),
        _ => Err("a port of the loopback address".into()),
    }
}

/// The connection that is under way to a listener.
fn accepted(rt: HostRuntime, way: Way, listener: &mut HostDoor) -> Option<HostDoor> {
    for _ in 0..1_000 {
        if let Some(stream) = door_of(accept(rt, way, listener)) {
            return Some(stream);
        }
        sleep(&rt, Duration::from_millis(1));
    }
    None
}

/// A stream to a listener at a port, and the one that the listener accepted.
fn connected_to(
    rt: HostRuntime,
    way: Way,
    listener: &mut HostDoor,
    port: u64,
) -> Result<(HostDoor, HostDoor), Fail> {
    match (door_of(connect(rt, way, port)), accepted(rt, way, listener)) {
        (Some(near), Some(far)) => Ok((near, far)),
        _ => Err("a connection, and the other side of it".into()),
    }
}

/// The same with a new listener, which has no connection before.
fn connected(rt: HostRuntime) -> Result<(HostDoor, HostDoor), Fail> {
    let (mut listener, port) = any_listener(rt)?;
    if !refuses(&accept(rt, UNBOUNDED, &mut listener), Errno::EAGAIN) {
        return Err("no connection yet".into());
    }
    connected_to(rt, UNBOUNDED, &mut listener, port)
}

/// What is asked at one end of a stream, and what comes of it.
enum Talk {
    Near(Ask, WantedOutcome),
    Far(Ask, WantedOutcome),
}

fn says(rt: HostRuntime, near: &mut HostDoor, far: &mut HostDoor, talk: &Talk) -> bool {
    match talk {
        Talk::Near(ask, wanted) => answers(rt, near, *ask, *wanted),
        Talk::Far(ask, wanted) => answers(rt, far, *ask, *wanted),
    }
}

/// Whether this comes of what is asked at both ends, one after another.
fn all_say(rt: HostRuntime, near: &mut HostDoor, far: &mut HostDoor, talk: &[Talk]) -> bool {
    for said in talk {
        if !says(rt, near, far, said) {
            return false;
        }
    }
    true
}

/// Whether this is said at a new stream, and at its near end the rest once the far end is closed.
fn is_said(rt: HostRuntime, talk: &[Talk], rest: &[(Ask, WantedOutcome)]) -> Result<bool, Fail> {
    let (mut near, mut far) = connected(rt)?;
    let said = all_say(rt, &mut near, &mut far, talk);
    let closed = closes(rt, far);
    Ok(said && closed && all_answer(rt, &mut near, rest))
}

const BOTH_WAYS: &[Talk] = &[
    Talk::Far(Ask::Write(b"ping"), WantedOutcome::Success(4, b"")),
    Talk::Near(Ask::Read(10), WantedOutcome::Success(4, b"ping")),
    Talk::Near(Ask::Write(b"pong"), WantedOutcome::Success(4, b"")),
    Talk::Far(Ask::Read(2), WantedOutcome::Success(2, b"po")),
    Talk::Far(Ask::Read(9), WantedOutcome::Success(2, b"ng")),
];

const ONE_WAY: &[Talk] = &[
    Talk::Near(
        Ask::Shut(ShutdownHow::Write),
        WantedOutcome::Success(0, b""),
    ),
    Talk::Far(Ask::Read(10), WantedOutcome::Success(0, b"")),
    Talk::Near(Ask::Write(b"x"), WantedOutcome::Failure(Errno::EPIPE)),
    Talk::Far(Ask::Write(b"hi"), WantedOutcome::Success(2, b"")),
    Talk::Near(Ask::Read(9), WantedOutcome::Success(2, b"hi")),
];

// A peer that goes away with bytes that it has not read resets the connection.
const UNHEARD: &[Talk] = &[Talk::Near(Ask::Write(b"x"), WantedOutcome::Success(1, b""))];

const RESET: &[(Ask, WantedOutcome)] = &[
    (Ask::Read(1), WantedOutcome::Failure(Errno::ECONNRESET)),
    (Ask::Write(b"y"), WantedOutcome::Failure(Errno::EPIPE)),
];

const ENDED: &[(Ask, WantedOutcome)] = &[(Ask::Read(9), WantedOutcome::Success(0, b""))];

/// What is said at streams, and at their near ends once the far ends are closed.
const SAID: &[(&[Talk], &[(Ask, WantedOutcome)])] = &[
    (BOTH_WAYS, ENDED),
    (ONE_WAY, ENDED),
    (UNHEARD, RESET),
];

#[test]
fn streams_over_loopback(rt: HostRuntime) -> Result<(), Fail> {
    for (number, (talk, rest)) in SAID.iter().enumerate() {
        assert!(rt; is_said(rt, talk, rest)?, "stream {number}");
    }
    Ok(())
}

const PAGE: &[u8] = &[7; 4_096];

/// Whether the writes to a stream, whole or in part, come to this failure or the other, before there are too many.
fn write_until_failure(
    rt: HostRuntime,
    mut door: HostDoor,
    wanted: WantedOutcome,
    other: WantedOutcome,
) -> bool {
    for _ in 0..10_000 {
        let found = came(rt, UNBOUNDED, Ask::Write(PAGE), &mut door);
        if is_so(&found, &wanted) || is_so(&found, &other) {
            return true;
        }
    }
    false
}

fn close_late(rt: HostRuntime, door: HostDoor) -> bool {
    sleep(&rt, Duration::from_millis(50));
    closes(rt, door)
}

/// Whether the writes to a stream fail where its peer, which reads nothing, goes away while they wait.
fn is_cut_off(threads: &impl Threads, rt: HostRuntime) -> Result<bool, Fail> {
    let (near, far) = connected(rt)?;
    let reset = WantedOutcome::Failure(Errno::ECONNRESET);
    let (failed, closed) = join(
        threads,
        move || write_until_failure(rt, near, reset, WantedOutcome::Failure(Errno::EPIPE)),
        move || close_late(rt, far),
    );
    Ok(failed && closed)
}

#[test]
fn a_peer_goes_away_while_a_write_waits(rt: HostRuntime) -> Result<(), Fail> {
    assert!(rt; is_cut_off(&rt, rt)?);
    Ok(())
}

/// How a call is made that finds nothing, and how long it takes at least, in milliseconds. No test
/// may take the longest of these bounds. The host's clock goes in steps, so a wait may end a little
/// before.
const BOUNDS: &[(Way, u64)] = &[
    (
        Way {
            longest: Some(30),
            waits: true,
        },
        20,
    ),
    (
        Way {
            longest: Some(0),
            waits: true,
        },
        0,
    ),
    (
        Way {
            longest: Some(60_000),
            waits: false,
        },
        0,
    ),
];

/// Whether as much time is over as a call takes at least.
fn is_over(rt: HostRuntime, begun: Instant, least: u64) -> bool {
    match begun.elapsed(&rt) {
        Ok(time) => time >= Duration::from_millis(least),
        Err(_) => false,
    }
}

const AGAIN: WantedOutcome = WantedOutcome::Failure(Errno::EAGAIN);

/// Whether a read finds nothing, and only once it took as long as that.
fn finds_no_bytes(rt: HostRuntime, way: Way, least: u64, door: &mut HostDoor) -> bool {
    match Instant::now(&rt) {
        Ok(begun) => is_so(&came(rt, way, Ask::Read(9), door), &AGAIN) && is_over(rt, begun, least),
        Err(_) => false,
    }
}

const LONG: &[u8] = &[7; 32_767];

/// Whether one of the writes to a stream, which nobody reads, finds it full.
fn finds_it_full(rt: HostRuntime, way: Way, least: u64, door: &mut HostDoor) -> bool {
    for _ in 0..1_000 {
        let Ok(begun) = Instant::now(&rt) else {
            return false;
        };
        if is_so(&came(rt, way, Ask::Write(LONG), door), &AGAIN) {
            return is_over(rt, begun, least);
        }
    }
    false
}

fn finds_nobody(rt: HostRuntime, way: Way, least: u64, listener: &mut HostDoor) -> bool {
    match Instant::now(&rt) {
        Ok(begun) => {
            refuses(&accept(rt, way, listener), Errno::EAGAIN) && is_over(rt, begun, least)
        }
        Err(_) => false,
    }
}

/// Whether bytes that are under way are read all the same.
fn finds_bytes(rt: HostRuntime, way: Way, door: &mut HostDoor) -> bool {
    for _ in 0..1_000 {
        let found = came(rt, way, Ask::Read(9), door);
        if !is_so(&found, &AGAIN) {
            return is_so(&found, &WantedOutcome::Success(4, b"late"));
        }
        sleep(&rt, Duration::from_millis(1));
    }
    false
}

/// Whether each call at both ends of a stream ends by its bound.
fn ends_are_bounded(
    rt: HostRuntime,
    way: Way,
    least: u64,
    near: &mut HostDoor,
    far: &mut HostDoor,
) -> bool {
    finds_no_bytes(rt, way, least, near)
        && finds_no_bytes(rt, way, least, far)
        && finds_it_full(rt, way, least, near)
        && answers(rt, far, Ask::Write(b"late"), WantedOutcome::Success(4, b""))
        && finds_bytes(rt, way, near)
}

/// The same of a stream to this listener.
fn streams_are_bounded(
    rt: HostRuntime,
    way: Way,
    least: u64,
    listener: &mut HostDoor,
    port: u64,
) -> Result<bool, Fail> {
    let (mut near, mut far) = connected_to(rt, way, listener, port)?;
    Ok(ends_are_bounded(rt, way, least, &mut near, &mut far))
}

/// The same, and an accept at a listener.
fn are_bounded(rt: HostRuntime, way: Way, least: u64) -> Result<bool, Fail> {
    let (mut listener, port) = any_listener(rt)?;
    Ok(
        finds_nobody(rt, way, least, &mut listener)
            && streams_are_bounded(rt, way, least, &mut listener, port)?,
    )
}

#[test]
fn no_call_waits_longer_than_its_bound(rt: HostRuntime) -> Result<(), Fail> {
    for (number, (way, least)) in BOUNDS.iter().enumerate() {
        assert!(rt; are_bounded(rt, *way, *least)?, "bound {number}");
    }
    Ok(())
}

/// A bound that no test may take.
const PATIENT: Way = Way {
    longest: Some(60_000),
    waits: true,
};

fn connects_late(rt: HostRuntime, port: u64) -> bool {
    sleep(&rt, Duration::from_millis(50));
    door_of(connect(rt, UNBOUNDED, port)).is_some()
}

/// Whether an accept that waits gets the connection that comes then.
fn meets_late(threads: &impl Threads, rt: HostRuntime) -> Result<bool, Fail> {
    let (mut listener, port) = any_listener(rt)?;
    let (came, connected) = join(
        threads,
        move || door_of(accept(rt, PATIENT, &mut listener)).is_some(),
        move || connects_late(rt, port),
    );
    Ok(came && connected)
}

#[test]
fn an_accept_waits_for_a_connection(rt: HostRuntime) -> Result<(), Fail> {
    assert!(rt; meets_late(&rt, rt)?);
    Ok(())
}

const NO_STREAM: &[(Ask, WantedOutcome)] = &[
    (Ask::Read(1), WantedOutcome::Failure(Errno::EINVAL)),
    (Ask::Write(b"x"), WantedOutcome::Failure(Errno::EINVAL)),
    (
        Ask::Seek(0, Whence::Set),
        WantedOutcome::Failure(Errno::EINVAL),
    ),
    (
        Ask::Shut(ShutdownHow::Both),
        WantedOutcome::Failure(Errno::EINVAL),
    ),
];

/// Whether a listener refuses what no listener does, and others its port as long as it is there.
fn refuses_all(rt: HostRuntime, mut listener: HostDoor, port: u64) -> bool {
    all_answer(rt, &mut listener, NO_STREAM)
        && refuses(&listen(rt, port), Errno::EADDRINUSE)
        && closes(rt, listener)
        && refuses(&connect(rt, UNBOUNDED, port), Errno::ECONNREFUSED)
}

#[test]
fn what_listeners_and_ports_refuse(rt: HostRuntime) -> Result<(), Fail> {
    let (listener, port) = any_listener(rt)?;
    assert!(rt; refuses_all(rt, listener, port));
    assert!(rt; refuses(&listen(rt, 65_536), Errno::EINVAL));
    Ok(())
}
