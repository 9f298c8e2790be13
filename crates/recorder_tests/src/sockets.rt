use crate::record::actors;
use crate::replay::is_replayed;
use crate::seen::{SeenReply, is_reply};
use host_doors::HostDoors;
use input_log::{MemorySink, decode};
use posix_terms::{Errno, Outcome, Row, Settings, Transcripts};
use recorder::{BoxedActor, Ended, hosts_waiting, record_actors};
use std::alloc::{AllocError, Global};
use std::io;
use std::io::Write;
use std::net::TcpListener;
use std::sync::Wait;
use std::test::Fail;
use std::thread::{Threads, join, sleep};
use std::time::Duration;

// How often a call is blocked until it fails, how long it waits at the host each time, in milliseconds, and the
// last replies that each thread sees.
struct LastSeen {
    patience: u32,
    wait: u64,
    last: &'static [&'static [SeenReply]],
}

type Over = Ended<BoxedActor, HostDoors<HostRuntime>, MemorySink>;

// A run over the host's own network. There is none where it was not started.
fn record<R: Threads + Wait + Sync>(
    threads: &R,
    rt: HostRuntime,
    texts: &[&[u8]],
    wanted: &LastSeen,
) -> Result<Option<Over>, AllocError> {
    let alloc = rt.alloc();
    let actors = actors(alloc, texts)?;
    let wait = Duration::from_millis(wanted.wait);
    let outsides = hosts_waiting(rt, alloc, texts.len(), wait)?;
    let sink = MemorySink::new(alloc, 65_536)?;
    let settings = Settings {
        patience: wanted.patience,
        door_cost: 100,
        version: 1,
    };
    Ok(record_actors(threads, alloc, actors, outsides, sink, settings).ok())
}

fn end_so(rows: &[Row], wanted: &[SeenReply]) -> bool {
    rows.len() >= wanted.len()
        && rows
            .iter()
            .rev()
            .zip(wanted.iter().rev())
            .all(|(row, seen)| is_reply(&row.reply, *seen))
}

fn see_last(transcripts: &Transcripts, wanted: &[&[SeenReply]]) -> bool {
    let threads = transcripts.threads();
    threads.len() == wanted.len()
        && threads
            .iter()
            .zip(wanted)
            .all(|(transcript, last)| end_so(transcript.rows(), last))
}

// Whether the host had nothing to give at some call.
fn has_again(alloc: Global, log: &[u8]) -> bool {
    match decode(alloc, log) {
        Ok(log) => {
            log.records.as_slice().iter().any(|record| matches!(
                record.outcome,
                Outcome::Fail(Errno::EAGAIN)
            ))
        }
        Err(_) => false,
    }
}

// Whether the run of these scripts comes to its end as it should, after EAGAIN came for some call, and its log is
// replayed to the same with no network.
fn goes<R: Threads + Wait + Sync>(
    threads: &R,
    rt: HostRuntime,
    texts: &[&[u8]],
    wanted: &LastSeen,
) -> Result<bool, AllocError> {
    let Some(over) = record(threads, rt, texts, wanted)? else {
        return Ok(false);
    };
    let (seen, log) = (&over.transcripts, over.sink.bytes());
    Ok(
        over.stop.is_none()
            && see_last(seen, wanted.last)
            && has_again(rt.alloc(), log)
            && is_replayed(threads, rt.alloc(), texts, seen, log)?,
    )
}

// The client asks for the server's port.
const ECHO: &[&[u8]] = &[
    b"work 500\nfstat 0\ntcp_connect r0\nset r2 r0\nwrite r2 x70\nread r2 9\nclose r2\n",
    b"tcp_listen 0\ntcp_accept 0\nset r2 r0\nread r2 9\nwrite r2 b0\nread r2 9\nclose r2\nclose 0\n",
];

const ECHOED: LastSeen = LastSeen {
    patience: 1000,
    wait: 10,
    last: &[
        &[
            SeenReply::Number(1),
            SeenReply::Count(1),
            SeenReply::Byte(0x70),
            SeenReply::Done,
        ],
        &[
            SeenReply::Number(0),
            SeenReply::Number(2),
            SeenReply::Byte(0x70),
            SeenReply::Count(1),
            SeenReply::NoData,
            SeenReply::Done,
            SeenReply::Done,
        ],
    ],
};

// The server's first accepts come before the client's connection, and each of the two reads before there are bytes or
// once they are there, as it happens.
#[test]
fn a_server_and_its_client_in_one_run(rt: HostRuntime) -> Result<(), Fail> {
    assert!(rt; goes(&rt, rt, ECHO, &ECHOED)?);
    Ok(())
}

// A listener of the test's own, at a port that the host chose, and this script with that port.
fn listener_for(rt: HostRuntime, script: &str) -> Result<(TcpListener, String), Fail> {
    let listener = TcpListener::bind(&rt, ("127.0.0.1", 0))?;
    let port = listener.local_addr()?.port();
    let text = format!(in rt.alloc(); "tcp_connect {port}\n{script}")?;
    Ok((listener, text))
}

// A peer that writes after a second.
fn answer_late(rt: HostRuntime, listener: &TcpListener) -> io::Result<()> {
    let (mut stream, _) = listener.accept()?;
    sleep(&rt, Duration::from_secs(1));
    stream.write_all(b"z")
}

const ANSWERED: LastSeen = LastSeen {
    patience: 1000,
    wait: 10,
    last: &[&[SeenReply::Number(0), SeenReply::Byte(b'z'), SeenReply::Done]],
};

fn is_answered<R: Threads + Wait + Sync>(threads: &R, rt: HostRuntime) -> Result<bool, Fail> {
    let (listener, text) = listener_for(rt, "read 0 9\nclose 0\n")?;
    let (written, gone) = join(
        threads,
        || answer_late(rt, &listener),
        || goes(threads, rt, &[text.as_bytes()], &ANSWERED),
    );
    written?;
    Ok(gone?)
}

#[test]
fn a_peer_that_answers_after_a_second(rt: HostRuntime) -> Result<(), Fail> {
    assert!(rt; is_answered(&rt, rt)?);
    Ok(())
}

const GIVEN_UP: LastSeen = LastSeen {
    patience: 5,
    wait: 10,
    last: &[&[
        SeenReply::Number(0),
        SeenReply::Fail(Errno::EINTR),
        SeenReply::Done,
    ]],
};

#[test]
fn a_peer_that_never_answers(rt: HostRuntime) -> Result<(), Fail> {
    let (_listener, text) = listener_for(rt, "read 0 9\nclose 0\n")?;
    assert!(rt; goes(&rt, rt, &[text.as_bytes()], &GIVEN_UP)?);
    Ok(())
}

// Writes as long as the stream takes bytes, 32,767 at a time, and reads where nothing comes.
const UNTIL_FULL: &str =
    "setfl 0 nonblock\nopen /a rw create\nftruncate 1 32767\nread 1 32767\nlabel more\nwrite 0 b0\njfail full\njump more\nlabel full\nread 0 9\nclose 0\n";

// With nonblock nothing waits at the host, which would be longer than a test may take.
const FULL: LastSeen = LastSeen {
    patience: 1000,
    wait: 60_000,
    last: &[&[
        SeenReply::Fail(Errno::EAGAIN),
        SeenReply::Fail(Errno::EAGAIN),
        SeenReply::Done,
    ]],
};

#[test]
fn a_stream_without_blocking_is_full(rt: HostRuntime) -> Result<(), Fail> {
    let (_listener, text) = listener_for(rt, UNTIL_FULL)?;
    assert!(rt; goes(&rt, rt, &[text.as_bytes()], &FULL)?);
    Ok(())
}

const NOBODY: LastSeen = LastSeen {
    patience: 1000,
    wait: 60_000,
    last: &[&[
        SeenReply::Number(0),
        SeenReply::Done,
        SeenReply::Fail(Errno::EAGAIN),
    ]],
};

#[test]
fn a_listener_without_blocking_has_nobody(rt: HostRuntime) -> Result<(), Fail> {
    let text: &[u8] = b"tcp_listen 0\nsetfl 0 nonblock\ntcp_accept 0\n";
    assert!(rt; goes(&rt, rt, &[text], &NOBODY)?);
    Ok(())
}
