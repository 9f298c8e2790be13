use crate::lines::{
    accept, close, connect, end_of_writing, fstat, held, keep_in, last_read, listen,
    open_to_append, read, register, write,
};
use posix_terms::SharedBytes;
use std::alloc::{AllocError, Global};
use thread_scripts::{Data, Line, Number, Script};

// The first descriptor of the run, since the server listens before anything else is opened.
const LISTENER: Number = Number::Value(0);

// Where the server's loop begins, and where it leaves it.
const LOOP: usize = 6;

const DONE: usize = 12;

// Listens, takes one connection, and appends all that comes over it to the host file at this path.
pub(crate) fn server(alloc: Global, path: &str) -> Result<Vec<Line>, AllocError> {
    let path = SharedBytes::from_slice(alloc, path.as_bytes())?;
    let mut lines = Vec::new(alloc);
    lines.push(listen())?;
    lines.push(open_to_append(path))?;
    lines.push(keep_in(register(2)))?;
    // As long as nobody connects, this call is made again at later turns.
    lines.push(accept(LISTENER))?;
    lines.push(keep_in(register(3)))?;
    lines.push(close(LISTENER))?;
    lines.push(Line::Label)?;
    lines.push(read(held(3), 64))?;
    lines.push(Line::JumpIfFailed { place: DONE })?;
    // The peer has ended.
    lines.push(Line::JumpIfZero {
        register: register(0),
        place: DONE,
    })?;
    lines.push(write(held(2), last_read()))?;
    lines.push(Line::Jump { place: LOOP })?;
    lines.push(Line::Label)?;
    lines.push(close(held(3)))?;
    lines.push(close(held(2)))?;
    Ok(lines)
}

// Once the server listens, asks for its port, connects, and sends this text.
pub(crate) fn client(alloc: Global, text: &str) -> Result<Vec<Line>, AllocError> {
    let text = SharedBytes::from_slice(alloc, text.as_bytes())?;
    let mut lines = Vec::new(alloc);
    // The order of turns comes from clocks: with so much work the client comes after the server's first calls.
    lines.push(Line::Work(1_000))?;
    lines.push(fstat(LISTENER))?;
    lines.push(connect(held(0)))?;
    lines.push(keep_in(register(3)))?;
    lines.push(write(held(3), Data::Text(text)))?;
    lines.push(end_of_writing(held(3)))?;
    lines.push(close(held(3)))?;
    Ok(lines)
}

// The scripts of both: the client is thread 0, and the server thread 1. An
// accept that waits has the table at each of its turns, and of two
// threads that come at the same clock the one with the smaller number is
// first; so a server stands after those that it serves.
pub(crate) fn scripts(alloc: Global, path: &str) -> anyhow::Result<Vec<Script>> {
    let mut scripts = Vec::new(alloc);
    scripts.push(script(client(alloc, "hello from a client")?)?)?;
    scripts.push(script(server(alloc, path)?)?)?;
    Ok(scripts)
}

// Lines that were made in code are tested: a wrong jump is found here.
fn script(lines: Vec<Line>) -> anyhow::Result<Script> {
    if !Script::accepts(&lines) {
        anyhow::bail!("these lines are no script");
    }
    Ok(Script::of(lines))
}
