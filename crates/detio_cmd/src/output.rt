ghost use Rattle.std.specs.Io.{WritesAtMost};
ghost use Rattle.std.specs.Prelude.{◌≤◌, length};

use crate::refusals::{Host, Refusals};
use std::io::{self, ErrorKind, IsTerminal, Stderr, Stdout, Write};

// Standard output. Where it is a pipe that nobody reads any more, as after `| head`, all counts as
// written.
#[derive(Drop)]
pub(crate) struct Output<'h> {
    stdout: Stdout,
    refusals: &'h Refusals,
    escapes: bool,
}

impl<'h> Output<'h> {
    pub(crate) fn new(host: Host<'h>) -> Output<'h> {
        let stdout = host.rt.stdout();
        let escapes = stdout.is_terminal();
        Output {
            stdout,
            refusals: host.refusals,
            escapes,
        }
    }
}

impl Write for Output<'_> {
    fn write(&mut self, bytes: &[u8]) -> io::Result<usize> {
        match write_visibly(&mut self.stdout, self.escapes, bytes) {
            Err(error) if error.kind() == ErrorKind::BrokenPipe => Ok(bytes.len()),
            Err(error) => {
                self.refusals.note(error);
                Err(error)
            }
            written => written,
        }
    }

    fn flush(&mut self) -> io::Result<()> {
        self.stdout.flush()
    }
}

// Standard error.
#[derive(Drop)]
pub(crate) struct Errors {
    stderr: Stderr,
    escapes: bool,
}

impl Errors {
    pub(crate) fn new(rt: &HostRuntime) -> Errors {
        let stderr = rt.stderr();
        let escapes = stderr.is_terminal();
        Errors { stderr, escapes }
    }
}

impl Write for Errors {
    fn write(&mut self, bytes: &[u8]) -> io::Result<usize> {
        write_visibly(&mut self.stderr, self.escapes, bytes)
    }

    fn flush(&mut self) -> io::Result<()> {
        self.stderr.flush()
    }
}

// Writes some of these bytes. To a terminal the control bytes, which a path may have, are written by
// their numbers, but for the line feed.
fn write_visibly<W: Write>(stream: &mut W, escapes: bool, bytes: &[u8]) -> io::Result<usize>
    ensures bound { WritesAtMost result bytes.now }
{
    if !escapes {
        return stream.write(bytes);
    }
    let control = control_length(bytes);
    if control == 0 {
        return stream.write(&bytes[..visible_length(bytes)]);
    }
    for byte in &bytes[..control] {
        write!(stream, "\\x{byte:02x}")?;
    }
    Ok(control)
}

// How many bytes the control character has that these begin with, in UTF-8: 0 where it is none.
fn control_length(bytes: &[u8]) -> usize
    ensures { result ≤ length bytes.now }
{
    match bytes {
        [b'\n', ..] => 0,
        [0..=0x1f | 0x7f, ..] => 1,
        [0xc2, 0x80..=0x9f, ..] => 2,
        _ => 0,
    }
}

// How many bytes there are before the first control character.
fn visible_length(bytes: &[u8]) -> usize
    ensures { result ≤ length bytes.now }
{
    for length in 0..bytes.len() {
        if control_length(&bytes[length..]) > 0 {
            return length;
        }
    }
    bytes.len()
}
