ghost use Rattle.std.specs.Prelude.{◌≡◌, ◌≤◌, length, take, if◌then◌else◌};
ghost use Rattle.c_words.specs.Requests.{access_code, asked_code, blank_call, call_words};
ghost use Rattle.c_words.specs.Requests.{flags_code, how_code, outside_words, text_of};
ghost use Rattle.c_words.specs.Requests.{whence_code};

use crate::fronts::put_front;
use crate::words::{CallWords, OutsideWords};
use posix_terms::{Access, Call, OpenFlags, OutKind, Request, ShutdownHow, Whence};

/// What a request asks, as C reads it, with the path or the bytes of its call at the front of `buffer`, if they have
/// room there.
pub fn outside_words(request: &Request, waits: bool, buffer: &mut [u8]) -> OutsideWords
    ensures words { result ≡ outside_words request.now waits }
    ensures bytes { length (text_of request.now.call) ≤ length buffer.old
        → take (length (text_of request.now.call)) buffer.new ≡ text_of request.now.call }
{
    OutsideWords {
        kind: asked_code(request.kind),
        waits,
        asked: request.asked,
        length: put_front(text_of(&request.call), buffer),
        call: call_words(&request.call),
    }
}

/// The path or the bytes of a call that goes outside.
pub fn text_of(call: &Call) -> &[u8]
    ensures { result.now ≡ text_of call.now }
{
    match call {
        Call::HostOpen { path, .. } => path.as_slice(),
        Call::Write { bytes, .. } => bytes.as_slice(),
        _ => &[],
    }
}

// The words of a call that goes outside, without its path and bytes.
fn call_words(call: &Call) -> CallWords
    ensures { result ≡ call_words call.now }
{
    match call {
        Call::HostOpen { access, flags, .. } => CallWords {
            choice: access_code(*access),
            flags: flags_code(*flags),
            ..blank(23, 0, 0)
        },
        Call::Close { descriptor } => blank(2, *descriptor, 0),
        Call::Read { descriptor, count } => blank(3, *descriptor, *count),
        Call::Write { descriptor, .. } => blank(4, *descriptor, 0),
        Call::Lseek {
            descriptor,
            offset,
            whence,
        } => CallWords {
            choice: whence_code(*whence),
            ..blank(7, *descriptor, *offset)
        },
        Call::Shutdown { descriptor, how } => CallWords {
            choice: how_code(*how),
            ..blank(22, *descriptor, 0)
        },
        Call::TcpListen { port } => blank(24, 0, *port),
        Call::TcpConnect { port } => blank(25, 0, *port),
        Call::TcpAccept { descriptor } => blank(26, *descriptor, 0),
        _ => blank(0, 0, 0),
    }
}

// A call of this kind, with this descriptor and this number.
fn blank(kind: u32, descriptor: i64, number: i64) -> CallWords
    ensures { result ≡ blank_call kind descriptor number }
{
    CallWords {
        kind,
        choice: 0,
        flags: 0,
        descriptor,
        number,
        position: 0,
    }
}

fn access_code(access: Access) -> u32
    ensures { result ≡ access_code access }
{
    match access {
        Access::ReadOnly => 0,
        Access::WriteOnly => 1,
        Access::ReadWrite => 2,
    }
}

fn whence_code(whence: Whence) -> u32
    ensures { result ≡ whence_code whence }
{
    match whence {
        Whence::Set => 0,
        Whence::Current => 1,
        Whence::End => 2,
    }
}

fn how_code(how: ShutdownHow) -> u32
    ensures { result ≡ how_code how }
{
    match how {
        ShutdownHow::Read => 0,
        ShutdownHow::Write => 1,
        ShutdownHow::Both => 2,
    }
}

fn flags_code(flags: OpenFlags) -> u32
    ensures { result ≡ flags_code flags }
{
    bit(flags.create, 1)
        + bit(flags.exclusive, 2)
        + bit(flags.truncate, 4)
        + bit(flags.append, 8)
        + bit(flags.nonblock, 16)
}

// The value of a flag that is set, else 0.
fn bit(flag: bool, value: u32) -> u32
    ensures value { result ≡ (if flag then value else 0) }
    ensures most { result ≤ value }
{
    if flag { value } else { 0 }
}

fn asked_code(kind: OutKind) -> u32
    ensures { result ≡ asked_code kind }
{
    match kind {
        OutKind::Open => 1,
        OutKind::Read => 2,
        OutKind::Write => 3,
        OutKind::Seek => 4,
        OutKind::Listen => 5,
        OutKind::Connect => 6,
        OutKind::Accept => 7,
        OutKind::Shutdown => 8,
        OutKind::Close => 9,
    }
}
