ghost use Rattle.std.specs.Prelude.{◌≡◌, map};
ghost use Rattle.std.specs.List.{list_all};
ghost use Rattle.thread_scripts.specs.Texts.{access_of, bytes_of, is_graphic, known_to_host};
ghost use Rattle.thread_scripts.specs.Texts.{no_flags, once, path_of, shutdown_how_of, whence_of};
ghost use Rattle.thread_scripts.specs.Texts.{with_flag, with_flags};
ghost use Rattle.thread_scripts.specs.Faults.{Reads};

use crate::fault::LineFault;
use hex::FromHexError;
use posix_terms::{Access, Limits, OpenFlags, SharedBytes, ShutdownHow, Whence};
use std::alloc::Global;
use std::mem;

/// The bytes of a byte text.
pub(crate) fn byte_text(alloc: Global, word: &[u8]) -> Result<SharedBytes, LineFault>
    ensures { Reads result (bytes_of word.now) }
{
    let (first, digits) = word.split_first().ok_or(LineFault::Bad)?;
    if *first != b'x' {
        return Err(LineFault::Bad);
    }
    let bytes = hex::decode(alloc, digits);
    match bytes {
        Ok(bytes) => {
            if bytes.len() > Limits::COUNT {
                return Err(LineFault::Bad);
            }
            Ok(SharedBytes::from_vec(bytes)?)
        }
        Err(FromHexError::OutOfMemory) => Err(LineFault::Memory),
        Err(_) => Err(LineFault::Bad),
    }
}

/// Whether all bytes are `!` to `~`.
fn is_graphic_text(word: &[u8]) -> bool
    ensures { result ≡ list_all is_graphic word.now }
{
    word.iter().all(|byte| byte.is_ascii_graphic())
}

/// The path that a word names.
pub(crate) fn path(alloc: Global, word: &[u8]) -> Result<SharedBytes, LineFault>
    ensures { Reads result (path_of word.now) }
{
    if word == b"\"\"".as_slice() {
        return Ok(SharedBytes::from_vec(Vec::new(alloc))?);
    }
    if !is_graphic_text(word) {
        return Err(LineFault::Bad);
    }
    Ok(SharedBytes::from_slice(alloc, word)?)
}

pub(crate) fn access(word: &[u8]) -> Option<Access>
    ensures { result ≡ access_of word.now }
{
    if word == b"r".as_slice() {
        Some(Access::ReadOnly)
    } else if word == b"w".as_slice() {
        Some(Access::WriteOnly)
    } else if word == b"rw".as_slice() {
        Some(Access::ReadWrite)
    } else {
        None
    }
}

pub(crate) fn whence(word: &[u8]) -> Option<Whence>
    ensures { result ≡ whence_of word.now }
{
    if word == b"set".as_slice() {
        Some(Whence::Set)
    } else if word == b"cur".as_slice() {
        Some(Whence::Current)
    } else if word == b"end".as_slice() {
        Some(Whence::End)
    } else {
        None
    }
}

/// The flags, if a file of the host can be opened with them: `exclusive` and `nonblock` are for `open` alone.
pub(crate) fn known_to_host(flags: OpenFlags) -> Option<OpenFlags>
    ensures { result ≡ known_to_host flags }
{
    if flags.exclusive || flags.nonblock {
        None
    } else {
        Some(flags)
    }
}

/// What of a socket is shut.
pub(crate) fn shutdown_how(word: &[u8]) -> Option<ShutdownHow>
    ensures { result ≡ shutdown_how_of word.now }
{
    if word == b"read".as_slice() {
        Some(ShutdownHow::Read)
    } else if word == b"write".as_slice() {
        Some(ShutdownHow::Write)
    } else if word == b"both".as_slice() {
        Some(ShutdownHow::Both)
    } else {
        None
    }
}

/// The flags, if this one was not among them before.
fn once(before: bool, flags: OpenFlags) -> Option<OpenFlags>
    ensures { result ≡ once before flags }
{
    if before { None } else { Some(flags) }
}

/// The flags and one more.
fn with_one_flag(mut flags: OpenFlags, word: &[u8]) -> Option<OpenFlags>
    ensures { result ≡ with_flag flags word.now }
{
    if word == b"create".as_slice() {
        let before = mem::replace(&mut flags.create, true);
        return once(before, flags);
    }
    if word == b"excl".as_slice() {
        let before = mem::replace(&mut flags.exclusive, true);
        return once(before, flags);
    }
    if word == b"trunc".as_slice() {
        let before = mem::replace(&mut flags.truncate, true);
        return once(before, flags);
    }
    if word == b"append".as_slice() {
        let before = mem::replace(&mut flags.append, true);
        return once(before, flags);
    }
    if word == b"nonblock".as_slice() {
        let before = mem::replace(&mut flags.nonblock, true);
        return once(before, flags);
    }
    None
}

/// The flags that the words name, in any order.
pub(crate) fn flags(words: &[&[u8]]) -> Option<OpenFlags>
    ensures { result ≡ with_flags no_flags (map (λ w. w.now) words.now) }
{
    let mut flags = OpenFlags {
        create: false,
        exclusive: false,
        truncate: false,
        append: false,
        nonblock: false,
    };
    for word in words {
        flags = with_one_flag(flags, *word)?;
    }
    Some(flags)
}
