ghost use Rattle.std.specs.Prelude.{◌≡◌, IfOk, bytes_eq, codes};
ghost use Rattle.thread_scripts.specs.Numbers.{number_of};
ghost use Rattle.expectations.specs.Words.{data_of, error_among, error_of, kind_numbered, kind_of};
ghost use Rattle.expectations.specs.Words.{operand, size_of};

use hex::FromHexError;
use posix_terms::{Bytes, Errno, ObjectKind, errno_name};
use std::alloc::{AllocError, Global};
use thread_scripts::{natural, number};

// All kinds of objects.
const KINDS: [ObjectKind; 6] = [
    ObjectKind::File,
    ObjectKind::Pipe,
    ObjectKind::SocketPair,
    ObjectKind::HostFile,
    ObjectKind::Listener,
    ObjectKind::Stream,
];

// All errors.
const ERRORS: [Errno; 26] = [
    Errno::EBADF,
    Errno::EINVAL,
    Errno::EOVERFLOW,
    Errno::ESPIPE,
    Errno::EFBIG,
    Errno::EAGAIN,
    Errno::EPIPE,
    Errno::EINTR,
    Errno::EIO,
    Errno::ENOENT,
    Errno::EEXIST,
    Errno::ENOTDIR,
    Errno::EISDIR,
    Errno::ENOTEMPTY,
    Errno::EPERM,
    Errno::EACCES,
    Errno::EMFILE,
    Errno::ENFILE,
    Errno::ENOSPC,
    Errno::ENAMETOOLONG,
    Errno::ENOTSOCK,
    Errno::EBUSY,
    Errno::ECONNREFUSED,
    Errno::ECONNRESET,
    Errno::EADDRINUSE,
    Errno::ETIMEDOUT,
];

// Whether an operand's word is `_`, which is any operand.
fn is_any(word: &[u8]) -> bool
    ensures { result ≡ bytes_eq word.now (codes "_") }
{
    word == b"_".as_slice()
}

// A number of 64 bits without a sign.
pub fn size(word: &[u8]) -> Option<Option<u64>>
    ensures { result ≡ operand size_of word.now }
{
    if is_any(word) {
        return Some(None);
    }
    let size = natural(word, u64::MAX)?;
    Some(Some(size))
}

// A number of 64 bits with a sign.
pub fn signed(word: &[u8]) -> Option<Option<i64>>
    ensures { result ≡ operand number_of word.now }
{
    if is_any(word) {
        return Some(None);
    }
    let number = number(word)?;
    Some(Some(number))
}

// Bytes: hexadecimal digits, and `-` for none.
pub fn data(alloc: Global, word: &[u8]) -> Result<Option<Option<Bytes>>, AllocError>
    ensures { IfOk result (λ bytes. bytes ≡ operand data_of word.now) }
{
    if is_any(word) {
        return Ok(Some(None));
    }
    match bytes_of(alloc, word)? {
        Some(bytes) => Ok(Some(Some(bytes))),
        None => Ok(None),
    }
}

/// The bytes of this word: hexadecimal digits, and `-` for none.
pub fn bytes_of(alloc: Global, word: &[u8]) -> Result<Option<Bytes>, AllocError>
    ensures { IfOk result (λ bytes. bytes ≡ data_of word.now) }
{
    if word == b"-".as_slice() {
        return Ok(Some(Bytes::from_vec(Vec::new(alloc))));
    }
    let bytes = hex::decode(alloc, word);
    match bytes {
        Ok(bytes) => Ok(Some(Bytes::from_vec(bytes))),
        Err(FromHexError::OutOfMemory) => Err(AllocError),
        Err(_) => Ok(None),
    }
}

// The kind of this number.
fn kind_numbered(number: u64) -> Option<ObjectKind>
    ensures { result ≡ kind_numbered number }
{
    for kind in &KINDS {
        if u64::from(kind.code()) == number {
            return Some(*kind);
        }
    }
    None
}

// A kind of objects: its number.
pub fn kind(word: &[u8]) -> Option<Option<ObjectKind>>
    ensures { result ≡ operand kind_of word.now }
{
    if is_any(word) {
        return Some(None);
    }
    let number = natural(word, u64::MAX)?;
    let kind = kind_numbered(number)?;
    Some(Some(kind))
}

// The first of these errors that has this name.
fn error_among(errors: &[Errno], word: &[u8]) -> Option<Errno>
    ensures { result ≡ error_among errors.now word.now }
{
    for error in errors {
        if word == errno_name(*error).as_bytes() {
            return Some(*error);
        }
    }
    None
}

/// The error of this name.
pub fn error_named(word: &[u8]) -> Option<Errno>
    ensures { result ≡ error_of word.now }
{
    error_among(&ERRORS, word)
}

// An error: its name.
pub fn error(word: &[u8]) -> Option<Option<Errno>>
    ensures { result ≡ operand error_of word.now }
{
    if is_any(word) {
        return Some(None);
    }
    let error = error_named(word)?;
    Some(Some(error))
}
