ghost use Rattle.std.specs.Prelude.{◌≡◌, ℕ, List, Option, Some, None, map, IfErr, IfOk, OnErr};
ghost use Rattle.std.specs.Io.{ReadsAtMost};
ghost use Rattle.std.specs.Io.KnownBytes.{ReadConsumes};
ghost use Rattle.command_texts.specs.Reading.{AreTexts, IsText};
ghost use Rattle.command_texts.specs.FirstFaults.{IsReadFault, IsUnread};
ghost use Rattle.command_texts.specs.declared.source.Unread.TheVariants as unread;

use posix_terms::Bytes;
use std::alloc::{AllocFailed, Global};
use std::io::{ErrorKind, Read};

/// A read of a source failed.
#[derive(Clone, Copy, Debug, PartialEq, Eq)]
pub struct SourceFault;

/// What a text is read from: its bytes in order, and then no more.
pub trait TextReader {
    /// The bytes that reads will give from here on, where they are known. Then no read fails.
    ghost remaining: { Self → Option (List ℕ) };

    /// Puts the next bytes at the front of the buffer, and answers how many; none at the end.
    fn next_bytes(&mut self, buffer: &mut [u8]) -> Result<usize, SourceFault>
        ensures bound { ReadsAtMost result buffer.new }
        ensures bytes { ReadConsumes (remaining self.old) (remaining self.new) result buffer.new }
        ensures failed { OnErr result (remaining self.old ≡ None) };
}

impl TextReader for &[u8] {
    ghost remaining = { λ s. Some s.now };

    fn next_bytes(&mut self, buffer: &mut [u8]) -> Result<usize, SourceFault> {
        match self.read(buffer) {
            Ok(count) => Ok(count),
            Err(_) => Err(SourceFault),
        }
    }
}

// How often a read that was interrupted is tried.
const TRIES: u32 = 1_000_000;

/// One read of a reader of the standard library, for a [`TextReader`] that knows nothing of its
/// bytes. A read that was interrupted is tried again.
pub fn read_once<R: Read>(reader: &mut R, buffer: &mut [u8]) -> Result<usize, SourceFault>
    ensures bound { ReadsAtMost result buffer.new }
    ensures got { ReadConsumes (R.remaining reader.old) (R.remaining reader.new) result buffer.new }
{
    for _ in 0..TRIES {
        match reader.read(buffer) {
            Ok(count) => return Ok(count),
            Err(error) if error.kind() == ErrorKind::Interrupted => {}
            Err(_) => return Err(SourceFault),
        }
    }
    Err(SourceFault)
}

/// A text to be read: the path that messages name, and where the text comes from.
#[derive(Drop)]
pub struct Source<'a, R: Drop> {
    pub path: &'a str,
    pub reader: R,
}

// Why a text could not be read.
#[derive(Clone, Copy, Debug, PartialEq, Eq)]
pub enum ReadFault {
    Memory,
    // A read failed, or the text is too large.
    Failed,
}

/// Why scripts could not be read.
#[derive(Clone, Copy, Debug, PartialEq, Eq)]
pub enum Unread<'a> {
    /// The first script that could not be read, by its path.
    Script(&'a str),
    Memory,
}

impl<T: Drop> From<AllocFailed<T>> for Unread<'_> {
    ghost from_gives = { λ _ e. e ≡ unread.Memory };

    fn from(_failed: AllocFailed<T>) -> Self {
        Unread::Memory
    }
}

/// The greatest size of a file that a command reads, and so of a log that is recorded:
/// `largest_file` of the definitions.
pub const LARGEST_FILE: usize = 16_777_216;

// How many bytes are read at a time.
const CHUNK: usize = 8_192;

// All that a reader gives, up to the greatest size.
pub fn read_text<R: TextReader + Drop>(alloc: Global, reader: R) -> Result<Bytes, ReadFault>
    ensures text { IfOk result (IsText (R.remaining reader)) }
    ensures failed { IfErr result (IsReadFault (R.remaining reader)) }
{
    let mut reader = reader;
    let mut text = Vec::new(alloc);
    let mut chunk = [0; CHUNK];
    while text.len() <= LARGEST_FILE {
        match reader.next_bytes(&mut chunk) {
            Ok(0) => return Ok(Bytes::from_vec(text)),
            Ok(count) => {
                if text.extend_from_slice(&chunk[..count]).is_err() {
                    return Err(ReadFault::Memory);
                }
            }
            Err(SourceFault) => return Err(ReadFault::Failed),
        }
    }
    Err(ReadFault::Failed)
}

/// Reads the scripts in the order given, up to the first that cannot be read.
pub fn read_all<'a, R: TextReader + Drop>(
    alloc: Global,
    sources: Vec<Source<'a, R>>,
) -> Result<Vec<Bytes>, Unread<'a>>
    ensures texts { IfOk result (λ texts. AreTexts
        (map (λ s. (s.path.now, R.remaining s.reader)) sources.entry.items) texts.items) }
    ensures unread { IfErr result (IsUnread
        (map (λ s. (s.path.now, R.remaining s.reader)) sources.entry.items)) }
{
    let mut texts = Vec::new(alloc);
    for source in sources {
        match read_text(alloc, source.reader) {
            Ok(text) => texts.push(text)?,
            Err(ReadFault::Memory) => return Err(Unread::Memory),
            Err(ReadFault::Failed) => return Err(Unread::Script(source.path)),
        }
    }
    Ok(texts)
}
