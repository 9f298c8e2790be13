ghost use Rattle.std.specs.Prelude.{◌≡◌, ℕ, ◌+◌, ◌-◌, ◌<◌, ◌≤◌, ◌==◌, List, [], length, take, drop};
ghost use Rattle.std.specs.Prelude.{IfOk, IfErr};
ghost use Rattle.sequential_object.specs.Files.{bytes_at, written, resized};
ghost use Rattle.memory_files.specs.Pages.{bytes_of, EmptyBehind, SameOutside, ZeroFrom};

use crate::pages::Pages;
use posix_terms::{Errno, Limits};
use std::alloc::{AllocError, Global};
use std::marker::Model;

/// The bytes of a regular file: at most 65,536, all of whose room is taken when it is made. Contracts
/// see the list of the bytes. Reading and writing follow POSIX.1-2017, `read`, `write` and `ftruncate`.
#[derive(Drop)]
pub struct FileBody {
    pages: Pages,
    size: usize,
}

impl Model for FileBody {
    ghost Value = { List ℕ };

    ghost view = { λ f. bytes_of f.pages f.size };

    ghost invariant = { λ f. (f.size ≤ 65536) × EmptyBehind f.pages f.size
        × ZeroFrom f.pages f.size };
}

impl FileBody {
    /// A file with no bytes. It takes the room for all that it can hold.
    pub fn new(alloc: Global) -> Result<FileBody, AllocError>
        ensures { IfOk result (λ file. file ≡ []) }
    {
        Ok(FileBody {
            pages: Pages::new(alloc)?,
            size: 0,
        })
    }

    /// Reads from a position into the head of `into`, and tells how many bytes that were: fewer than
    /// were asked for only at the end of the file, and none past it.
    pub fn read_at(&self, position: u64, into: &mut [u8]) -> usize
        ensures count { result ≡ length (bytes_at self.now position (length into.old)) }
        ensures bytes { take result into.new ≡ bytes_at self.now position (length into.old) }
        ensures rest { drop result into.new ≡ drop result into.old }
        ensures within_limit { result ≤ 65536 - position }
    {
        if position >= self.size as u64 {
            return 0;
        }
        let start = position as usize;
        let count = into.len().min(self.size - start);
        self.pages.read(start, &mut into[..count]);
        count
    }

    /// Writes at a position, over what is there, and tells how many bytes were written: those that fit
    /// under the limit. A gap before the position becomes 0 bytes. Where bytes were given and not one
    /// fits, that is `EFBIG`, and the file is as it was.
    pub fn write_at(&mut self, position: u64, bytes: &[u8]) -> Result<usize, Errno>
        ensures ok { IfOk result (λ count. written self.old position bytes.now
            ≡ Ok (self.new, count)) }
        ensures within_limit { 0 < length bytes.now
            → IfOk result (λ count. position + count ≤ 65536) }
        ensures err { IfErr result (λ error. (written self.old position bytes.now ≡ Err error)
            × (self.new ≡ self.old)) }
    {
        write_over(&mut self.pages, &mut self.size, position, bytes)
    }

    /// Cuts the file to this many bytes, or extends it to them with 0 bytes.
    pub fn set_len(&mut self, size: u64)
        requires { size ≤ 65536 }
        ensures { self.new ≡ resized self.old size }
    {
        resize(&mut self.pages, &mut self.size, size as usize);
    }

    /// How many bytes the file has.
    pub fn len(&self) -> u64
        ensures size { result ≡ length self.now }
        ensures within_limit { result ≤ 65536 }
    {
        self.size as u64
    }

    /// Whether the file has no bytes.
    pub fn is_empty(&self) -> bool
        ensures { result ≡ (length self.now == 0) }
    {
        self.size == 0
    }

    /// Drops all bytes.
    pub fn clear(&mut self)
        ensures { self.new ≡ [] }
    {
        self.set_len(0);
    }
}

// The work of `write_at`, over the pages of a file. A place where no byte is written holds what it
// held before (`others`), so a gap takes no page.
#[tactic(auto, using(crate::proofs::Bytes::written_over))]
fn write_over(
    pages: &mut Pages,
    size: &mut usize,
    position: u64,
    bytes: &[u8],
) -> Result<usize, Errno>
    requires within { size.old ≤ 65536 }
    requires empty { EmptyBehind pages.old size.old }
    requires zero { ZeroFrom pages.old size.old }
    ensures ok { IfOk result (λ count. written (bytes_of pages.old size.old) position bytes.now
        ≡ Ok (bytes_of pages.new size.new, count)) }
    ensures within_limit { 0 < length bytes.now → IfOk result (λ count. position + count ≤ 65536) }
    ensures err { IfErr result (λ error. (written (bytes_of pages.old size.old) position bytes.now
        ≡ Err error) × (pages.new ≡ pages.old) × (size.new ≡ size.old)) }
    ensures others { IfOk result (λ count. SameOutside position count pages.old pages.new) }
    ensures within { size.new ≤ 65536 }
    ensures empty { EmptyBehind pages.new size.new }
    ensures zero { ZeroFrom pages.new size.new }
{
    if bytes.is_empty() {
        return Ok(0);
    }
    if position >= Limits::FILE_BYTES as u64 {
        return Err(Errno::EFBIG);
    }
    let start = position as usize;
    let count = bytes.len().min(Limits::FILE_BYTES - start);
    pages.write(start, &bytes[..count]);
    *size = (*size).max(start + count);
    Ok(count)
}

// The work of `set_len`, over the pages of a file. An extension takes no page, and a cut gives back
// those that lie after it.
#[tactic(auto, using(crate::proofs::Bytes::resized_bytes))]
fn resize(pages: &mut Pages, size: &mut usize, to: usize)
    requires fits { to ≤ 65536 }
    requires within { size.old ≤ 65536 }
    requires empty { EmptyBehind pages.old size.old }
    requires zero { ZeroFrom pages.old size.old }
    ensures bytes { bytes_of pages.new size.new ≡ resized (bytes_of pages.old size.old) to }
    ensures extension { size.old ≤ to → pages.new ≡ pages.old }
    ensures size { size.new ≡ to }
    ensures empty { EmptyBehind pages.new to }
    ensures zero { ZeroFrom pages.new to }
{
    if to < *size {
        pages.cut(to, *size);
    }
    *size = to;
}
