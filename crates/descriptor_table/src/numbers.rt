ghost use Rattle.std.specs.Prelude.{◌≡◌, ◌<◌, pos, IfOk};
ghost use Rattle.std.specs.Str.{is_utf8};
ghost use Rattle.sequential_object.specs.Doors.{host_path, port_of};
ghost use Rattle.sequential_object.specs.Duplicates.{descriptor_number};
ghost use Rattle.sequential_object.specs.Refusals.{count_of, position_of};
ghost use Rattle.sequential_object.specs.Transfers.{size_of};
ghost use Rattle.sequential_object.specs.Bytes.{or_none, read_count};

use posix_terms::{Call, Errno, Limits};

// How many bytes a read asks for.
pub fn count_of(count: i64) -> Result<usize, Errno>
    ensures { result ≡ count_of count }
{
    match usize::try_from(count) {
        Ok(count) if count <= Limits::COUNT => Ok(count),
        _ => Err(Errno::EINVAL),
    }
}

/// How many bytes a call reads at most: as many as it asks for, where that is a legal count, and none where it
/// is not or where the call reads nothing. Whoever makes the call needs room for so many.
pub fn read_count(call: &Call) -> usize
    ensures { result ≡ read_count call.now }
{
    match call {
        Call::Read { count, .. } | Call::Pread { count, .. } => or_none(count_of(*count)),
        _ => 0,
    }
}

// None where the count is refused.
fn or_none(count: Result<usize, Errno>) -> usize
    ensures { result ≡ or_none count }
{
    match count {
        Ok(count) => count,
        Err(_) => 0,
    }
}

// A position in a file.
pub fn position_of(position: i64) -> Result<u64, Errno>
    ensures { result ≡ position_of position }
{
    match u64::try_from(position) {
        Ok(position) => Ok(position),
        Err(_) => Err(Errno::EINVAL),
    }
}

// A length that a file can have.
pub fn size_of(size: i64) -> Result<usize, Errno>
    ensures { result ≡ size_of size }
{
    match usize::try_from(size) {
        Ok(size) if size <= Limits::FILE_BYTES => Ok(size),
        Ok(_) => Err(Errno::EFBIG),
        Err(_) => Err(Errno::EINVAL),
    }
}

// A port from this one on.
pub fn port_of(least: u64, port: i64) -> Result<u64, Errno>
    ensures { result ≡ port_of least port }
{
    match u64::try_from(port) {
        Ok(port) if port >= least && port <= 65_535 => Ok(port),
        _ => Err(Errno::EINVAL),
    }
}

// A path that can be handed to the host.
pub fn check_host_path(path: &[u8]) -> Result<(), Errno>
    ensures { result ≡ host_path path.now }
{
    if path.is_empty() {
        return Err(Errno::ENOENT);
    }
    if path.len() > Limits::PATH_BYTES {
        return Err(Errno::ENAMETOOLONG);
    }
    if path.contains(&0) || !is_utf8(path) {
        return Err(Errno::EINVAL);
    }
    Ok(())
}

// Whether bytes are the UTF-8 of some text.
#[tactic(auto, using(crate::proofs::TextLemmas::utf8))]
fn is_utf8(bytes: &[u8]) -> bool
    ensures { result ≡ is_utf8 bytes.now }
{
    match str::from_utf8(bytes) {
        Ok(_) => true,
        Err(_) => false,
    }
}

// A number that a descriptor can have; another is refused as the caller says.
pub fn descriptor_number(number: i64, error: Errno) -> Result<usize, Errno>
    ensures number { result ≡ descriptor_number number error }
    ensures same { IfOk result (λ n. number ≡ pos n) }
    ensures inside { IfOk result (λ n. n < Limits.DESCRIPTORS) }
{
    match usize::try_from(number) {
        Ok(number) if number < Limits::DESCRIPTORS => Ok(number),
        _ => Err(error),
    }
}
