ghost use Rattle.std.specs.Prelude.{◌≡◌, ◌≤◌, ◌↔◌, Some, IfErr, IfOk, IsOk, IsSome, option_map};
ghost use Rattle.std.specs.Prelude.{take};
ghost use Rattle.std.specs.IoError.{error_kind};
ghost use Rattle.std.specs.declared.io.ErrorKind.TheVariants as kind;
ghost use Rattle.host_doors.specs.Asked.{CanSeek, IsShutdown, Opens, OpensText, Seeks, Shuts};
ghost use Rattle.host_doors.specs.Asked.{bytes_of};

use posix_terms::{Access, Call, Limits, OpenFlags, ShutdownHow, Whence};
use std::io;
use std::io::{ErrorKind, SeekFrom};
use std::net::Shutdown;

/// A host file that a call opens.
#[derive(Clone, Copy)]
pub(crate) struct HostFile<'a> {
    pub(crate) path: &'a str,
    pub(crate) access: Access,
    pub(crate) flags: OpenFlags,
}

/// The file that the call opens. `InvalidInput` where the path is not UTF-8.
pub(crate) fn file_to_open(call: &Call) -> io::Result<HostFile<'_>>
    ensures file { IfOk result (λ file. Opens call.now file.path.now file.access file.flags) }
    ensures ok { IsOk result ↔ OpensText call.now }
    ensures error { IfErr result (λ error. error_kind error ≡ kind.InvalidInput) }
{
    let Call::HostOpen {
        path,
        access,
        flags,
    } = call
    else {
        return Err(ErrorKind::InvalidInput.into());
    };
    let Ok(path) = str::from_utf8(path.as_slice()) else {
        return Err(ErrorKind::InvalidInput.into());
    };
    Ok(HostFile {
        path,
        access: *access,
        flags: *flags,
    })
}

/// The bytes that the call writes, but no more than so many.
pub(crate) fn bytes_to_write(call: &Call, most: u64) -> io::Result<&[u8]>
    ensures bytes { IfOk result (λ front. Some front.now
        ≡ option_map (take most) (bytes_of call.now)) }
    ensures ok { IsOk result ↔ IsSome (bytes_of call.now) }
    ensures error { IfErr result (λ error. error_kind error ≡ kind.InvalidInput) }
{
    let Call::Write { bytes, .. } = call else {
        return Err(ErrorKind::InvalidInput.into());
    };
    let bytes = bytes.as_slice();
    let (front, _) = bytes.split_at(bytes.len().min(most as usize));
    Ok(front)
}

/// The place that the call seeks. `InvalidInput` where it lies before the beginning.
pub(crate) fn place_to_seek(call: &Call) -> io::Result<SeekFrom>
    ensures place { IfOk result (λ place. Seeks call.now place) }
    ensures ok { IsOk result ↔ CanSeek call.now }
    ensures error { IfErr result (λ error. error_kind error ≡ kind.InvalidInput) }
{
    let Call::Lseek { offset, whence, .. } = call else {
        return Err(ErrorKind::InvalidInput.into());
    };
    match whence {
        Whence::Set => match u64::try_from(*offset) {
            Ok(offset) => Ok(SeekFrom::Start(offset)),
            Err(_) => Err(ErrorKind::InvalidInput.into()),
        },
        Whence::Current => Ok(SeekFrom::Current(*offset)),
        Whence::End => Ok(SeekFrom::End(*offset)),
    }
}

/// What of a stream the call shuts.
pub(crate) fn directions_to_end(call: &Call) -> io::Result<Shutdown>
    ensures directions { IfOk result (λ directions. Shuts call.now directions) }
    ensures ok { IsOk result ↔ IsShutdown call.now }
    ensures error { IfErr result (λ error. error_kind error ≡ kind.InvalidInput) }
{
    let Call::Shutdown { how, .. } = call else {
        return Err(ErrorKind::InvalidInput.into());
    };
    Ok(match how {
        ShutdownHow::Read => Shutdown::Read,
        ShutdownHow::Write => Shutdown::Write,
        ShutdownHow::Both => Shutdown::Both,
    })
}

/// The port that was asked for.
pub(crate) fn port_of(asked: u64) -> io::Result<u16>
    ensures port { IfOk result (λ port. port ≡ asked) }
    ensures ok { IsOk result ↔ (asked ≤ Limits.PORT) }
    ensures error { IfErr result (λ error. error_kind error ≡ kind.InvalidInput) }
{
    match u16::try_from(asked) {
        Ok(port) => Ok(port),
        Err(_) => Err(ErrorKind::InvalidInput.into()),
    }
}
