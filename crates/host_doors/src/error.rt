ghost use Rattle.std.specs.Prelude.{◌≡◌};
ghost use Rattle.host_doors.specs.Host.{error_of};

use posix_terms::Errno;
use std::io::ErrorKind;

/// The error code for a kind of failure of the host.
pub(crate) fn error_of(kind: ErrorKind) -> Errno
    ensures { result ≡ error_of kind }
{
    match kind {
        ErrorKind::NotFound => Errno::ENOENT,
        ErrorKind::PermissionDenied => Errno::EACCES,
        ErrorKind::AlreadyExists => Errno::EEXIST,
        ErrorKind::WouldBlock => Errno::EAGAIN,
        ErrorKind::Interrupted => Errno::EINTR,
        ErrorKind::BrokenPipe => Errno::EPIPE,
        ErrorKind::ConnectionRefused => Errno::ECONNREFUSED,
        ErrorKind::ConnectionReset => Errno::ECONNRESET,
        ErrorKind::AddrInUse => Errno::EADDRINUSE,
        ErrorKind::TimedOut => Errno::ETIMEDOUT,
        ErrorKind::InvalidInput => Errno::EINVAL,
        _ => Errno::EIO,
    }
}
