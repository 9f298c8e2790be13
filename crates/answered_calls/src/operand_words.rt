// The words of scripts for what is no number, path, bytes or flag.
ghost use Rattle.std.specs.Prelude.{◌≡◌};
ghost use Rattle.answered_calls.specs.Operands.{access_word, how_word, status_flags, whence_word};

use posix_terms::{Access, OpenFlags, ShutdownHow, Whence};

/// How something is opened.
pub(crate) fn access_word(access: Access) -> &'static str
    ensures { result.now ≡ access_word access }
{
    match access {
        Access::ReadOnly => "r",
        Access::WriteOnly => "w",
        Access::ReadWrite => "rw",
    }
}

/// From where an offset counts.
pub(crate) fn whence_word(whence: Whence) -> &'static str
    ensures { result.now ≡ whence_word whence }
{
    match whence {
        Whence::Set => "set",
        Whence::Current => "cur",
        Whence::End => "end",
    }
}

/// What of a socket is shut.
pub(crate) fn how_word(how: ShutdownHow) -> &'static str
    ensures { result.now ≡ how_word how }
{
    match how {
        ShutdownHow::Read => "read",
        ShutdownHow::Write => "write",
        ShutdownHow::Both => "both",
    }
}

/// The flags that `setfl` sets.
pub(crate) fn status_flags(append: bool, nonblock: bool) -> OpenFlags
    ensures { result ≡ status_flags append nonblock }
{
    OpenFlags {
        create: false,
        exclusive: false,
        truncate: false,
        append,
        nonblock,
    }
}
