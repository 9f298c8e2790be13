ghost use Rattle.std.specs.Prelude.{◌≡◌};
ghost use Rattle.posix_terms.specs.Errors.{code_of, error_of, name_of};
ghost use Rattle.posix_terms.specs.declared.errno.Errno.{Errno};

/// The error numbers of this profile (POSIX.1-2017, `<errno.h>`).
#[derive(Clone, Copy, Debug, PartialEq, Eq, Hash)]
pub enum Errno {
    EBADF,
    EINVAL,
    EOVERFLOW,
    ESPIPE,
    EFBIG,
    EAGAIN,
    EPIPE,
    EINTR,
    EIO,
    ENOENT,
    EEXIST,
    ENOTDIR,
    EISDIR,
    ENOTEMPTY,
    EPERM,
    EACCES,
    EMFILE,
    ENFILE,
    ENOSPC,
    ENAMETOOLONG,
    ENOTSOCK,
    EBUSY,
    ECONNREFUSED,
    ECONNRESET,
    EADDRINUSE,
    ETIMEDOUT,
}

impl Errno {
    /// The number of the error in this profile, 1 to 26: a record of the log has it as its status
    /// byte, where 0 says that there is no error. These are not the numbers of any system.
    pub fn code(self) -> u8
        ensures { result ≡ code_of self }
    {
        match self {
            Errno::EBADF => 1,
            Errno::EINVAL => 2,
            Errno::EOVERFLOW => 3,
            Errno::ESPIPE => 4,
            Errno::EFBIG => 5,
            Errno::EAGAIN => 6,
            Errno::EPIPE => 7,
            Errno::EINTR => 8,
            Errno::EIO => 9,
            Errno::ENOENT => 10,
            Errno::EEXIST => 11,
            Errno::ENOTDIR => 12,
            Errno::EISDIR => 13,
            Errno::ENOTEMPTY => 14,
            Errno::EPERM => 15,
            Errno::EACCES => 16,
            Errno::EMFILE => 17,
            Errno::ENFILE => 18,
            Errno::ENOSPC => 19,
            Errno::ENAMETOOLONG => 20,
            Errno::ENOTSOCK => 21,
            Errno::EBUSY => 22,
            Errno::ECONNREFUSED => 23,
            Errno::ECONNRESET => 24,
            Errno::EADDRINUSE => 25,
            Errno::ETIMEDOUT => 26,
        }
    }

    /// The error with this number, if there is one.
    pub fn from_code(code: u8) -> Option<Errno>
        ensures { result ≡ error_of code }
    {
        Some(match code {
            1 => Errno::EBADF,
            2 => Errno::EINVAL,
            3 => Errno::EOVERFLOW,
            4 => Errno::ESPIPE,
            5 => Errno::EFBIG,
            6 => Errno::EAGAIN,
            7 => Errno::EPIPE,
            8 => Errno::EINTR,
            9 => Errno::EIO,
            10 => Errno::ENOENT,
            11 => Errno::EEXIST,
            12 => Errno::ENOTDIR,
            13 => Errno::EISDIR,
            14 => Errno::ENOTEMPTY,
            15 => Errno::EPERM,
            16 => Errno::EACCES,
            17 => Errno::EMFILE,
            18 => Errno::ENFILE,
            19 => Errno::ENOSPC,
            20 => Errno::ENAMETOOLONG,
            21 => Errno::ENOTSOCK,
            22 => Errno::EBUSY,
            23 => Errno::ECONNREFUSED,
            24 => Errno::ECONNRESET,
            25 => Errno::EADDRINUSE,
            26 => Errno::ETIMEDOUT,
            _ => return None,
        })
    }
}

/// The name of an error as POSIX writes it, for example `ENOENT`.
pub fn errno_name(error: Errno) -> &'static str
    ensures { result.now ≡ name_of error }
{
    match error {
        Errno::EBADF => "EBADF",
        Errno::EINVAL => "EINVAL",
        Errno::EOVERFLOW => "EOVERFLOW",
        Errno::ESPIPE => "ESPIPE",
        Errno::EFBIG => "EFBIG",
        Errno::EAGAIN => "EAGAIN",
        Errno::EPIPE => "EPIPE",
        Errno::EINTR => "EINTR",
        Errno::EIO => "EIO",
        Errno::ENOENT => "ENOENT",
        Errno::EEXIST => "EEXIST",
        Errno::ENOTDIR => "ENOTDIR",
        Errno::EISDIR => "EISDIR",
        Errno::ENOTEMPTY => "ENOTEMPTY",
        Errno::EPERM => "EPERM",
        Errno::EACCES => "EACCES",
        Errno::EMFILE => "EMFILE",
        Errno::ENFILE => "ENFILE",
        Errno::ENOSPC => "ENOSPC",
        Errno::ENAMETOOLONG => "ENAMETOOLONG",
        Errno::ENOTSOCK => "ENOTSOCK",
        Errno::EBUSY => "EBUSY",
        Errno::ECONNREFUSED => "ECONNREFUSED",
        Errno::ECONNRESET => "ECONNRESET",
        Errno::EADDRINUSE => "EADDRINUSE",
        Errno::ETIMEDOUT => "ETIMEDOUT",
    }
}

/// The law of the numbers: from the number of an error the same error comes back.
pub fn codes_lead_back()
    ensures { (error : Errno) → error_of (code_of error) ≡ Some error }
{}
