ghost use Rattle.std.specs.Prelude.{◌≡◌, IfOk};
ghost use Rattle.posix_terms.specs.Calls.{can_read, can_write, kind_of, word_of};

use crate::shared_bytes::SharedBytes;
use std::alloc::AllocError;

/// How an open file description may be used (`O_RDONLY`, `O_WRONLY`, `O_RDWR`).
#[derive(Clone, Copy, Debug, PartialEq, Eq, Hash)]
pub enum Access {
    ReadOnly,
    WriteOnly,
    ReadWrite,
}

impl Access {
    /// Whether a description with this access is open for reading.
    pub fn can_read(self) -> bool
        ensures { result ≡ can_read self }
    {
        self != Access::WriteOnly
    }

    /// Whether a description with this access is open for writing.
    pub fn can_write(self) -> bool
        ensures { result ≡ can_write self }
    {
        self != Access::ReadOnly
    }
}

/// The flags of `open`: `O_CREAT`, `O_EXCL`, `O_TRUNC`, `O_APPEND` and `O_NONBLOCK`.
#[derive(Clone, Copy, Debug, PartialEq, Eq, Hash)]
pub struct OpenFlags {
    pub create: bool,
    pub exclusive: bool,
    pub truncate: bool,
    pub append: bool,
    pub nonblock: bool,
}

/// From where `lseek` counts (`SEEK_SET`, `SEEK_CUR`, `SEEK_END`).
#[derive(Clone, Copy, Debug, PartialEq, Eq, Hash)]
pub enum Whence {
    Set,
    Current,
    End,
}

/// What `shutdown` shuts (`SHUT_RD`, `SHUT_WR`, `SHUT_RDWR`).
#[derive(Clone, Copy, Debug, PartialEq, Eq, Hash)]
pub enum ShutdownHow {
    Read,
    Write,
    Both,
}

/// One call, with its arguments as the thread gave them. Descriptors, counts, positions, sizes and
/// offsets may be any numbers, and a path any bytes: what is wrong with them is told by the reply.
///
/// A line of a script that makes a call has it in this type too: there `Number` and `Text` may be
/// registers, whose values are found when the line is executed.
#[derive(Clone, Debug, PartialEq, Eq, Drop)]
pub enum Call<Number = i64, Text = SharedBytes> {
    Open {
        path: SharedBytes,
        access: Access,
        flags: OpenFlags,
    },
    Close {
        descriptor: Number,
    },
    Read {
        descriptor: Number,
        count: Number,
    },
    Write {
        descriptor: Number,
        bytes: Text,
    },
    /// A read at a position, whatever the offset is.
    Pread {
        descriptor: Number,
        count: Number,
        position: Number,
    },
    /// A write at a position, whatever the offset and the flags are.
    Pwrite {
        descriptor: Number,
        bytes: Text,
        position: Number,
    },
    Lseek {
        descriptor: Number,
        offset: Number,
        whence: Whence,
    },
    Ftruncate {
        descriptor: Number,
        size: Number,
    },
    Fstat {
        descriptor: Number,
    },
    Dup {
        descriptor: Number,
    },
    /// `fcntl` with `F_DUPFD`: the new number is `least` or above.
    DupFrom {
        descriptor: Number,
        least: Number,
    },
    Dup2 {
        descriptor: Number,
        target: Number,
    },
    /// `fcntl` with `F_GETFL`.
    Getfl {
        descriptor: Number,
    },
    /// `fcntl` with `F_SETFL`: both flags become as given.
    Setfl {
        descriptor: Number,
        append: bool,
        nonblock: bool,
    },
    Link {
        old_path: SharedBytes,
        new_path: SharedBytes,
    },
    Unlink {
        path: SharedBytes,
    },
    /// `rename` of a file; directories keep their names.
    Rename {
        old_path: SharedBytes,
        new_path: SharedBytes,
    },
    Mkdir {
        path: SharedBytes,
    },
    Rmdir {
        path: SharedBytes,
    },
    Pipe,
    /// A pair of connected stream sockets in memory.
    Socketpair,
    Shutdown {
        descriptor: Number,
        how: ShutdownHow,
    },
    /// Opens a file of the host. `exclusive` and `nonblock` of the flags are ignored.
    HostOpen {
        path: SharedBytes,
        access: Access,
        flags: OpenFlags,
    },
    /// Listens at a port of 127.0.0.1, or where it is 0 at any that is free: `socket`, `bind` and `listen`.
    TcpListen {
        port: Number,
    },
    /// Connects to a port of 127.0.0.1: `socket` and `connect`.
    TcpConnect {
        port: Number,
    },
    /// `accept` at a listener. Outside it never waits: where nobody is there the outcome is EAGAIN, which blocks
    /// the call, or with O_NONBLOCK is its reply.
    TcpAccept {
        descriptor: Number,
    },
}

/// Which call it is.
#[derive(Clone, Copy, Debug, PartialEq, Eq, Hash)]
pub enum CallKind {
    Open,
    Close,
    Read,
    Write,
    Pread,
    Pwrite,
    Lseek,
    Ftruncate,
    Fstat,
    Dup,
    DupFrom,
    Dup2,
    Getfl,
    Setfl,
    Link,
    Unlink,
    Rename,
    Mkdir,
    Rmdir,
    Pipe,
    Socketpair,
    Shutdown,
    HostOpen,
    TcpListen,
    TcpConnect,
    TcpAccept,
}

impl<Number, Text> Call<Number, Text> {
    /// Which call this is.
    pub fn kind(&self) -> CallKind
        ensures { result ≡ kind_of self.now }
    {
        match self {
            Call::Open { .. } => CallKind::Open,
            Call::Close { .. } => CallKind::Close,
            Call::Read { .. } => CallKind::Read,
            Call::Write { .. } => CallKind::Write,
            Call::Pread { .. } => CallKind::Pread,
            Call::Pwrite { .. } => CallKind::Pwrite,
            Call::Lseek { .. } => CallKind::Lseek,
            Call::Ftruncate { .. } => CallKind::Ftruncate,
            Call::Fstat { .. } => CallKind::Fstat,
            Call::Dup { .. } => CallKind::Dup,
            Call::DupFrom { .. } => CallKind::DupFrom,
            Call::Dup2 { .. } => CallKind::Dup2,
            Call::Getfl { .. } => CallKind::Getfl,
            Call::Setfl { .. } => CallKind::Setfl,
            Call::Link { .. } => CallKind::Link,
            Call::Unlink { .. } => CallKind::Unlink,
            Call::Rename { .. } => CallKind::Rename,
            Call::Mkdir { .. } => CallKind::Mkdir,
            Call::Rmdir { .. } => CallKind::Rmdir,
            Call::Pipe => CallKind::Pipe,
            Call::Socketpair => CallKind::Socketpair,
            Call::Shutdown { .. } => CallKind::Shutdown,
            Call::HostOpen { .. } => CallKind::HostOpen,
            Call::TcpListen { .. } => CallKind::TcpListen,
            Call::TcpConnect { .. } => CallKind::TcpConnect,
            Call::TcpAccept { .. } => CallKind::TcpAccept,
        }
    }
}

impl Call {
    /// A copy of the call.
    pub fn try_clone(&self) -> Result<Call, AllocError>
        ensures { IfOk result (λ call. call ≡ self.now) }
    {
        self.clone()
    }
}

impl CallKind {
    /// All calls.
    pub const ALL: [CallKind; 26] = [
        CallKind::Open,
        CallKind::Close,
        CallKind::Read,
        CallKind::Write,
        CallKind::Pread,
        CallKind::Pwrite,
        CallKind::Lseek,
        CallKind::Ftruncate,
        CallKind::Fstat,
        CallKind::Dup,
        CallKind::DupFrom,
        CallKind::Dup2,
        CallKind::Getfl,
        CallKind::Setfl,
        CallKind::Link,
        CallKind::Unlink,
        CallKind::Rename,
        CallKind::Mkdir,
        CallKind::Rmdir,
        CallKind::Pipe,
        CallKind::Socketpair,
        CallKind::Shutdown,
        CallKind::HostOpen,
        CallKind::TcpListen,
        CallKind::TcpConnect,
        CallKind::TcpAccept,
    ];

    /// The name of the call in scripts and in printed transcripts, for example `lseek`.
    pub fn word(self) -> &'static str
        ensures { result.now ≡ word_of self }
    {
        match self {
            CallKind::Open => "open",
            CallKind::Close => "close",
            CallKind::Read => "read",
            CallKind::Write => "write",
            CallKind::Pread => "pread",
            CallKind::Pwrite => "pwrite",
            CallKind::Lseek => "lseek",
            CallKind::Ftruncate => "ftruncate",
            CallKind::Fstat => "fstat",
            CallKind::Dup => "dup",
            CallKind::DupFrom => "dup_from",
            CallKind::Dup2 => "dup2",
            CallKind::Getfl => "getfl",
            CallKind::Setfl => "setfl",
            CallKind::Link => "link",
            CallKind::Unlink => "unlink",
            CallKind::Rename => "rename",
            CallKind::Mkdir => "mkdir",
            CallKind::Rmdir => "rmdir",
            CallKind::Pipe => "pipe",
            CallKind::Socketpair => "socketpair",
            CallKind::Shutdown => "shutdown",
            CallKind::HostOpen => "host_open",
            CallKind::TcpListen => "tcp_listen",
            CallKind::TcpConnect => "tcp_connect",
            CallKind::TcpAccept => "tcp_accept",
        }
    }
}
