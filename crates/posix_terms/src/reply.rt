ghost use Rattle.std.specs.Prelude.{◌≡◌, IfOk};
ghost use Rattle.posix_terms.specs.Replies.{kind_code};

use crate::bytes::Bytes;
use crate::errno::Errno;
use std::alloc::AllocError;

/// What a descriptor can refer to, as `fstat` tells it.
#[derive(Clone, Copy, Debug, PartialEq, Eq, Hash)]
pub enum ObjectKind {
    File,
    Pipe,
    SocketPair,
    HostFile,
    Listener,
    Stream,
}

impl ObjectKind {
    /// The number that a reply of `fstat` is printed with, 1 to 6.
    pub fn code(self) -> u8
        ensures { result ≡ kind_code self }
    {
        match self {
            ObjectKind::File => 1,
            ObjectKind::Pipe => 2,
            ObjectKind::SocketPair => 3,
            ObjectKind::HostFile => 4,
            ObjectKind::Listener => 5,
            ObjectKind::Stream => 6,
        }
    }
}

/// What a thread gets back from a call.
#[derive(Debug, PartialEq, Eq, Drop)]
pub enum Reply {
    /// How many bytes were written.
    Count(u64),
    /// The bytes read: none at the end.
    Data(Bytes),
    /// A descriptor, an offset or flags.
    Number(i64),
    /// Two descriptors.
    Pair(i64, i64),
    /// A file's length or a listener's port, else 0; a file's names, else 0.
    Stat {
        kind: ObjectKind,
        number: u64,
        links: u64,
    },
    /// The call was done and has nothing to tell.
    Done,
    /// The call failed.
    Fail(Errno),
}

impl Reply {
    /// A copy of the reply.
    pub fn try_clone(&self) -> Result<Reply, AllocError>
        ensures { IfOk result (λ reply. reply ≡ self.now) }
    {
        Ok(match self {
            Reply::Count(count) => Reply::Count(*count),
            Reply::Data(bytes) => Reply::Data(bytes.try_clone()?),
            Reply::Number(number) => Reply::Number(*number),
            Reply::Pair(first, second) => Reply::Pair(*first, *second),
            Reply::Stat {
                kind,
                number,
                links,
            } => Reply::Stat {
                kind: *kind,
                number: *number,
                links: *links,
            },
            Reply::Done => Reply::Done,
            Reply::Fail(error) => Reply::Fail(*error),
        })
    }
}

/// How one attempt at a call ended: with its reply, or blocked, and then the call is made again at a
/// later turn.
#[derive(Debug, PartialEq, Eq, Drop)]
pub enum Answer {
    Reply(Reply),
    Again,
}
