use posix_terms::{Access, End, Reply, ShutdownHow, Side};

/// An open file description, as a call finds it by a descriptor.
#[derive(Clone, Copy, Debug, PartialEq, Eq)]
pub struct Seen {
    /// The number of the descriptor.
    pub number: usize,
    /// The key of the description. A table may give it to another one once this one is gone.
    pub key: usize,
    /// How many descriptions had been made before it.
    pub birth: u128,
    pub object: usize,
    pub end: End,
    pub access: Access,
    pub append: bool,
    pub nonblock: bool,
    /// Whether no other descriptor refers to it.
    pub last: bool,
}

/// A descriptor that a change makes, with a new description: its number, and the object.
#[derive(Clone, Copy, Debug, PartialEq, Eq)]
pub struct NewDescriptor {
    pub number: usize,
    pub object: usize,
    pub access: Access,
    pub append: bool,
    pub nonblock: bool,
}

/// The two descriptors that a change makes for the ends of a new object, and that object.
#[derive(Clone, Copy, Debug, PartialEq, Eq)]
pub struct NewEnds {
    pub first: usize,
    pub second: usize,
    pub object: usize,
}

/// What a call does to the object that it locks. The bytes of a write, and what `lseek` adds and
/// from where, are in the call. The description is here where its offset is read or moved.
#[derive(Clone, Copy, Debug, PartialEq, Eq)]
pub enum Act {
    /// A file that is there is opened at this number. Where it is cut it has no bytes.
    Open { number: usize, cut: bool },
    /// A new file is opened at this number. The change made its content; who keeps contents apart
    /// from the table has to clear it.
    Create { number: usize },
    /// The last descriptor of a description, or the last name of a file, is gone: the act only
    /// replies.
    Release,
    Read { from: Seen, count: usize },
    /// The call's bytes but for the first `before`, which earlier turns wrote.
    Write { to: Seen, before: u64 },
    Pread { count: usize, position: u64 },
    Pwrite { position: u64 },
    Lseek { at: Seen },
    Ftruncate { size: usize },
    /// The file has this many names.
    Fstat { links: usize },
    /// A pipe was made by the change, with nothing in it, and its ends have these numbers. Who keeps
    /// contents apart from the table has to clear it.
    Pipe { first: usize, second: usize },
    /// A pair of sockets was made by the change, where nothing waits and nothing is shut, and has
    /// these numbers. Who keeps contents apart from the table has to clear it.
    Socketpair { first: usize, second: usize },
    Shutdown { side: Side, how: ShutdownHow },
}

/// What a call changes of descriptors, descriptions and names, and which object it makes or ends.
/// Paths are those of the call.
#[derive(Clone, Copy, Debug, PartialEq, Eq)]
pub enum Change {
    Nothing,
    /// The descriptor `number`, which is not open, refers to the description `key` from now on.
    Share {
        number: usize,
        key: usize,
    },
    /// The descriptor `number`, which refers to the description `key`, is closed.
    Close {
        number: usize,
        key: usize,
    },
    /// The descriptor `number`, which refers to the description `old_key`, is closed, and refers to
    /// `key` from now on.
    Replace {
        number: usize,
        old_key: usize,
        key: usize,
    },
    /// The description `key` gets these flags.
    SetFlags {
        key: usize,
        append: bool,
        nonblock: bool,
    },
    /// The path names this file.
    AddFile {
        object: usize,
    },
    /// The path names a directory.
    AddDirectory,
    /// The path names this file no more.
    RemoveFile {
        object: usize,
    },
    /// The path names its directory no more.
    RemoveDirectory,
    /// The path names this file, which the old path names no more; a file that the path named loses
    /// that name.
    Rename {
        object: usize,
        lost: Option<usize>,
    },
    /// A file that is there is opened.
    OpenFile(NewDescriptor),
    /// A file is made, which the path names, and opened.
    MakeFile(NewDescriptor),
    MakePipe(NewEnds),
    MakeSockets(NewEnds),
}

/// What a call does with the object that it locked.
#[derive(Clone, Copy, Debug, PartialEq, Eq)]
pub enum Deed {
    /// It acts on it, after a change of the table.
    Acts {
        act: Act,
        change: Change,
    },
    /// It goes outside through it, since it is a door. Nothing changes. `blocks`: whether `EAGAIN`
    /// blocks the call instead of being its reply.
    Asks {
        blocks: bool,
    },
    /// It closes it outside, a door, with its last descriptor, which is free whatever comes of that.
    Closes {
        number: usize,
        key: usize,
    },
    /// It opens a door outside, which the object becomes, and keeps the table locked until that
    /// ended. `listener`: whose door the call takes along. The descriptor is made only where that
    /// succeeds.
    Opens {
        blocks: bool,
        listener: Option<usize>,
        new: NewDescriptor,
    },
}

/// What is decided of a call that is not refused.
#[derive(Debug, PartialEq, Eq, Drop)]
pub enum Decision {
    /// The table alone replies.
    Replies { reply: Reply, change: Change },
    /// An object is locked.
    Locks { object: usize, deed: Deed },
}
