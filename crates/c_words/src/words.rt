/// A call as C says it: its kind and those operands that it has. Paths and bytes stand beside it.
#[repr(C)]
#[derive(Clone, Copy)]
pub struct CallWords {
    /// 1 to 26, in the order of `CallKind::ALL`.
    pub kind: u32,
    /// How a file is opened, from where a seek counts, or what a shutdown shuts: 0, 1 or 2.
    pub choice: u32,
    /// Of 1 create, 2 exclusive, 4 truncate, 8 append and 16 nonblock.
    pub flags: u32,
    /// The descriptor that the call is about.
    pub descriptor: i64,
    /// The count, size, offset, least number, target or port.
    pub number: i64,
    /// The position of `pread` and `pwrite`.
    pub position: i64,
}

/// A reply.
#[repr(C)]
#[derive(Clone, Copy)]
pub struct ReplyWords {
    /// 1 a count, 2 data, 3 a number, 4 a pair, 5 what `fstat` found, 6 done, 7 a failure.
    pub kind: u32,
    /// The number of the error of a failure, 1 to 26.
    pub error: u32,
    /// A count of bytes; of `fstat` the length or the port.
    pub count: u64,
    /// A number, the first of a pair, or of `fstat` the kind of object.
    pub first: i64,
    /// The second of a pair.
    pub second: i64,
    /// The names of a file.
    pub links: u64,
}

/// What a thread asks outside.
#[repr(C)]
#[derive(Clone, Copy)]
pub struct OutsideWords {
    /// 1 to 9: open, read, write, seek, listen, connect, accept, shutdown and close.
    pub kind: u32,
    /// Whether the call waits for its peer, so that EAGAIN is not its reply.
    pub waits: bool,
    /// The count of bytes, or the port.
    pub asked: u64,
    /// How long the path or the bytes of the call are.
    pub length: usize,
    /// The call, without them.
    pub call: CallWords,
}

/// What came from outside.
#[repr(C)]
#[derive(Clone, Copy)]
pub struct OutcomeWords {
    /// 0, or the number of the error, 1 to 26.
    pub error: u32,
    /// The count of bytes, the offset or the port.
    pub value: u64,
    /// How long the bytes of a read are.
    pub length: usize,
    /// The door that went out, where it comes back.
    pub back: u64,
    /// The door that was opened, where one was.
    pub opened: u64,
}

/// What a run is made with.
#[repr(C)]
#[derive(Clone, Copy)]
pub struct RunWords {
    /// How many bytes the words have that C says, so that later ones break nobody.
    pub size: usize,
    /// How many threads there are.
    pub threads: usize,
    /// For how many turns a call may be blocked.
    pub patience: u32,
    /// What a call that goes outside costs.
    pub door_cost: u32,
    /// The version of the log, 1 or 2.
    pub version: u32,
    /// For how many bytes the log has room.
    pub room: usize,
}

/// What a run left.
#[repr(C)]
#[derive(Clone, Copy)]
pub struct RunEnd {
    /// 0 where all threads have ended, and the log has its end; 1 where some have not; else why the
    /// run was stopped: 2 memory, 3 the log had no room, 4 a clock was full, 5 a log ended, 6 a log
    /// diverged.
    pub how: u32,
    /// The thread that a log ended for, or diverged for.
    pub thread: usize,
    /// How long the log is.
    pub length: usize,
}
