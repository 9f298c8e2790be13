use crate::outcomes::{GivenOutcome, outcomes};
use crate::runs::{SHORT_WRITE, WRITTEN};
use crate::seen::{Rows, SeenReply};
use machine::Stop;
use posix_terms::{Errno, Outcomes};
use std::alloc::{AllocError, Global};

// ## Runs and what is wanted of them

// A run whose scripts and outcomes are written down here.
pub(crate) type GivenRun = crate::record::GivenRun<'static>;

// How a run is to end, what its threads are to see, and the log that it is to write.
#[derive(Clone, Copy)]
pub(crate) struct WantedEnd {
    pub end: Option<Stop>,
    pub rows: Rows,
    pub log: &'static [u8],
}

// ## Worked runs

pub(crate) const PATIENCE_ON_A_PIPE: GivenRun = GivenRun {
    scripts: &[b"pipe\nread 0 4\nsetfl 0 nonblock\nread 0 4\nclose 1\nread 0 4\n"],
    came: &[],
    patience: 3,
    version: 1,
};

pub(crate) const PATIENCE_SEEN: WantedEnd = WantedEnd {
    end: None,
    rows: &[&[
        (1, SeenReply::Pair(0, 1)),
        (13, SeenReply::Fail(Errno::EINTR)),
        (17, SeenReply::Done),
        (19, SeenReply::Fail(Errno::EAGAIN)),
        (23, SeenReply::Done),
        (27, SeenReply::NoData),
    ]],
    log: b"DIOL\0\x01\0\x01\0\0\0\x03\0\0\0\x64E\0\0\0\0",
};

pub(crate) const SHORT_HOST_WRITE: GivenRun = GivenRun {
    scripts: &[SHORT_WRITE],
    came: &[WRITTEN],
    patience: 1000,
    version: 1,
};

// The log of an open, a short write and a write that failed, by one thread.
pub(crate) const SHORT_LOG: &[u8] = b"DIOL\0\x01\0\x01\0\0\x03\xe8\0\0\0\x64\
    R\0\0\0\0\0\0\x01\0\0\0\0\0\0\0\0\0\0\0\
    R\0\0\0\0\0\x01\x03\0\0\0\0\0\0\0\0\x03\0\0\
    R\0\0\0\0\0\x02\x03\x09\0\0\0\0\0\0\0\0\0\0\
    E\0\0\0\x03";

pub(crate) const SHORT_SEEN: WantedEnd = WantedEnd {
    end: None,
    rows: SHORT_ROWS,
    log: SHORT_LOG,
};

// The same with the clocks of its turns, in version 2.
pub(crate) const SHORT_WRITE_WITH_CLOCKS: GivenRun = GivenRun {
    scripts: &[SHORT_WRITE],
    came: &[WRITTEN],
    patience: 1000,
    version: 2,
};

pub(crate) const LOG_WITH_CLOCKS: &[u8] = b"DIOL\0\x02\0\x01\0\0\x03\xe8\0\0\0\x64\
    R\0\0\0\0\0\0\0\0\0\0\0\0\0\x01\x01\0\0\0\0\0\0\0\0\0\0\0\
    R\0\0\0\0\0\x01\0\0\0\0\0\0\0\x69\x03\0\0\0\0\0\0\0\0\x03\0\0\
    R\0\0\0\0\0\x02\0\0\0\0\0\0\0\xd1\x03\x09\0\0\0\0\0\0\0\0\0\0\
    E\0\0\0\x03";

pub(crate) const SEEN_WITH_CLOCKS: WantedEnd = WantedEnd {
    end: None,
    rows: SHORT_ROWS,
    log: LOG_WITH_CLOCKS,
};

// What its thread saw, with the clocks of the turns.
pub(crate) const SHORT_ROW: &[(u64, SeenReply)] = &[
    (1, SeenReply::Number(0)),
    (105, SeenReply::Count(3)),
    (209, SeenReply::Fail(Errno::EIO)),
];

pub(crate) const SHORT_ROWS: Rows = &[SHORT_ROW];

pub(crate) const READER_WAITS: GivenRun = GivenRun {
    scripts: &[b"pipe\nwork 20\nwrite 1 x7a\n", b"work 5\nread 0 1\n"],
    came: &[],
    patience: 1000,
    version: 1,
};

pub(crate) const READER_SEEN: WantedEnd = WantedEnd {
    end: None,
    rows: &[
        &[(1, SeenReply::Pair(0, 1)), (25, SeenReply::Count(1))],
        &[(28, SeenReply::Byte(b'z'))],
    ],
    log: b"DIOL\0\x01\0\x02\0\0\x03\xe8\0\0\0\x64E\0\0\0\0",
};

// ## What is made of them

// What comes for each thread.
pub(crate) fn lists(alloc: Global, run: GivenRun) -> Result<Vec<Outcomes>, AllocError> {
    outcomes(alloc, run.scripts.len(), run.came)
}
