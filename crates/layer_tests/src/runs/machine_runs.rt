use crate::runs::plain_runs::{KindAndValue, NotRun, SHORT_TEXT, SHORT_WRITE_LOG, plain};
use crate::runs::seen::{RowReply, replied, was_blocked};
use call_machine::{Plain, Stop};
use posix_terms::{Errno, OutKind, PackedRow, Settings};
use std::alloc::Global;

const NOTHING: &[KindAndValue] = &[];

const DEFAULTS: Settings = Settings {
    patience: 1000,
    door_cost: 100,
    version: 1,
};

const WITH_CLOCKS: Settings = Settings {
    patience: 1000,
    door_cost: 100,
    version: 2,
};

// The door cost that is usual, and a patience of so many turns.
const ONE_TURN: Settings = Settings {
    patience: 1,
    door_cost: 100,
    version: 1,
};

const TWO_TURNS: Settings = Settings {
    patience: 2,
    door_cost: 100,
    version: 1,
};

const THREE_TURNS: Settings = Settings {
    patience: 3,
    door_cost: 100,
    version: 1,
};

// ## What is wanted of a run

// A row: its clock, its thread and its reply, or none where the call was blocked.
type WantedRow = (u64, usize, Option<RowReply>);

#[derive(Clone, Copy)]
enum WantedOfRun {
    // it comes to its end
    Whole,
    Stops(Stop),
    Rows(&'static [WantedRow]),
    Log(&'static [u8]),
}

fn is_row(row: &PackedRow, wanted: WantedRow) -> bool {
    match wanted {
        (clock, thread, Some(seen)) => replied(row, thread, clock, seen),
        (clock, thread, None) => was_blocked(row, thread, clock),
    }
}

fn are_rows(rows: &[PackedRow], wanted: &[WantedRow]) -> bool {
    rows.len() == wanted.len()
        && rows
            .iter()
            .zip(wanted)
            .all(|(row, wanted)| is_row(row, *wanted))
}

fn is_met(plain: &Plain, wanted: WantedOfRun) -> bool {
    match wanted {
        WantedOfRun::Whole => plain.stop.is_none(),
        WantedOfRun::Stops(stop) => plain.stop == Some(stop),
        WantedOfRun::Rows(wanted) => are_rows(plain.history.rows(), wanted),
        WantedOfRun::Log(log) => plain.log.as_slice() == log,
    }
}

// The number of the first of these that is not as it is wanted.
fn first_not_met(plain: &Plain, all: &[WantedOfRun]) -> Option<usize> {
    for (number, wanted) in all.iter().enumerate() {
        if !is_met(plain, *wanted) {
            return Some(number);
        }
    }
    None
}

// Scripts, what comes for each, with which settings they are run, and what is wanted of their run.
#[derive(Clone, Copy)]
struct MachineCase {
    texts: &'static [&'static str],
    came: &'static [&'static [KindAndValue]],
    settings: Settings,
    wanted: &'static [WantedOfRun],
}

fn not_met(alloc: Global, case: &MachineCase) -> Result<Option<usize>, NotRun> {
    let plain = plain(alloc, case.texts, case.came, case.settings)?;
    Ok(first_not_met(&plain, case.wanted))
}

// ## Runs that stay in memory

const IN_MEMORY: &[MachineCase] = &[
    // An open, a write and a failed close.
    MachineCase {
        texts: &["open /a rw create\nwrite 0 x68656c6c6f\nclose 7"],
        came: &[NOTHING],
        settings: DEFAULTS,
        wanted: &[
            WantedOfRun::Whole,
            WantedOfRun::Rows(&[
                (1, 0, Some(RowReply::Number(0))),
                (5, 0, Some(RowReply::Count(5))),
                (9, 0, Some(RowReply::Fail(Errno::EBADF))),
            ]),
        ],
    },
    // The log of a run for which nothing comes: a header with the number of threads and the settings, and an end
    // without records.
    MachineCase {
        texts: &[""],
        came: &[NOTHING],
        settings: DEFAULTS,
        wanted: &[WantedOfRun::Log(b"DIOL\0\x01\0\x01\0\0\x03\xe8\0\0\0\x64E\0\0\0\0")],
    },
    MachineCase {
        texts: &[""],
        came: &[NOTHING],
        settings: WITH_CLOCKS,
        wanted: &[WantedOfRun::Log(b"DIOL\0\x02\0\x01\0\0\x03\xe8\0\0\0\x64E\0\0\0\0")],
    },
    MachineCase {
        texts: &["open /a rw create", "", "close 0"],
        came: &[NOTHING; 3],
        settings: Settings {
            patience: 7,
            door_cost: 1_000_000,
            version: 1,
        },
        wanted: &[WantedOfRun::Log(b"DIOL\0\x01\0\x03\0\0\0\x07\0\x0f\x42\x40E\0\0\0\0")],
    },
    // Rows stand in the order of their turns: the early one at 1, and the late one at 4.
    MachineCase {
        texts: &[
            "work 3\nopen /a rw create",
            "open /b rw create\nwork 1000000",
        ],
        came: &[NOTHING; 2],
        settings: DEFAULTS,
        wanted: &[
            WantedOfRun::Whole,
            WantedOfRun::Rows(&[
                (1, 1, Some(RowReply::Number(0))),
                (4, 0, Some(RowReply::Number(1))),
            ]),
        ],
    },
    // A call has a row for each turn at which it is blocked, and one for its last: it is blocked at 5 and 9, and
    // interrupted at 13.
    MachineCase {
        texts: &["pipe\nread 0 4"],
        came: &[NOTHING],
        settings: THREE_TURNS,
        wanted: &[
            WantedOfRun::Whole,
            WantedOfRun::Rows(&[
                (1, 0, Some(RowReply::Pair(0, 1))),
                (5, 0, None),
                (9, 0, None),
                (13, 0, Some(RowReply::Fail(Errno::EINTR))),
            ]),
        ],
    },
];

// ## Runs that go outside

const FOUND: KindAndValue = (OutKind::Open, Ok(0));

const NOT_READY: KindAndValue = (OutKind::Write, Err(Errno::EAGAIN));

const WRITE_A: &str = "host_open out w\nwrite 0 x61";

const READY_AT_LAST_LOG: &[u8] = b"DIOL\0\x01\0\x01\0\0\0\x03\0\0\0\x64\
    R\0\0\0\0\0\0\x01\0\0\0\0\0\0\0\0\0\0\0\
    R\0\0\0\0\0\x01\x03\x06\0\0\0\0\0\0\0\0\0\0\
    R\0\0\0\0\0\x02\x03\x06\0\0\0\0\0\0\0\0\0\0\
    R\0\0\0\0\0\x03\x03\0\0\0\0\0\0\0\0\x01\0\0\
    E\0\0\0\x04";

// In version 2 each record has the clock of its turn, of a blocked one too.
const READY_AT_LAST_CLOCKS: &[u8] = b"DIOL\0\x02\0\x01\0\0\0\x03\0\0\0\x64\
    R\0\0\0\0\0\0\0\0\0\0\0\0\0\x01\x01\0\0\0\0\0\0\0\0\0\0\0\
    R\0\0\0\0\0\x01\0\0\0\0\0\0\0\x69\x03\x06\0\0\0\0\0\0\0\0\0\0\
    R\0\0\0\0\0\x02\0\0\0\0\0\0\0\xd1\x03\x06\0\0\0\0\0\0\0\0\0\0\
    R\0\0\0\0\0\x03\0\0\0\0\0\0\x01\x39\x03\0\0\0\0\0\0\0\0\x01\0\0\
    E\0\0\0\x04";

const OUTSIDE: &[MachineCase] = &[
    // An open, 3 bytes written, and EIO; and a log of three records.
    MachineCase {
        texts: &[SHORT_TEXT],
        came: &[&[
            FOUND,
            (OutKind::Write, Ok(3)),
            (OutKind::Write, Err(Errno::EIO)),
        ]],
        settings: DEFAULTS,
        wanted: &[
            WantedOfRun::Whole,
            WantedOfRun::Rows(&[
                (1, 0, Some(RowReply::Number(0))),
                (105, 0, Some(RowReply::Count(3))),
                (209, 0, Some(RowReply::Fail(Errno::EIO))),
            ]),
            WantedOfRun::Log(SHORT_WRITE_LOG),
        ],
    },
    // EAGAIN makes a door call wait, up to its patience: it is blocked at 105, and interrupted at 209.
    MachineCase {
        texts: &[WRITE_A],
        came: &[&[FOUND, NOT_READY, NOT_READY]],
        settings: TWO_TURNS,
        wanted: &[
            WantedOfRun::Whole,
            WantedOfRun::Rows(&[
                (1, 0, Some(RowReply::Number(0))),
                (105, 0, None),
                (209, 0, Some(RowReply::Fail(Errno::EINTR))),
            ]),
        ],
    },
    // At the end of its patience it fails, and at once where its description is not to block.
    MachineCase {
        texts: &[WRITE_A],
        came: &[&[FOUND, NOT_READY]],
        settings: ONE_TURN,
        wanted: &[
            WantedOfRun::Whole,
            WantedOfRun::Rows(&[
                (1, 0, Some(RowReply::Number(0))),
                (105, 0, Some(RowReply::Fail(Errno::EINTR))),
            ]),
        ],
    },
    MachineCase {
        texts: &["host_open out w\nsetfl 0 nonblock\nwrite 0 x61"],
        came: &[&[FOUND, NOT_READY]],
        settings: ONE_TURN,
        wanted: &[
            WantedOfRun::Whole,
            WantedOfRun::Rows(&[
                (1, 0, Some(RowReply::Number(0))),
                (105, 0, Some(RowReply::Done)),
                (107, 0, Some(RowReply::Fail(Errno::EAGAIN))),
            ]),
        ],
    },
    // Each turn of a call that is made again has a record, and is in the history with its outcome: it is blocked at
    // 105 and 209, and written at 313. That is a log of four records, and four rows.
    MachineCase {
        texts: &[WRITE_A],
        came: &[&[FOUND, NOT_READY, NOT_READY, (OutKind::Write, Ok(1))]],
        settings: THREE_TURNS,
        wanted: &[
            WantedOfRun::Whole,
            WantedOfRun::Log(READY_AT_LAST_LOG),
            WantedOfRun::Rows(&[
                (1, 0, Some(RowReply::Number(0))),
                (105, 0, None),
                (209, 0, None),
                (313, 0, Some(RowReply::Count(1))),
            ]),
        ],
    },
    MachineCase {
        texts: &[WRITE_A],
        came: &[&[FOUND, NOT_READY, NOT_READY, (OutKind::Write, Ok(1))]],
        settings: Settings {
            patience: 3,
            door_cost: 100,
            version: 2,
        },
        wanted: &[WantedOfRun::Whole, WantedOfRun::Log(READY_AT_LAST_CLOCKS)],
    },
];

// ## Runs in which an outcome is missing, is of another kind, or does not fit

const DIVERGING: &[&str] = &[
    "host_open a w create\nwrite 0 x6162",
    "open /c rw create\npipe",
];

const NINE_TURNS: Settings = Settings {
    patience: 9,
    door_cost: 3,
    version: 1,
};

// The log of what came for the diverging scripts, up to the outcome
// that does not answer: examples/log-of-a-diverged-run
// replays it.
const FOUND_LOG: &[u8] = b"DIOL\0\x01\0\x02\0\0\0\x09\0\0\0\x03\
    R\0\0\0\0\0\0\x01\0\0\0\0\0\0\0\0\0\0\0";

const UNANSWERED: &[MachineCase] = &[
    MachineCase {
        texts: &[SHORT_TEXT],
        came: &[NOTHING],
        settings: DEFAULTS,
        wanted: &[WantedOfRun::Stops(Stop::EndOfLog(0))],
    },
    MachineCase {
        texts: &[SHORT_TEXT],
        came: &[&[FOUND]],
        settings: DEFAULTS,
        wanted: &[WantedOfRun::Stops(Stop::EndOfLog(0))],
    },
    MachineCase {
        texts: &[SHORT_TEXT],
        came: &[&[FOUND, (OutKind::Seek, Ok(0))]],
        settings: DEFAULTS,
        wanted: &[WantedOfRun::Stops(Stop::Diverged(0, 1))],
    },
    MachineCase {
        texts: &[SHORT_TEXT],
        came: &[&[FOUND, (OutKind::Write, Ok(9))]],
        settings: DEFAULTS,
        wanted: &[WantedOfRun::Stops(Stop::Diverged(0, 1))],
    },
    // A thread that lacks its outcome holds up nobody who does not want what it holds. Thread 0 stops the run, after
    // its open.
    MachineCase {
        texts: &[
            "host_open a r\nread 0 1",
            "work 300\nopen /a rw create\nwrite 1 x61",
        ],
        came: &[&[FOUND], NOTHING],
        settings: DEFAULTS,
        wanted: &[WantedOfRun::Stops(Stop::EndOfLog(0))],
    },
    // An outcome that does not answer ends a plain run at once, and is not in its log.
    MachineCase {
        texts: DIVERGING,
        came: &[&[(OutKind::Write, Ok(0))], NOTHING],
        settings: NINE_TURNS,
        wanted: &[
            WantedOfRun::Stops(Stop::Diverged(0, 0)),
            WantedOfRun::Log(b"DIOL\0\x01\0\x02\0\0\0\x09\0\0\0\x03"),
        ],
    },
    MachineCase {
        texts: DIVERGING,
        came: &[&[FOUND, (OutKind::Seek, Ok(0))], NOTHING],
        settings: NINE_TURNS,
        wanted: &[
            WantedOfRun::Stops(Stop::Diverged(0, 1)),
            WantedOfRun::Log(FOUND_LOG),
        ],
    },
    MachineCase {
        texts: DIVERGING,
        came: &[&[FOUND, (OutKind::Write, Ok(3))], NOTHING],
        settings: NINE_TURNS,
        wanted: &[
            WantedOfRun::Stops(Stop::Diverged(0, 1)),
            WantedOfRun::Log(FOUND_LOG),
        ],
    },
];

// Each run has all that is wanted of it.
#[test]
fn plain_runs(rt: HostRuntime) {
    for cases in &[IN_MEMORY, OUTSIDE, UNANSWERED] {
        for case in *cases {
            assert_eq!(rt; not_met(rt.alloc(), case), Ok(None), "of {:?}", case.texts);
        }
    }
}
