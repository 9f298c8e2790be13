use crate::hostile::runs::{GivenRun, SHORT_HOST_WRITE, WantedEnd};
use crate::hostile::ways::is_run;
use crate::outcomes::GivenOutcome;
use crate::seen::SeenReply;
use machine::Stop;
use posix_terms::{Errno, OutKind};
use std::test::Fail;

// The short host write with a patience, and what comes for it; and what is wanted of the run. Replays
// of its logs are in `examples/` (`write-*-replayed` and `write-*-by-threads`).
struct OutsideCase {
    patience: u32,
    came: &'static [&'static [GivenOutcome]],
    seen: WantedEnd,
}

fn run_of(case: &OutsideCase) -> GivenRun {
    GivenRun {
        scripts: SHORT_HOST_WRITE.scripts,
        came: case.came,
        patience: case.patience,
        version: 1,
    }
}

const CASES: &[OutsideCase] = &[
    // The second call is interrupted.
    OutsideCase {
        patience: 1000,
        came: &[&[
            GivenOutcome::Ok(OutKind::Open, 0, b""),
            GivenOutcome::Fail(OutKind::Write, Errno::EINTR),
            GivenOutcome::Fail(OutKind::Write, Errno::EIO),
        ]],
        seen: WantedEnd {
            end: None,
            rows: &[&[
                (1, SeenReply::Number(0)),
                (105, SeenReply::Fail(Errno::EINTR)),
                (209, SeenReply::Fail(Errno::EIO)),
            ]],
            log: b"DIOL\0\x01\0\x01\0\0\x03\xe8\0\0\0\x64\
                R\0\0\0\0\0\0\x01\0\0\0\0\0\0\0\0\0\0\0\
                R\0\0\0\0\0\x01\x03\x08\0\0\0\0\0\0\0\0\0\0\
                R\0\0\0\0\0\x02\x03\x09\0\0\0\0\0\0\0\0\0\0\
                E\0\0\0\x03",
        },
    },
    // It writes nothing.
    OutsideCase {
        patience: 1000,
        came: &[&[
            GivenOutcome::Ok(OutKind::Open, 0, b""),
            GivenOutcome::Ok(OutKind::Write, 0, b""),
            GivenOutcome::Fail(OutKind::Write, Errno::EIO),
        ]],
        seen: WantedEnd {
            end: None,
            rows: &[&[
                (1, SeenReply::Number(0)),
                (105, SeenReply::Count(0)),
                (209, SeenReply::Fail(Errno::EIO)),
            ]],
            log: b"DIOL\0\x01\0\x01\0\0\x03\xe8\0\0\0\x64\
                R\0\0\0\0\0\0\x01\0\0\0\0\0\0\0\0\0\0\0\
                R\0\0\0\0\0\x01\x03\0\0\0\0\0\0\0\0\0\0\0\
                R\0\0\0\0\0\x02\x03\x09\0\0\0\0\0\0\0\0\0\0\
                E\0\0\0\x03",
        },
    },
    // It would block, and is made again.
    OutsideCase {
        patience: 1000,
        came: WOULD_BLOCK,
        seen: WantedEnd {
            end: None,
            rows: &[&[
                (1, SeenReply::Number(0)),
                (209, SeenReply::Count(3)),
                (313, SeenReply::Fail(Errno::EIO)),
            ]],
            log: b"DIOL\0\x01\0\x01\0\0\x03\xe8\0\0\0\x64\
                R\0\0\0\0\0\0\x01\0\0\0\0\0\0\0\0\0\0\0\
                R\0\0\0\0\0\x01\x03\x06\0\0\0\0\0\0\0\0\0\0\
                R\0\0\0\0\0\x02\x03\0\0\0\0\0\0\0\0\x03\0\0\
                R\0\0\0\0\0\x03\x03\x09\0\0\0\0\0\0\0\0\0\0\
                E\0\0\0\x04",
        },
    },
    // It would block and has no patience, so the third call, of two
    // bytes, meets the count of three. That is not in the log.
    OutsideCase {
        patience: 1,
        came: WOULD_BLOCK,
        seen: WantedEnd {
            end: Some(Stop::Diverged(0, 2)),
            rows: &[&[
                (1, SeenReply::Number(0)),
                (105, SeenReply::Fail(Errno::EINTR)),
            ]],
            log: b"DIOL\0\x01\0\x01\0\0\0\x01\0\0\0\x64\
                R\0\0\0\0\0\0\x01\0\0\0\0\0\0\0\0\0\0\0\
                R\0\0\0\0\0\x01\x03\x06\0\0\0\0\0\0\0\0\0\0",
        },
    },
];

const WOULD_BLOCK: &[&[GivenOutcome]] = &[&[
    GivenOutcome::Ok(OutKind::Open, 0, b""),
    GivenOutcome::Fail(OutKind::Write, Errno::EAGAIN),
    GivenOutcome::Ok(OutKind::Write, 3, b""),
    GivenOutcome::Fail(OutKind::Write, Errno::EIO),
]];

#[test]
fn a_write_to_the_host_fails(rt: HostRuntime) -> Result<(), Fail> {
    for (number, case) in CASES.iter().enumerate() {
        assert!(rt;
            is_run(&rt, rt.alloc(), run_of(case), case.seen)?,
            "case {number}"
        );
    }
    Ok(())
}
