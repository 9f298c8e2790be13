use crate::hostile::runs::{SHORT_HOST_WRITE, SHORT_LOG, SHORT_ROWS, SHORT_SEEN, WantedEnd};
use crate::hostile::ways::{Outturn, recorded, recorded_short};
use crate::seen::{Rows, SeenReply};
use machine::Stop;
use std::alloc::{AllocError, Global};
use std::sync::Wait;
use std::test::Fail;
use std::thread::Threads;

const NOTHING: Rows = &[&[]];

const ONE: Rows = &[&[(1, SeenReply::Number(0))]];

const TWO: Rows = &[&[(1, SeenReply::Number(0)), (105, SeenReply::Count(3))]];

// So many of the first bytes of the log.
fn front(length: usize) -> &'static [u8] {
    match SHORT_LOG.split_at_checked(length) {
        Some((front, _)) => front,
        None => SHORT_LOG,
    }
}

// What is wanted of the short host write where the log takes so many bytes and no more: what each
// call answered has its record in it.
fn filled(taken: usize) -> WantedEnd {
    let rows = match taken {
        0..35 => NOTHING,
        35..54 => ONE,
        54..73 => TWO,
        _ => SHORT_ROWS,
    };
    WantedEnd {
        end: if taken < 78 { Some(Stop::Sink) } else { None },
        rows,
        log: front(taken),
    }
}

// Whether that comes of a sink with so much room, and of one that takes a byte at a time, and fails
// at the write with this number and then goes on: nothing more is written.
fn fills<R: Threads + Wait + Sync>(
    rt: &R,
    alloc: Global,
    taken: usize,
) -> Result<bool, AllocError> {
    let wanted = filled(taken);
    let room = recorded(rt, alloc, SHORT_HOST_WRITE, taken, wanted)?;
    let write = recorded_short(rt, alloc, SHORT_HOST_WRITE, 1, Some(taken as u64), wanted)?;
    Ok(room == Outturn::Whole && write == Outturn::Whole)
}

// What the sink then has is the log of `examples/short-host-write-replayed`, cut at each length.
#[test]
fn a_log_has_every_room_and_fails_at_each_write(rt: HostRuntime) -> Result<(), Fail> {
    for taken in 0..=SHORT_LOG.len() {
        assert!(rt; fills(&rt, rt.alloc(), taken)?, "{taken}");
    }
    Ok(())
}

// A byte at a time the sink takes all. Of five bytes at a time the header takes four writes, the
// record's first five bytes one, and the sixth fails.
#[test]
fn a_sink_takes_little_at_a_time(rt: HostRuntime) -> Result<(), Fail> {
    let all = recorded_short(&rt, rt.alloc(), SHORT_HOST_WRITE, 1, None, SHORT_SEEN)?;
    assert!(rt; all == Outturn::Whole);
    let wanted = WantedEnd {
        end: Some(Stop::Sink),
        rows: NOTHING,
        log: front(21),
    };
    let part = recorded_short(&rt, rt.alloc(), SHORT_HOST_WRITE, 5, Some(5), wanted)?;
    assert!(rt; part == Outturn::Whole);
    Ok(())
}
