// The axis of a picture: the logical clock, where long stretches in which nothing begins or ends
// are cut.
use crate::drawn::{DrawnCall, DrawnRun};
use std::alloc::{AllocError, Global};

// How wide a clock is, in points.
const CLOCK_WIDTH: u64 = 20;

// How many clocks are drawn of a stretch in which nothing begins or ends.
const LONGEST: u64 = 8;

/// A clock at which something begins or ends, and how far from the left it is.
#[derive(Clone, Copy, Debug)]
pub(crate) struct Column {
    pub clock: u64,
    pub left: u64,
}

/// The columns of all that begins or ends in these runs, from left to right.
pub(crate) fn columns(alloc: Global, runs: &[DrawnRun<'_>]) -> Result<Vec<Column>, AllocError> {
    let mut clocks = Vec::new(alloc);
    for run in runs {
        add_clocks(&mut clocks, &run.calls)?;
    }
    clocks.sort_unstable();
    columns_of(alloc, &clocks)
}

fn add_clocks(clocks: &mut Vec<u64>, calls: &[DrawnCall<'_>]) -> Result<(), AllocError> {
    for drawn in calls {
        clocks.push(drawn.clocks.asked)?;
        clocks.push(drawn.call.granted)?;
        let wait = wait_of(drawn);
        if wait.begin < wait.end {
            clocks.push(wait.begin)?;
            clocks.push(wait.end)?;
        }
        clocks.push(drawn.clocks.answered)?;
    }
    Ok(())
}

/// From which clock to which a call waited. It did not where both are the same.
#[derive(Clone, Copy, Debug)]
pub(crate) struct Wait {
    pub begin: u64,
    pub end: u64,
}

/// A call waited from its first turn, where that was blocked, and else from the first attempt at its
/// object's lock that failed. It waited until its last turn or, where attempts failed after that,
/// until the one that took the object.
pub(crate) fn wait_of(drawn: &DrawnCall<'_>) -> Wait {
    let turn = drawn.call.row.turn.clock;
    let after = turn.saturating_add(1);
    let begin = if drawn.call.blocked > 0 {
        drawn.call.granted
    } else {
        after
    };
    let end = if drawn.clocks.locked > after {
        drawn.clocks.locked
    } else {
        turn
    };
    Wait {
        begin,
        end: end.max(begin),
    }
}

// The columns of clocks that are in order, each once.
fn columns_of(alloc: Global, clocks: &[u64]) -> Result<Vec<Column>, AllocError> {
    let mut columns = Vec::new(alloc);
    let mut last = Column { clock: 0, left: 0 };
    for clock in clocks {
        if *clock != last.clock {
            last = column_after(last, *clock);
            columns.push(last)?;
        }
    }
    Ok(columns)
}

fn column_after(last: Column, clock: u64) -> Column {
    let clocks = clock.saturating_sub(last.clock).min(LONGEST);
    Column {
        clock,
        left: last.left.saturating_add(clocks.saturating_mul(CLOCK_WIDTH)),
    }
}

/// How far from the left a clock is, that has a column.
pub(crate) fn left_of(columns: &[Column], clock: u64) -> u64 {
    let at = columns.partition_point(|column| column.clock < clock);
    columns.get(at).map_or(0, |column| column.left)
}

/// The columns that have their clock written: from left to right all for which there is room.
pub(crate) fn ticks(alloc: Global, columns: &[Column]) -> Result<Vec<Column>, AllocError> {
    let mut ticks = Vec::new(alloc);
    let mut free = 0;
    for column in columns {
        if column.left >= free {
            ticks.push(*column)?;
            free = column.left.saturating_add(label_width(column.clock));
        }
    }
    Ok(ticks)
}

// What a number takes, with room after it.
fn label_width(clock: u64) -> u64 {
    match clock {
        0..=9 => 24,
        10..=999 => 36,
        1_000..=99_999 => 52,
        100_000..=9_999_999 => 68,
        _ => 160,
    }
}

/// How far from the left the stretches begin of which a part is left out. All are of one width.
pub(crate) fn cuts(alloc: Global, columns: &[Column]) -> Result<Vec<u64>, AllocError> {
    let mut cuts = Vec::new(alloc);
    let mut last = Column { clock: 0, left: 0 };
    for column in columns {
        if column.clock.saturating_sub(last.clock) > LONGEST {
            cuts.push(last.left)?;
        }
        last = *column;
    }
    Ok(cuts)
}
