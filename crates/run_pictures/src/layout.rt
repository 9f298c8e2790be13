// Where all stands in a picture. Lengths are in points.
ghost use Rattle.std.specs.Prelude.{◌≡◌, IfOk, map};
ghost use Rattle.run_pictures.specs.Drawn.{calls_of};
ghost use Rattle.run_pictures.specs.Layout.{AreLaid, calls_of_boxes, drawn_of, laid_of};

use crate::axis::{Column, columns, cuts, left_of, ticks, wait_of};
use crate::drawn::{CallClocks, DrawnCall, DrawnRun};
use answered_calls::AnsweredCall;
use std::alloc::{AllocError, Global};

// How high a lane is.
const LANE_HEIGHT: u64 = 40;

// What a run takes beside its lanes: its name, the clocks, and room below.
const BESIDE_LANES: u64 = 60;

/// The box of a call, from the left end of the picture and the top of its run's lanes.
#[derive(Clone, Copy, Debug)]
pub(crate) struct CallBox<'a> {
    pub call: AnsweredCall<'a>,
    pub clocks: CallClocks,
    pub left: u64,
    pub top: u64,
    /// How long before it its thread had asked, while attempts at the table's lock failed.
    pub early: u64,
    /// How long the line is from the box before it in its lane, if there is one, to where its
    /// thread asked.
    pub line: u64,
    /// Where in it the time begins for which the call waited, and how much of it that is.
    pub wait: u64,
    pub waited: u64,
    pub width: u64,
}

/// The lane of a thread, from the top of its run's lanes.
#[derive(Clone, Copy, Debug)]
pub(crate) struct Lane {
    pub thread: usize,
    pub top: u64,
}

/// A run, from the top of the picture.
#[derive(Debug, Drop)]
pub(crate) struct LaidRun<'a> {
    pub name: &'a [u8],
    pub top: u64,
    /// How high its lanes are.
    pub height: u64,
    pub lanes: Vec<Lane>,
    pub boxes: Vec<CallBox<'a>>,
}

/// A picture of runs.
#[derive(Debug, Drop)]
pub(crate) struct Layout<'a> {
    pub width: u64,
    pub height: u64,
    pub ticks: Vec<Column>,
    pub cuts: Vec<u64>,
    pub runs: Vec<LaidRun<'a>>,
}

/// Where all of these runs stands.
pub(crate) fn lay_out<'a>(alloc: Global, runs: &[DrawnRun<'a>]) -> Result<Layout<'a>, AllocError>
    ensures { IfOk result (λ layout. AreLaid runs.now layout.runs.items) }
{
    let columns = columns(alloc, runs)?;
    let laid = laid_runs(alloc, &columns, runs)?;
    Ok(Layout {
        width: columns
            .last()
            .map_or(0, |column| column.left)
            .saturating_add(LANE_HEIGHT),
        height: laid.last().map_or(0, |run| run_end(run)),
        ticks: ticks(alloc, &columns)?,
        cuts: cuts(alloc, &columns)?,
        runs: laid,
    })
}

fn laid_runs<'a>(
    alloc: Global,
    columns: &[Column],
    runs: &[DrawnRun<'a>],
) -> Result<Vec<LaidRun<'a>>, AllocError>
    ensures { IfOk result (λ laid. AreLaid runs.now laid.items) }
{
    let mut laid = Vec::new(alloc);
    let mut top = 0;
    for run in runs {
        let next = laid_run(alloc, columns, top, run)?;
        top = run_end(&next);
        laid.push(next)?;
    }
    Ok(laid)
}

// How far from the top a run ends.
fn run_end(run: &LaidRun<'_>) -> u64 {
    run.top
        .saturating_add(run.height)
        .saturating_add(BESIDE_LANES)
}

fn laid_run<'a>(
    alloc: Global,
    columns: &[Column],
    top: u64,
    run: &DrawnRun<'a>,
) -> Result<LaidRun<'a>, AllocError>
    ensures { IfOk result (λ laid. laid_of laid ≡ drawn_of run.now) }
{
    Ok(LaidRun {
        name: run.name,
        top,
        height: lane_top(run.threads),
        lanes: lanes(alloc, run.threads)?,
        boxes: boxes(alloc, columns, &run.calls)?,
    })
}

fn lanes(alloc: Global, threads: usize) -> Result<Vec<Lane>, AllocError> {
    let mut lanes = Vec::new(alloc);
    for thread in 0..threads {
        lanes.push(Lane {
            thread,
            top: lane_top(thread),
        })?;
    }
    Ok(lanes)
}

fn lane_top(thread: usize) -> u64 {
    (thread as u64).saturating_mul(LANE_HEIGHT)
}

fn boxes<'a>(
    alloc: Global,
    columns: &[Column],
    calls: &[DrawnCall<'a>],
) -> Result<Vec<CallBox<'a>>, AllocError>
    ensures { IfOk result (λ boxes. calls_of_boxes boxes.items ≡ calls_of calls.now) }
{
    let mut boxes = Vec::new(alloc);
    let mut end = None;
    for drawn in calls {
        let placed = placed_box(columns, end, *drawn);
        end = Some((drawn.call.thread, placed.left.saturating_add(placed.width)));
        boxes.push(placed)?;
    }
    Ok(boxes)
}

// The box of a call, with the thread of the box before it and where that one ended.
fn placed_box<'a>(
    columns: &[Column],
    before: Option<(usize, u64)>,
    drawn: DrawnCall<'a>,
) -> CallBox<'a>
    ensures { result.call ≡ drawn.entry.call }
{
    let DrawnCall { call, clocks } = drawn;
    let left = left_of(columns, call.granted);
    let asked = left_of(columns, clocks.asked);
    let line = match before {
        Some((thread, end)) if thread == call.thread => asked.saturating_sub(end),
        _ => 0,
    };
    let wait = wait_of(&drawn);
    let begin = left_of(columns, wait.begin);
    let waited = left_of(columns, wait.end).saturating_sub(begin);
    CallBox {
        call,
        clocks,
        left,
        top: lane_top(call.thread),
        early: left.saturating_sub(asked),
        line,
        wait: if waited == 0 {
            0
        } else {
            begin.saturating_sub(left)
        },
        waited,
        width: left_of(columns, clocks.answered).saturating_sub(left),
    }
}
