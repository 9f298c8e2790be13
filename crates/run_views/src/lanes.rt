// A run with a lane for each thread.
ghost use Rattle.std.specs.Prelude.{◌≡◌, ◌++◌, ◌-◌, [], IfOk, OnOk, codes, map, take};
ghost use Rattle.std.specs.Fmt.{decimal};
ghost use Rattle.std.specs.List.{flat_map};
ghost use Rattle.run_views.specs.Lanes.{LanesPrint, cell_text, empty_cells, heads, lane_row_text};
ghost use Rattle.run_views.specs.Lanes.{lane_width, lane_widths, lanes_text, padded};
ghost use Rattle.run_views.specs.Lanes.{padded_heads, spaces, turn_cell, turn_width};
ghost use Rattle.run_views.specs.Seen.{seen};

use crate::asked::push_asked;
use crate::order::{PlacedRow, rows_in_order};
use crate::view::View;
use call_machine::Stop;
use command_texts::{Printed, end_status, push_call, push_end, push_number, push_reply, push_word};
use posix_terms::{Bytes, Row, Transcript};
use std::alloc::{AllocError, Global};

// What stands over the column of the turns.
const TURN: &str = "turn";

/// What is to be printed of a run in lanes.
pub(crate) fn lanes_printed(
    alloc: Global,
    view: View,
    transcripts: &[Transcript],
    stop: Option<Stop>,
) -> Result<Printed, AllocError>
    ensures { IfOk result (LanesPrint view transcripts.now stop) }
{
    let rows = rows_in_order(alloc, true, transcripts)?;
    let turns = turn_width(alloc, view.turns, &rows)?;
    let widths = lane_widths(alloc, view.calls, transcripts)?;
    let mut output = Vec::new(alloc);
    push_lanes(&mut output, view.calls, turns, &widths, &rows)?;
    push_end(&mut output, stop)?;
    push_word(&mut output, "\n")?;
    Ok(Printed {
        status: end_status(stop),
        output: Bytes::from_vec(output),
        errors: Bytes::from_vec(Vec::new(alloc)),
    })
}

// The width of the column of the turns, if they are shown.
fn turn_width(
    alloc: Global,
    shown: bool,
    rows: &[PlacedRow<'_>],
) -> Result<Option<usize>, AllocError>
    ensures { IfOk result (λ width. width ≡ turn_width shown (map seen rows.now)) }
{
    if !shown {
        return Ok(None);
    }
    let mut clock = Vec::new(alloc);
    let mut width = TURN.len();
    for placed in rows {
        clock.clear();
        push_number(&mut clock, placed.row.turn.clock)?;
        width = width.max(clock.len());
    }
    Ok(Some(width))
}

// The widths of the lanes.
fn lane_widths(
    alloc: Global,
    calls: bool,
    transcripts: &[Transcript],
) -> Result<Vec<usize>, AllocError>
    ensures { IfOk result (λ widths. widths.items ≡ lane_widths calls 0 transcripts.now) }
{
    let mut widths = Vec::new(alloc);
    for (thread, transcript) in transcripts.iter().enumerate() {
        widths.push(lane_width(alloc, calls, thread, transcript.rows())?)?;
    }
    Ok(widths)
}

// The width of a thread's lane.
fn lane_width(alloc: Global, calls: bool, thread: usize, rows: &[Row]) -> Result<usize, AllocError>
    ensures { IfOk result (λ width. width ≡ lane_width calls thread rows.now) }
{
    let mut cell = Vec::new(alloc);
    push_number(&mut cell, thread as u64)?;
    let mut width = cell.len();
    for row in rows {
        cell.clear();
        push_cell(&mut cell, calls, row)?;
        width = width.max(cell.len());
    }
    Ok(width)
}

// Adds the lines of the lanes.
fn push_lanes(
    text: &mut Vec<u8>,
    calls: bool,
    turns: Option<usize>,
    widths: &[usize],
    rows: &[PlacedRow<'_>],
) -> Result<(), AllocError>
    ensures { OnOk result (text.new.items
        ≡ text.old.items ++ lanes_text calls turns widths.now (map seen rows.now)) }
{
    push_turn_head(text, turns)?;
    push_heads(text, widths)?;
    push_word(text, "\n")?;
    push_lane_rows(text, calls, turns, widths, rows)
}

// Adds what stands over the column of the turns, if there is one.
fn push_turn_head(text: &mut Vec<u8>, turns: Option<usize>) -> Result<(), AllocError>
    ensures { OnOk result (text.new.items ≡ text.old.items ++ turn_cell turns (codes "turn")) }
{
    let Some(width) = turns else {
        return Ok(());
    };
    push_word(text, TURN)?;
    push_padding(text, width, TURN.len())
}

// Adds the numbers of threads over their lanes.
fn push_heads(text: &mut Vec<u8>, widths: &[usize]) -> Result<(), AllocError>
    ensures { OnOk result (text.new.items ≡ text.old.items ++ heads widths.now) }
{
    let last = widths.len().saturating_sub(1);
    let (before, _) = widths.split_at(last);
    push_padded_heads(text, before)?;
    push_number(text, last as u64)
}

// Adds the numbers of threads over their lanes, each padded.
fn push_padded_heads(text: &mut Vec<u8>, widths: &[usize]) -> Result<(), AllocError>
    ensures { OnOk result (text.new.items ≡ text.old.items ++ padded_heads 0 widths.now) }
{
    for (thread, width) in widths.iter().enumerate() {
        push_padded_number(text, *width, thread as u64)?;
    }
    Ok(())
}

// Adds the lines of rows.
fn push_lane_rows(
    text: &mut Vec<u8>,
    calls: bool,
    turns: Option<usize>,
    widths: &[usize],
    rows: &[PlacedRow<'_>],
) -> Result<(), AllocError>
    ensures { OnOk result (text.new.items ≡ text.old.items
        ++ flat_map (lane_row_text calls turns widths.now) (map seen rows.now)) }
{
    for placed in rows {
        push_lane_row(text, calls, turns, widths, placed)?;
    }
    Ok(())
}

// Adds the line of a row.
fn push_lane_row(
    text: &mut Vec<u8>,
    calls: bool,
    turns: Option<usize>,
    widths: &[usize],
    placed: &PlacedRow<'_>,
) -> Result<(), AllocError>
    ensures { OnOk result (text.new.items
        ≡ text.old.items ++ lane_row_text calls turns widths.now (seen placed.now)) }
{
    if let Some(width) = turns {
        push_padded_number(text, width, placed.row.turn.clock)?;
    }
    push_empty_cells(text, widths, placed.thread)?;
    push_cell(text, calls, placed.row)?;
    push_word(text, "\n")
}

// Adds the empty cells of the first lanes, so many.
#[tactic(auto, using(std::proofs::lemmas::List::take_min))]
fn push_empty_cells(text: &mut Vec<u8>, widths: &[usize], count: usize) -> Result<(), AllocError>
    ensures { OnOk result (text.new.items ≡ text.old.items ++ empty_cells (take count widths.now)) }
{
    let (lanes, _) = widths.split_at(count.min(widths.len()));
    push_all_empty(text, lanes)
}

// Adds the empty cells of these lanes.
fn push_all_empty(text: &mut Vec<u8>, widths: &[usize]) -> Result<(), AllocError>
    ensures { OnOk result (text.new.items ≡ text.old.items ++ empty_cells widths.now) }
{
    for width in widths {
        push_padding(text, *width, 0)?;
    }
    Ok(())
}

// Adds a call with its reply, and with what it was asked if that is shown.
fn push_cell(text: &mut Vec<u8>, calls: bool, row: &Row) -> Result<(), AllocError>
    ensures { OnOk result (text.new.items ≡ text.old.items ++ cell_text calls row.now) }
{
    if !calls {
        return push_call(text, row);
    }
    push_asked(text, &row.call)?;
    push_word(text, " = ")?;
    push_reply(text, &row.reply)
}

// Adds a number, padded.
fn push_padded_number(text: &mut Vec<u8>, width: usize, number: u64) -> Result<(), AllocError>
    ensures { OnOk result (text.new.items ≡ text.old.items ++ padded width (decimal number)) }
{
    let before = text.len();
    push_number(text, number)?;
    let used = text.len() - before;
    push_padding(text, width, used)
}

// Adds the spaces that a text of so many bytes lacks of this width, and two more.
fn push_padding(text: &mut Vec<u8>, width: usize, used: usize) -> Result<(), AllocError>
    ensures { OnOk result (text.new.items ≡ text.old.items ++ spaces (width - used) ++ codes "  ") }
{
    for _ in 0..width.saturating_sub(used) {
        text.push(b' ')?;
    }
    push_word(text, "  ")
}
