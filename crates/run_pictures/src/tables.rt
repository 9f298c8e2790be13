// The rows of runs as tables.
ghost use Rattle.std.specs.Prelude.{◌≡◌, ◌++◌, OnOk};
ghost use Rattle.std.specs.List.{flat_map};
ghost use Rattle.run_pictures.specs.Tables.{cell_text, cells_text, row_front, row_name};
ghost use Rattle.run_pictures.specs.Tables.{row_text, table_text, tables_text};

use crate::drawn::{DrawnCall, DrawnRun};
use crate::escaped::{push_asked_escaped, push_escaped, push_reply_escaped};
use crate::fixed::{
    CELL, ROW_CELLS, ROW_END, ROW_FRONT, ROW_NAME, TABLE_END, TABLE_FRONT, TABLE_HEAD, TABLE_STOP,
};
use crate::kinds::push_class;
use answered_calls::AnsweredCall;
use command_texts::{push_end, push_number, push_word};
use run_views::push_waits;
use std::alloc::{AllocError, Global};

/// Adds a table for each run.
pub(crate) fn push_tables(
    alloc: Global,
    text: &mut Vec<u8>,
    differs: Option<(usize, usize)>,
    runs: &[DrawnRun<'_>],
) -> Result<(), AllocError>
    ensures { OnOk result (
        text.new.items ≡ text.old.items ++ tables_text differs 0 runs.now) }
{
    for (number, run) in runs.iter().enumerate() {
        push_table(alloc, text, differs, number, run)?;
    }
    Ok(())
}

// Adds the table of a run, which has this number: its name, how it ended, and its rows.
#[tactic(auto, unfolding(crate::specs::Tables::table_text))]
fn push_table(
    alloc: Global,
    text: &mut Vec<u8>,
    differs: Option<(usize, usize)>,
    number: usize,
    run: &DrawnRun<'_>,
) -> Result<(), AllocError>
    ensures { OnOk result (
        text.new.items ≡ text.old.items ++ table_text differs number run.now) }
{
    push_word(text, TABLE_FRONT)?;
    push_escaped(text, run.name)?;
    push_word(text, TABLE_STOP)?;
    push_end(text, run.stop)?;
    push_waits(text, &run.blocked)?;
    push_word(text, TABLE_HEAD)?;
    push_rows(alloc, text, differs, number, &run.calls)?;
    push_word(text, TABLE_END)
}

fn push_rows(
    alloc: Global,
    text: &mut Vec<u8>,
    differs: Option<(usize, usize)>,
    run: usize,
    calls: &[DrawnCall<'_>],
) -> Result<(), AllocError>
    ensures { OnOk result (
        text.new.items
        ≡ text.old.items ++ flat_map (λ c. row_text differs run c.call) calls.now) }
{
    for drawn in calls {
        push_row(alloc, text, differs, run, &drawn.call)?;
    }
    Ok(())
}

// Adds the line of a call, of the run with this number.
#[tactic(auto, unfolding(crate::specs::Tables::row_text))]
fn push_row(
    alloc: Global,
    text: &mut Vec<u8>,
    differs: Option<(usize, usize)>,
    run: usize,
    call: &AnsweredCall<'_>,
) -> Result<(), AllocError>
    ensures { OnOk result (
        text.new.items ≡ text.old.items ++ row_text differs run call.now) }
{
    push_row_front(text, differs, run, call)?;
    push_cells(text, call)?;
    push_asked_escaped(alloc, text, &call.row.call)?;
    push_word(text, CELL)?;
    push_reply_escaped(alloc, text, &call.row.reply)?;
    push_word(text, ROW_END)
}

// Adds how the call of a line came to its answer, and the name of the line.
#[tactic(auto, unfolding(crate::specs::Tables::row_front))]
fn push_row_front(
    text: &mut Vec<u8>,
    differs: Option<(usize, usize)>,
    run: usize,
    call: &AnsweredCall<'_>,
) -> Result<(), AllocError>
    ensures { OnOk result (
        text.new.items ≡ text.old.items ++ row_front differs run call.now) }
{
    push_word(text, ROW_FRONT)?;
    push_class(text, differs, call)?;
    push_word(text, ROW_NAME)?;
    push_row_name(text, run, call.thread, call.number)?;
    push_word(text, ROW_CELLS)
}

/// Adds the name of a line of a table, to which a link leads: the number of its run, its thread, and
/// the number of its row.
#[tactic(auto, unfolding(crate::specs::Tables::row_name))]
pub(crate) fn push_row_name(
    text: &mut Vec<u8>,
    run: usize,
    thread: usize,
    number: usize,
) -> Result<(), AllocError>
    ensures { OnOk result (text.new.items ≡ text.old.items ++ row_name run thread number) }
{
    push_word(text, "r")?;
    push_number(text, run as u64)?;
    push_word(text, "t")?;
    push_number(text, thread as u64)?;
    push_word(text, "n")?;
    push_number(text, number as u64)
}

// Adds the cells before that of the call.
#[tactic(auto, unfolding(crate::specs::Tables::cells_text))]
fn push_cells(text: &mut Vec<u8>, call: &AnsweredCall<'_>) -> Result<(), AllocError>
    ensures { OnOk result (text.new.items ≡ text.old.items ++ cells_text call.now) }
{
    push_cell(text, call.thread as u64)?;
    push_cell(text, call.number as u64)?;
    push_cell(text, call.line as u64)?;
    push_cell(text, call.granted)?;
    push_cell(text, call.row.turn.clock)
}

// Adds the cell of a number, and the front of the next.
#[tactic(auto, unfolding(crate::specs::Tables::cell_text))]
fn push_cell(text: &mut Vec<u8>, number: u64) -> Result<(), AllocError>
    ensures { OnOk result (text.new.items ≡ text.old.items ++ cell_text number) }
{
    push_number(text, number)?;
    push_word(text, CELL)
}
