ghost use Rattle.std.specs.Prelude.{◌≡◌, ◌++◌, OnOk, map};
ghost use Rattle.std.specs.List.{flat_map};
ghost use Rattle.run_views.specs.Rows.{call_row_text, place_text, viewed_row_text};
ghost use Rattle.run_views.specs.Seen.{seen};

use crate::asked::push_asked;
use crate::order::PlacedRow;
use crate::view::View;
use command_texts::{push_number, push_place, push_reply, push_row, push_word};
use posix_terms::Row;
use std::alloc::AllocError;

/// Adds the lines of rows, in their order.
pub(crate) fn push_rows(
    text: &mut Vec<u8>,
    view: View,
    rows: &[PlacedRow<'_>],
) -> Result<(), AllocError>
    ensures { OnOk result (
        text.new.items ≡ text.old.items ++ flat_map (viewed_row_text view) (map seen rows.now)) }
{
    for placed in rows {
        push_viewed_row(text, view, placed)?;
    }
    Ok(())
}

// Adds the line of a row.
fn push_viewed_row(text: &mut Vec<u8>, view: View, placed: &PlacedRow<'_>) -> Result<(), AllocError>
    ensures { OnOk result (
        text.new.items ≡ text.old.items ++ viewed_row_text view (seen placed.now)) }
{
    if view.calls {
        push_call_row(text, view.turns, placed.thread, placed.number, placed.row)
    } else {
        push_row(text, view.turns, placed.thread, placed.number, placed.row)
    }
}

/// Adds the line of a row, with what its call was asked and, if `turns` is, the clock of its turn:
/// the thread, the number of the row among its own, the call, `=` and the reply.
pub fn push_call_row(
    text: &mut Vec<u8>,
    turns: bool,
    thread: usize,
    number: usize,
    row: &Row,
) -> Result<(), AllocError>
    ensures { OnOk result (
        text.new.items ≡ text.old.items ++ call_row_text turns thread number row.now) }
{
    push_row_place(text, turns, thread, number, row)?;
    push_asked(text, &row.call)?;
    push_word(text, " = ")?;
    push_reply(text, &row.reply)?;
    push_word(text, "\n")
}

// Adds where a row stands, with the clock of its turn if that is asked.
#[tactic(auto, unfolding(crate::specs::Rows::place_text))]
fn push_row_place(
    text: &mut Vec<u8>,
    turns: bool,
    thread: usize,
    number: usize,
    row: &Row,
) -> Result<(), AllocError>
    ensures { OnOk result (
        text.new.items ≡ text.old.items ++ place_text turns thread number row.now) }
{
    push_place(text, thread as u64, number as u64)?;
    if !turns {
        return Ok(());
    }
    push_number(text, row.turn.clock)?;
    push_word(text, " ")
}
