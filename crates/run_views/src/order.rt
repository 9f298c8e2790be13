ghost use Rattle.std.specs.Prelude.{◌≡◌, IfOk, IsPermutation, OnOk, ◌++◌, map};
ghost use Rattle.std.specs.List.Sorted.{IsSorted};
ghost use Rattle.run_views.specs.Order.{AreInOrder, placed_from, placed_rows, turn_cmp, turn_key};
ghost use Rattle.run_views.specs.Seen.{seen};

use posix_terms::{Row, Transcript};
use std::alloc::{AllocError, Global};

/// A row, and where it stands: its thread, and its number among the rows of this thread.
#[derive(Clone, Copy, Debug)]
pub(crate) struct PlacedRow<'a> {
    pub thread: usize,
    pub number: usize,
    pub row: &'a Row,
}

/// All rows, in the order of their turns if that is asked, and else thread by thread.
pub(crate) fn rows_in_order(
    alloc: Global,
    by_turn: bool,
    transcripts: &[Transcript],
) -> Result<Vec<PlacedRow<'_>>, AllocError>
    ensures { IfOk result (λ rows. AreInOrder by_turn transcripts.now (map seen rows.items)) }
{
    let mut rows = placed_rows(alloc, transcripts)?;
    if by_turn {
        sort_by_turn(&mut rows);
    }
    Ok(rows)
}

// All rows, thread by thread.
fn placed_rows(alloc: Global, transcripts: &[Transcript]) -> Result<Vec<PlacedRow<'_>>, AllocError>
    ensures { IfOk result (λ rows. map seen rows.items ≡ placed_rows 0 transcripts.now) }
{
    let mut placed = Vec::new(alloc);
    for (thread, transcript) in transcripts.iter().enumerate() {
        place_rows(&mut placed, thread, transcript.rows())?;
    }
    Ok(placed)
}

// Adds the rows of a thread.
fn place_rows<'a>(
    placed: &mut Vec<PlacedRow<'a>>,
    thread: usize,
    rows: &'a [Row],
) -> Result<(), AllocError>
    ensures { OnOk result (
        map seen placed.new.items ≡ map seen placed.old.items ++ placed_from thread 0 rows.now) }
{
    for (number, row) in rows.iter().enumerate() {
        placed.push(PlacedRow {
            thread,
            number,
            row,
        })?;
    }
    Ok(())
}

// Puts rows in the order of their turns.
fn sort_by_turn(rows: &mut [PlacedRow<'_>])
    ensures all { IsPermutation (map seen rows.old) (map seen rows.new) }
    ensures sorted { IsSorted turn_cmp (map seen rows.new) }
{
    rows.sort_unstable_by_key(|placed| turn_key(placed));
}

// What the order of turns goes by: the clock, then the thread, then the number of the row.
fn turn_key(placed: &PlacedRow<'_>) -> (u64, usize, usize)
    ensures { result ≡ turn_key (seen placed.now) }
{
    (placed.row.turn.clock, placed.thread, placed.number)
}
