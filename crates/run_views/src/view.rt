ghost use Rattle.std.specs.Prelude.{◌≡◌, IfOk, map};
ghost use Rattle.run_views.specs.Rows.{IsViewed, rows_printed};
ghost use Rattle.run_views.specs.Seen.{seen};

use crate::lanes::lanes_printed;
use crate::order::{PlacedRow, rows_in_order};
use crate::rows::push_rows;
use call_machine::Stop;
use command_texts::{Printed, end_status, push_end, push_word, run_printed};
use posix_terms::{Bytes, Transcripts};
use std::alloc::{AllocError, Global};

/// What is shown of the rows of a run, and in which order. By default it is the call's word and its
/// reply, thread by thread.
#[derive(Clone, Copy, Debug, Default, PartialEq, Eq)]
pub struct View {
    /// Whether the clocks of the turns are printed.
    pub turns: bool,
    /// Whether each call is printed with what it was asked.
    pub calls: bool,
    /// Whether the rows of all threads are printed in the order of their turns.
    pub by_turn: bool,
    /// Whether each thread has a column of its own. Then the rows are in the order of their turns.
    pub lanes: bool,
}

/// What is to be printed for a run that ended so. In the usual view, with the clocks of the turns
/// or without, it is what [`run_printed`] gives.
pub fn run_viewed(
    alloc: Global,
    view: View,
    transcripts: &Transcripts,
    stop: Option<Stop>,
) -> Result<Printed, AllocError>
    ensures { IfOk result (IsViewed view transcripts.now stop) }
{
    if view.lanes {
        return lanes_printed(alloc, view, transcripts.threads(), stop);
    }
    if !view.calls && !view.by_turn {
        return run_printed(alloc, view.turns, transcripts, stop);
    }
    let rows = rows_in_order(alloc, view.by_turn, transcripts.threads())?;
    rows_printed(alloc, view, &rows, stop)
}

// What is to be printed for these rows, in their order, and the end.
fn rows_printed(
    alloc: Global,
    view: View,
    rows: &[PlacedRow<'_>],
    stop: Option<Stop>,
) -> Result<Printed, AllocError>
    ensures { IfOk result (λ printed. printed ≡ rows_printed view (map seen rows.now) stop) }
{
    let mut output = Vec::new(alloc);
    push_rows(&mut output, view, rows)?;
    push_end(&mut output, stop)?;
    push_word(&mut output, "\n")?;
    Ok(Printed {
        status: end_status(stop),
        output: Bytes::from_vec(output),
        errors: Bytes::from_vec(Vec::new(alloc)),
    })
}
