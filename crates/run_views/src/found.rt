// What of a run and of its log says why it stopped.
ghost use Rattle.std.specs.Prelude.{◌≡◌, option_copied};
ghost use Rattle.run_views.specs.Found.{has_come, outcomes_of, record_of, unanswered};

use input_log::Record;
use posix_terms::PackedRow;

// The granted turn of the call of this thread that has no reply.
pub fn unanswered(rows: &[PackedRow], thread: usize) -> Option<&PackedRow>
    ensures { option_copied result ≡ unanswered thread rows.now }
{
    let mut last = None;
    for row in rows {
        if row.turn().thread == thread {
            last = Some(row);
        }
    }
    let row = last?;
    (!row.has_reply()).then_some(row)
}

// How many outcomes came for this thread.
pub fn outcomes_of(rows: &[PackedRow], thread: usize) -> usize
    ensures { result ≡ outcomes_of thread rows.now }
{
    let mut count = 0;
    for row in rows {
        if has_come(row, thread) {
            count += 1;
        }
    }
    count
}

// Whether an outcome came for this thread at this turn.
fn has_come(row: &PackedRow, thread: usize) -> bool
    ensures { result ≡ has_come thread row.now }
{
    row.turn().thread == thread && row.outcome().is_some()
}

// The record of this thread with this number.
pub fn record_of(records: &[Record], thread: usize, number: usize) -> Option<&Record>
    ensures { option_copied result ≡ record_of thread number records.now }
{
    for record in records {
        if usize::from(record.thread) == thread && record.number as usize == number {
            return Some(record);
        }
    }
    None
}
