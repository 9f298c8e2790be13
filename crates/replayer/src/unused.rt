ghost use Rattle.std.specs.Prelude.{◌≡◌, None, option_copied};
ghost use Rattle.input_log.specs.Grammar.{IsLog, number_of};
ghost use Rattle.replayer.specs.Outcomes.{came_for, first_unused, is_there};
ghost use Rattle.replayer.specs.Runs.{stop_by};
ghost use Rattle.replayer.specs.Threads.{stop_told};

use call_machine::Stop;
use input_log::{LogText, Record};
use posix_terms::{Outcome, PackedRow};

// The least thread of a log with a record that was not used by these rows, and the number of its first.
pub fn unused_record(log: &LogText, rows: &[PackedRow]) -> Option<(usize, u32)>
    requires log { IsLog log.now }
    ensures { result ≡ first_unused log.now.header.threads log.now.records rows.now }
{
    let threads = usize::from(log.header.threads);
    let (thread, number) = first_unused(threads, log.records.as_slice(), rows)?;
    Some((thread, number as u32))
}

// The stop of a run that nothing stopped: at a record that it did not use.
pub fn unused_stop(log: &LogText, rows: &[PackedRow]) -> Option<Stop>
    requires log { IsLog log.now }
    ensures { result ≡ stop_told None
        (first_unused log.now.header.threads log.now.records rows.now) }
{
    unused_record(log, rows).map(|(thread, number)| Stop::Diverged(thread, number))
}

// The stop of a run by a log that has this stop itself.
pub fn stop_by(log: &LogText, stop: Option<Stop>, rows: &[PackedRow]) -> Option<Stop>
    requires log { IsLog log.now }
    ensures { result ≡ stop_by stop
        (first_unused log.now.header.threads log.now.records rows.now) }
{
    match stop {
        None => unused_stop(log, rows),
        Some(cause) => Some(cause),
    }
}

// Of the first threads, so many, the least that has more records than outcomes came for it, with the number of the
// first of its records that was not used.
fn first_unused(threads: usize, records: &[Record], rows: &[PackedRow]) -> Option<(usize, usize)>
    ensures { result ≡ first_unused threads records.now rows.now }
{
    for thread in 0..threads {
        let came = came_for(thread, rows);
        if came < number_of(thread, records) {
            return Some((thread, came));
        }
    }
    None
}

// How many outcomes came for a thread: so many of its rows have one.
fn came_for(thread: usize, rows: &[PackedRow]) -> usize
    ensures { result ≡ came_for thread rows.now }
{
    let mut count = 0;
    for row in rows {
        if row.turn().thread == thread && is_there(row.outcome()) {
            count += 1;
        }
    }
    count
}

fn is_there(outcome: Option<&Outcome>) -> bool
    ensures { result ≡ is_there (option_copied outcome.entry) }
{
    match outcome {
        Some(_) => true,
        None => false,
    }
}

// How many records a thread has.
fn number_of(thread: usize, records: &[Record]) -> usize
    ensures { result ≡ number_of thread records.now }
{
    let mut count = 0;
    for record in records {
        if usize::from(record.thread) == thread {
            count += 1;
        }
    }
    count
}
