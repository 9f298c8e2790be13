ghost use Rattle.std.specs.Prelude.{◌≡◌, ◌≤◌, ◌⊎◌, ◌↔◌, IsTrue, true, false, [], Some, None};
ghost use Rattle.std.specs.Prelude.{is_some, vec_capacity, if◌then◌else◌};
ghost use Rattle.machine.specs.Finishing.{have_ended};
ghost use Rattle.machine.specs.Kept.{header_of};
ghost use Rattle.machine.specs.declared.stop.Stop.TheVariants as cause;
ghost use Rattle.recorder.specs.Recorded.{AreAnswered, AreEnded, AreTold, IsRun, Shows};
ghost use Rattle.worker_notes.specs.Agrees.{Agree};

use crate::ended::Ended;
use crate::history::RecordedHistory;
use crate::threads::Gathered;
use crate::transcripts::{SeenRows, seen_by};
use input_log::{Header, LogSink};
use machine::{Finished, Machine, Stop};
use posix_terms::{PackedRow, Transcript};
use std::alloc::Global;
use worker_notes::{Own, agree};

// What is reported of a run whose workers have all come back.
pub fn conclude<A: Drop, O: Drop, S: LogSink + Drop, D: Drop>(
    alloc: Global,
    header: Header,
    machine: Machine<S, D>,
    gathered: Gathered<A, O>,
    room: Vec<Transcript>,
) -> Ended<A, O, S>
    requires none { room.items ≡ [] }
    requires room { header.threads ≤ vec_capacity room }
    ensures actors { result.actors ≡ gathered.actors }
    ensures outsides { result.outsides ≡ gathered.outsides }
    ensures own { result.own ≡ gathered.own }
    ensures run { IsRun D header result.history gathered.own.items result.transcripts
        (S.taken result.sink) (S.failures result.sink) result.stop }
    ensures agrees { (result.stop ≡ Some cause.Strayed)
        ⊎ Agree result.history.rows result.history.asked gathered.own.items }
    ensures transcripts { AreTold header.threads result.history.rows
        result.stop result.transcripts }
    ensures ended { result.stop ≡ None → AreEnded gathered.own.items }
    ensures answered { result.stop ≡ None → AreAnswered result.history.rows }
{
    let mut machine = machine;
    let SeenRows { transcripts, whole } = seen_by(
        alloc,
        header.threads as usize,
        machine.history(),
        room,
    );
    let complete = is_complete(whole, &machine, gathered.own.as_slice());
    stop_unless(complete, &mut machine);
    let finished = finish(machine);
    let agrees = agrees(header, &finished, gathered.own.as_slice());
    let stop = judged(agrees, whole, finished.stop);
    let Finished { history, sink, .. } = finished;
    let Gathered {
        actors,
        outsides,
        own,
    } = gathered;
    Ended {
        transcripts,
        own,
        actors,
        outsides,
        history: RecordedHistory::new(history),
        sink,
        stop,
    }
}

// Whether the run came to its end, and what its threads saw is whole.
fn is_complete<S: LogSink, D: Drop>(whole: bool, machine: &Machine<S, D>, own: &[Own]) -> bool
    ensures whole { result ≡ true → whole ≡ true }
    ensures threads { result ≡ true → have_ended machine.now.whole.threads ≡ true }
    ensures rows { result ≡ true → AreAnswered machine.now.whole.rows }
    ensures own { result ≡ true → AreEnded own.now }
{
    whole && has_ended(machine, own)
}

// Stops the machine of a run that did not come to its end, if it is not stopped already. It is,
// unless there was no memory for the transcripts.
fn stop_unless<S: LogSink, D: Drop>(complete: bool, machine: &mut Machine<S, D>)
    ensures stopped { complete ≡ false → is_some machine.new.stop ≡ true }
    ensures rest { machine.new.whole ≡ machine.old.whole }
{
    if !complete {
        let _first = machine.stop(Stop::Memory);
    }
}

// Whether the machine was that of these threads and settings, and its history agrees with the
// notes.
fn agrees<S: LogSink>(header: Header, finished: &Finished<S>, own: &[Own]) -> bool
    ensures { IsTrue result ↔ ((finished.now.header ≡ header)
        × Agree finished.now.history.rows.items finished.now.history.asked own.now) }
{
    let history = &finished.history;
    same_header(finished.header, header) && agree(history.rows.as_slice(), &history.asked, own)
}

fn same_header(one: Header, other: Header) -> bool
    ensures { IsTrue result ↔ (one ≡ other) }
{
    one.version == other.version
        && (one.threads == other.threads
            && (one.patience == other.patience && one.door_cost == other.door_cost))
}

// Why the run stopped. Where the notes do not agree it is that the threads strayed; else, where
// what they saw is not whole, that there was no memory.
fn judged(agrees: bool, whole: bool, stop: Option<Stop>) -> Option<Stop>
    ensures { result ≡ (if agrees then (if whole then stop else Some cause.Memory)
        else Some cause.Strayed) }
{
    match (agrees, whole) {
        (true, true) => stop,
        (true, false) => Some(Stop::Memory),
        (false, _) => Some(Stop::Strayed),
    }
}

// What the machine leaves, and what is true of it.
fn finish<S: LogSink, D: Drop>(machine: Machine<S, D>) -> Finished<S>
    ensures shows { Shows D machine
        (record { rows = result.history.rows.items; asked = result.history.asked })
        (S.taken result.sink) (S.failures result.sink) result.stop }
    ensures header { result.header ≡ header_of machine.whole }
{
    machine.finish()
}

// Whether all threads have ended, each by its actor's `End`, with no row that was not answered.
fn has_ended<S: LogSink, D: Drop>(machine: &Machine<S, D>, own: &[Own]) -> bool
    ensures threads { result ≡ true → have_ended machine.now.whole.threads ≡ true }
    ensures rows { result ≡ true → AreAnswered machine.now.whole.rows }
    ensures own { result ≡ true → AreEnded own.now }
{
    machine.have_ended() && (are_answered(machine.history()) && are_ended(own))
}

fn are_answered(rows: &[PackedRow]) -> bool
    ensures { result ≡ true → AreAnswered rows.now }
{
    for row in rows {
        if !row.is_answered() {
            return false;
        }
    }
    true
}

fn are_ended(own: &[Own]) -> bool
    ensures { result ≡ true → AreEnded own.now }
{
    for notes in own {
        if !notes.ended {
            return false;
        }
    }
    true
}
