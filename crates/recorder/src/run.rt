ghost use Rattle.std.specs.Prelude.{◌≡◌, ◌≤◌, ◌⊎◌, true, [], All, IfOk, IfErr, OnOk, None, Some};
ghost use Rattle.std.specs.Prelude.{is_some, vec_len, vec_capacity};
ghost use Rattle.input_log.specs.Format.{header_text};
ghost use Rattle.input_log.specs.Grammar.{in_range};
ghost use Rattle.machine.specs.Starting.{header_for};
ghost use Rattle.machine.specs.declared.stop.Stop.TheVariants as stop;
ghost use Rattle.posix_terms.specs.declared.limits.TheConstants.Limits as limit;
ghost use Rattle.recorder.specs.Each.{AreLedFrom, ArePlayedFrom, AreTrue, IsUnused};
ghost use Rattle.input_log.specs.Writing.{TakesPart};
ghost use Rattle.recorder.specs.Recorded.{AreAnswered, AreEnded, AreTold, HasNoLog, IsRecorded};
ghost use Rattle.recorder.specs.Recorded.{IsRun, transcripts_of};
ghost use Rattle.recorder.specs.Starting.{IsBack, IsRefusal, refusal};
ghost use Rattle.worker_notes.specs.Agrees.{Agree};

use crate::conclude::conclude;
use crate::ended::{Ended, NotStarted, StartFault};
use crate::history::RecordedHistory;
use crate::pulse::Pulse;
use crate::room::{WorkerRoom, room_for};
use crate::shared::{Guarded, SharedRun, Wakes};
use crate::threads::{Crew, run_all};
use crate::watch::{Manner, Unwatched, Watch};
use host_doors::Outside;
use input_log::{Header, LogSink, LogWriter};
use machine::{Machine, Stop};
use posix_terms::{Settings, Transcript, Transcripts};
use std::alloc::Global;
use std::sync::{Mutex, Wait};
use std::thread::Threads;
use thread_scripts::{Actor, BoxedActor};
use worker_notes::Own;

/// Runs 1 to 16 actors, each in a thread of its own and with its own outside, against one table of
/// descriptors, and records what comes from outside into a log. It waits until all have ended, or
/// until the run was stopped. Calls to the outside are made while other threads go on.
///
/// The run is that of a machine: its history is legal, its turns rise, and what the sink took
/// covers it (`run`). Where the sink failed at the log's header nobody is started, the stop is
/// `Sink`, and actors and outsides are as they were (`unstarted`). The stop is `Sink` only where
/// the sink failed (`fails`).
///
/// What each thread saw is the replies of its rows (`transcripts`). The stop is the machine's own.
/// `Memory` takes its place exactly when there was no memory for all that the threads saw: then
/// each saw a beginning. `Strayed` takes the place of both exactly when the machine had other
/// threads or settings, or its history says of a thread something else than its worker noted: the
/// steps that were asked, the replies, and what came from outside, with the requests of the rows'
/// calls.
///
/// Unless the stop is `Strayed`, the steps that each thread asked are those that its actor's script
/// gives under the replies of its rows, and the actor stands after them (`steps`); the requests of
/// its rows' calls, with their outcomes, are calls that its outside gave, and this stands after
/// them (`calls`). Where the run was stopped, an actor may stand one step further, and an outside
/// one call further: the one in which its thread's steps end. Whatever the stop is, the same is
/// true of the notes (`told`). Where nothing stopped the run, all actors gave their end, all calls
/// were answered, and the log has its end.
///
/// A thread that cannot be started stops the run, and so it does whenever memory runs out from then
/// on; all others then leave at their next event. Nothing is promised of time, nor that an actor or
/// an outside returns.
pub fn run_recorded<O: Outside + Send + Drop, S: LogSink + Send + Drop, R: Threads + Wait + Sync>(
    rt: &R,
    alloc: Global,
    actors: Vec<BoxedActor>,
    outsides: Vec<O>,
    sink: S,
    settings: Settings,
) -> Result<Ended<BoxedActor, O, S>, NotStarted<BoxedActor, O, S>>
    requires taken { S.taken sink ≡ [] }
    requires sound { S.failures sink ≡ 0 }
    requires unused { All (IsUnused O.given O.failures) outsides.items }
    ensures started { OnOk result (refusal (vec_len actors) (vec_len outsides) settings ≡ None) }
    ensures run { IfOk result (λ e. IsRecorded O.Door settings (vec_len actors)
        e.history e.own.items e.transcripts (S.taken e.sink) (S.failures e.sink) e.stop) }
    ensures agrees { IfOk result (λ e. (e.stop ≡ Some stop.Strayed)
        ⊎ Agree e.history.rows e.history.asked e.own.items) }
    ensures transcripts { IfOk result (λ e.
        AreTold (vec_len actors) e.history.rows e.stop e.transcripts) }
    ensures ended { IfOk result (λ e. e.stop ≡ None → AreEnded e.own.items) }
    ensures answered { IfOk result (λ e. e.stop ≡ None → AreAnswered e.history.rows) }
    ensures fails { IfOk result (λ e. e.stop ≡ Some stop.Sink → S.failures e.sink ≡ 1) }
    ensures steps { IfOk result (λ e. (e.stop ≡ Some stop.Strayed)
        ⊎ ArePlayedFrom ⟦<BoxedActor as Actor>⟧.state (is_some e.stop) 0
        e.history.rows e.history.asked actors.items e.actors.items) }
    ensures calls { IfOk result (λ e. (e.stop ≡ Some stop.Strayed)
        ⊎ AreLedFrom O.gives 0 e.history.rows e.history.asked outsides.items e.outsides.items) }
    ensures told { IfOk result (λ e. AreTrue O.gives ⟦<BoxedActor as Actor>⟧.state
        actors.items outsides.items e.own.items e.actors.items e.outsides.items) }
    ensures unstarted { IfOk result (λ e.
        TakesPart [] (header_text (header_for settings (vec_len actors))) (S.taken e.sink)
        → (e.actors ≡ actors) × (e.outsides ≡ outsides)) }
    ensures back { IfErr result (λ n. (n.actors ≡ actors) × (n.outsides ≡ outsides)) }
    ensures fault { IfErr result (λ n.
        IsRefusal n.fault (vec_len actors) (vec_len outsides) settings) }
    ensures sink { IfErr result (λ n.
        IsBack S.taken S.failures n.fault (vec_len actors) settings sink n.sink) }
{
    record_actors(rt, alloc, actors, outsides, sink, settings)
}

/// As [`run_recorded`], with actors of one type.
pub fn record_actors<
    A: Actor + Send + Drop,
    O: Outside + Send + Drop,
    S: LogSink + Send + Drop,
    R: Threads + Wait + Sync,
>(
    rt: &R,
    alloc: Global,
    actors: Vec<A>,
    outsides: Vec<O>,
    sink: S,
    settings: Settings,
) -> Result<Ended<A, O, S>, NotStarted<A, O, S>>
    requires taken { S.taken sink ≡ [] }
    requires sound { S.failures sink ≡ 0 }
    requires unused { All (IsUnused O.given O.failures) outsides.items }
    ensures started { OnOk result (refusal (vec_len actors) (vec_len outsides) settings ≡ None) }
    ensures run { IfOk result (λ e. IsRecorded O.Door settings (vec_len actors)
        e.history e.own.items e.transcripts (S.taken e.sink) (S.failures e.sink) e.stop) }
    ensures agrees { IfOk result (λ e. (e.stop ≡ Some stop.Strayed)
        ⊎ Agree e.history.rows e.history.asked e.own.items) }
    ensures transcripts { IfOk result (λ e.
        AreTold (vec_len actors) e.history.rows e.stop e.transcripts) }
    ensures ended { IfOk result (λ e. e.stop ≡ None → AreEnded e.own.items) }
    ensures answered { IfOk result (λ e. e.stop ≡ None → AreAnswered e.history.rows) }
    ensures fails { IfOk result (λ e. e.stop ≡ Some stop.Sink → S.failures e.sink ≡ 1) }
    ensures steps { IfOk result (λ e. (e.stop ≡ Some stop.Strayed)
        ⊎ ArePlayedFrom A.state (is_some e.stop) 0
        e.history.rows e.history.asked actors.items e.actors.items) }
    ensures calls { IfOk result (λ e. (e.stop ≡ Some stop.Strayed)
        ⊎ AreLedFrom O.gives 0 e.history.rows e.history.asked outsides.items e.outsides.items) }
    ensures told { IfOk result (λ e. AreTrue O.gives A.state actors.items outsides.items
        e.own.items e.actors.items e.outsides.items) }
    ensures unstarted { IfOk result (λ e.
        TakesPart [] (header_text (header_for settings (vec_len actors))) (S.taken e.sink)
        → (e.actors ≡ actors) × (e.outsides ≡ outsides)) }
    ensures back { IfErr result (λ n. (n.actors ≡ actors) × (n.outsides ≡ outsides)) }
    ensures fault { IfErr result (λ n.
        IsRefusal n.fault (vec_len actors) (vec_len outsides) settings) }
    ensures sink { IfErr result (λ n.
        IsBack S.taken S.failures n.fault (vec_len actors) settings sink n.sink) }
{
    let manner = Manner {
        in_turn: false,
        watch: Unwatched,
    };
    record_as(rt, alloc, actors, outsides, sink, settings, manner)
}

/// As [`record_actors`], in this manner. The same is promised whatever it is; that calls go outside
/// in the order of the turns, and what the watch is shown, is tested.
pub fn record_as<
    A: Actor + Send + Drop,
    O: Outside + Send + Drop,
    S: LogSink + Send + Drop,
    W: Watch + Send + Drop,
    R: Threads + Wait + Sync,
>(
    rt: &R,
    alloc: Global,
    actors: Vec<A>,
    outsides: Vec<O>,
    sink: S,
    settings: Settings,
    manner: Manner<W>,
) -> Result<Ended<A, O, S>, NotStarted<A, O, S>>
    requires taken { S.taken sink ≡ [] }
    requires sound { S.failures sink ≡ 0 }
    requires unused { All (IsUnused O.given O.failures) outsides.items }
    ensures started { OnOk result (refusal (vec_len actors) (vec_len outsides) settings ≡ None) }
    ensures run { IfOk result (λ e. IsRecorded O.Door settings (vec_len actors)
        e.history e.own.items e.transcripts (S.taken e.sink) (S.failures e.sink) e.stop) }
    ensures agrees { IfOk result (λ e. (e.stop ≡ Some stop.Strayed)
        ⊎ Agree e.history.rows e.history.asked e.own.items) }
    ensures transcripts { IfOk result (λ e.
        AreTold (vec_len actors) e.history.rows e.stop e.transcripts) }
    ensures ended { IfOk result (λ e. e.stop ≡ None → AreEnded e.own.items) }
    ensures answered { IfOk result (λ e. e.stop ≡ None → AreAnswered e.history.rows) }
    ensures fails { IfOk result (λ e. e.stop ≡ Some stop.Sink → S.failures e.sink ≡ 1) }
    ensures steps { IfOk result (λ e. (e.stop ≡ Some stop.Strayed)
        ⊎ ArePlayedFrom A.state (is_some e.stop) 0
        e.history.rows e.history.asked actors.items e.actors.items) }
    ensures calls { IfOk result (λ e. (e.stop ≡ Some stop.Strayed)
        ⊎ AreLedFrom O.gives 0 e.history.rows e.history.asked outsides.items e.outsides.items) }
    ensures told { IfOk result (λ e. AreTrue O.gives A.state actors.items outsides.items
        e.own.items e.actors.items e.outsides.items) }
    ensures unstarted { IfOk result (λ e.
        TakesPart [] (header_text (header_for settings (vec_len actors))) (S.taken e.sink)
        → (e.actors ≡ actors) × (e.outsides ≡ outsides)) }
    ensures back { IfErr result (λ n. (n.actors ≡ actors) × (n.outsides ≡ outsides)) }
    ensures fault { IfErr result (λ n.
        IsRefusal n.fault (vec_len actors) (vec_len outsides) settings) }
    ensures sink { IfErr result (λ n.
        IsBack S.taken S.failures n.fault (vec_len actors) settings sink n.sink) }
{
    let crew = Crew { actors, outsides };
    run_crew(rt, alloc, crew, sink, settings, manner)
}

// As `record_as`, but for what follows of the notes.
fn run_crew<
    A: Actor + Send + Drop,
    O: Outside + Send + Drop,
    S: LogSink + Send + Drop,
    W: Watch + Send + Drop,
    R: Threads + Wait + Sync,
>(
    rt: &R,
    alloc: Global,
    crew: Crew<A, O>,
    sink: S,
    settings: Settings,
    manner: Manner<W>,
) -> Result<Ended<A, O, S>, NotStarted<A, O, S>>
    requires taken { S.taken sink ≡ [] }
    requires sound { S.failures sink ≡ 0 }
    requires unused { All (IsUnused O.given O.failures) crew.outsides.items }
    ensures started { OnOk result (
        refusal (vec_len crew.actors) (vec_len crew.outsides) settings ≡ None) }
    ensures run { IfOk result (λ e. IsRecorded O.Door settings (vec_len crew.actors)
        e.history e.own.items e.transcripts (S.taken e.sink) (S.failures e.sink) e.stop) }
    ensures agrees { IfOk result (λ e. (e.stop ≡ Some stop.Strayed)
        ⊎ Agree e.history.rows e.history.asked e.own.items) }
    ensures transcripts { IfOk result (λ e.
        AreTold (vec_len crew.actors) e.history.rows e.stop e.transcripts) }
    ensures ended { IfOk result (λ e. e.stop ≡ None → AreEnded e.own.items) }
    ensures answered { IfOk result (λ e. e.stop ≡ None → AreAnswered e.history.rows) }
    ensures told { IfOk result (λ e. AreTrue O.gives A.state crew.actors.items crew.outsides.items
        e.own.items e.actors.items e.outsides.items) }
    ensures unstarted { IfOk result (λ e.
        TakesPart [] (header_text (header_for settings (vec_len crew.actors))) (S.taken e.sink)
        → (e.actors ≡ crew.actors) × (e.outsides ≡ crew.outsides)) }
    ensures back { IfErr result (λ n. (n.actors ≡ crew.actors) × (n.outsides ≡ crew.outsides)) }
    ensures fault { IfErr result (λ n.
        IsRefusal n.fault (vec_len crew.actors) (vec_len crew.outsides) settings) }
    ensures sink { IfErr result (λ n.
        IsBack S.taken S.failures n.fault (vec_len crew.actors) settings sink n.sink) }
{
    match room_for(alloc, crew.actors.len(), crew.outsides.len(), settings) {
        Ok(room) => start(rt, alloc, room, crew, sink, settings, manner),
        Err(fault) => Err(not_started(fault, crew, sink)),
    }
}

// Starts a run that has its room: writes the log's header, makes the machine, and lets the actors
// run.
fn start<
    A: Actor + Send + Drop,
    O: Outside + Send + Drop,
    S: LogSink + Send + Drop,
    W: Watch + Send + Drop,
    R: Threads + Wait + Sync,
>(
    rt: &R,
    alloc: Global,
    room: WorkerRoom,
    crew: Crew<A, O>,
    sink: S,
    settings: Settings,
    manner: Manner<W>,
) -> Result<Ended<A, O, S>, NotStarted<A, O, S>>
    requires taken { S.taken sink ≡ [] }
    requires sound { S.failures sink ≡ 0 }
    requires unused { All (IsUnused O.given O.failures) crew.outsides.items }
    requires some { 1 ≤ vec_len crew.actors }
    requires within_limit { vec_len crew.actors ≤ limit.THREADS }
    requires one_each { vec_len crew.outsides ≡ vec_len crew.actors }
    requires range { in_range (header_for settings (vec_len crew.actors)) ≡ true }
    requires started { refusal (vec_len crew.actors) (vec_len crew.outsides) settings ≡ None }
    requires no_own { room.own.items ≡ [] }
    requires own { vec_len crew.actors ≤ vec_capacity room.own }
    requires no_transcripts { room.transcripts.items ≡ [] }
    requires transcripts { vec_len crew.actors ≤ vec_capacity room.transcripts }
    ensures run { IfOk result (λ e. IsRecorded O.Door settings (vec_len crew.actors)
        e.history e.own.items e.transcripts (S.taken e.sink) (S.failures e.sink) e.stop) }
    ensures agrees { IfOk result (λ e. (e.stop ≡ Some stop.Strayed)
        ⊎ Agree e.history.rows e.history.asked e.own.items) }
    ensures transcripts { IfOk result (λ e.
        AreTold (vec_len crew.actors) e.history.rows e.stop e.transcripts) }
    ensures ended { IfOk result (λ e. e.stop ≡ None → AreEnded e.own.items) }
    ensures answered { IfOk result (λ e. e.stop ≡ None → AreAnswered e.history.rows) }
    ensures told { IfOk result (λ e. AreTrue O.gives A.state crew.actors.items crew.outsides.items
        e.own.items e.actors.items e.outsides.items) }
    ensures unstarted { IfOk result (λ e.
        TakesPart [] (header_text (header_for settings (vec_len crew.actors))) (S.taken e.sink)
        → (e.actors ≡ crew.actors) × (e.outsides ≡ crew.outsides)) }
    ensures back { IfErr result (λ n. (n.actors ≡ crew.actors) × (n.outsides ≡ crew.outsides)) }
    ensures fault { IfErr result (λ n.
        IsRefusal n.fault (vec_len crew.actors) (vec_len crew.outsides) settings) }
    ensures sink { IfErr result (λ n.
        IsBack S.taken S.failures n.fault (vec_len crew.actors) settings sink n.sink) }
{
    let header = Header::new(crew.actors.len() as u16, settings);
    let log = match LogWriter::begin(sink, header) {
        Ok(log) => log,
        Err((_, sink)) => return Ok(without_log(alloc, header, room, crew, sink)),
    };
    match Machine::new(alloc, crew.actors.len(), settings, log) {
        Ok(machine) => Ok(run_with(rt, alloc, header, machine, room, crew, manner)),
        Err(log) => Err(not_started(StartFault::Memory, crew, log.into_sink())),
    }
}

// All is handed back.
fn not_started<A: Drop, O: Drop, S: LogSink + Drop>(
    fault: StartFault,
    crew: Crew<A, O>,
    sink: S,
) -> NotStarted<A, O, S>
    ensures { result ≡ record {
      fault = fault;
      actors = crew.actors;
      outsides = crew.outsides;
      sink = sink;
    } }
{
    let Crew { actors, outsides } = crew;
    NotStarted {
        fault,
        actors,
        outsides,
        sink,
    }
}

// The end of a run whose log's header was not taken: nobody was started.
#[tactic(auto, using(crate::proofs::Gathering::empty_last, crate::proofs::Gathering::each_idle))]
fn without_log<A: Actor + Drop, O: Outside + Drop, S: LogSink + Drop>(
    alloc: Global,
    header: Header,
    room: WorkerRoom,
    crew: Crew<A, O>,
    sink: S,
) -> Ended<A, O, S>
    requires threads { header.threads ≡ vec_len crew.actors }
    requires one_each { vec_len crew.outsides ≡ vec_len crew.actors }
    requires no_own { room.own.items ≡ [] }
    requires own { vec_len crew.actors ≤ vec_capacity room.own }
    requires no_transcripts { room.transcripts.items ≡ [] }
    requires transcripts { vec_len crew.actors ≤ vec_capacity room.transcripts }
    requires part { TakesPart [] (header_text header) (S.taken sink) }
    requires failed { S.failures sink ≡ 1 }
    ensures log { HasNoLog header result.history
        (S.taken result.sink) (S.failures result.sink) result.stop }
    ensures agrees { Agree result.history.rows result.history.asked result.own.items }
    ensures transcripts { result.transcripts ≡ transcripts_of (vec_len crew.actors) [] }
    ensures told { AreTrue O.gives A.state crew.actors.items crew.outsides.items
        result.own.items result.actors.items result.outsides.items }
    ensures actors { result.actors ≡ crew.actors }
    ensures outsides { result.outsides ≡ crew.outsides }
{
    let WorkerRoom {
        own,
        transcripts,
        ..
    } = room;
    let Crew { actors, outsides } = crew;
    let mut own = own;
    let mut transcripts = transcripts;
    for _ in 0..actors.len() {
        let Ok(()) = own.push(Own::new(alloc)) else {
            unreachable!()
        };
        let Ok(()) = transcripts.push(Transcript::new(alloc)) else {
            unreachable!()
        };
    }
    Ended {
        transcripts: Transcripts::from_vec(transcripts),
        own,
        actors,
        outsides,
        history: RecordedHistory::none(alloc, header.threads as usize),
        sink,
        stop: Some(Stop::Sink),
    }
}

// Runs the actors, each in a thread, at this machine.
fn run_with<
    A: Actor + Send + Drop,
    O: Outside + Send + Drop,
    S: LogSink + Send + Drop,
    W: Watch + Send + Drop,
    R: Threads + Wait + Sync,
>(
    rt: &R,
    alloc: Global,
    header: Header,
    machine: Machine<S, O::Door>,
    room: WorkerRoom,
    crew: Crew<A, O>,
    manner: Manner<W>,
) -> Ended<A, O, S>
    requires one_each { vec_len crew.outsides ≡ vec_len crew.actors }
    requires unused { All (IsUnused O.given O.failures) crew.outsides.items }
    requires threads { header.threads ≡ vec_len crew.actors }
    requires no_own { room.own.items ≡ [] }
    requires own { vec_len crew.actors ≤ vec_capacity room.own }
    requires no_transcripts { room.transcripts.items ≡ [] }
    requires transcripts { vec_len crew.actors ≤ vec_capacity room.transcripts }
    ensures run { IsRun O.Door header result.history result.own.items result.transcripts
        (S.taken result.sink) (S.failures result.sink) result.stop }
    ensures agrees { (result.stop ≡ Some stop.Strayed)
        ⊎ Agree result.history.rows result.history.asked result.own.items }
    ensures transcripts { AreTold header.threads result.history.rows
        result.stop result.transcripts }
    ensures ended { result.stop ≡ None → AreEnded result.own.items }
    ensures answered { result.stop ≡ None → AreAnswered result.history.rows }
    ensures told { AreTrue O.gives A.state crew.actors.items crew.outsides.items
        result.own.items result.actors.items result.outsides.items }
{
    let WorkerRoom {
        own,
        transcripts,
        told,
        turns,
    } = room;
    let Manner { in_turn, watch } = manner;
    let shared = SharedRun {
        held: Mutex::new(Guarded {
            machine,
            told,
            wakes: Wakes::none(),
        }),
        turns,
        in_turn,
        pulse: Pulse::new(),
    };
    let gathered = run_all(rt, alloc, &shared, crew, own, watch);
    let SharedRun { held, .. } = shared;
    let Guarded { machine, .. } = held.into_inner();
    conclude(alloc, header, machine, gathered, transcripts)
}
