ghost use Rattle.std.specs.Prelude.{◌≡◌, ◌<◌, ◌≤◌, ℕ, IfErr, IfOk, IfSome, IsSomeAnd, OnErr, OnOk};
ghost use Rattle.std.specs.Prelude.{if◌then◌else◌, false, get_or, length, option_copied, slice_get};
ghost use Rattle.c_words.specs.Words.{outcome_of};
ghost use Rattle.c_words.specs.declared.fault.LibraryFault.TheVariants as fault;
ghost use Rattle.lock_machine.specs.Refusals.{goes_outside, has_answer, is_blocked, phase_at};
ghost use Rattle.lock_machine.specs.Refusals.{works};
ghost use Rattle.lock_model.specs.Machine.Event.{Advances};
ghost use Rattle.machine.specs.Faithful.{IsFaithful};
ghost use Rattle.machine.specs.Requests.{out_of};
ghost use Rattle.machine.specs.Runs.Coming.{Asks, Nothing};
ghost use Rattle.posix_terms.specs.declared.step.Step.TheVariants as step;
ghost use Rattle.detio_c.specs.Begun.{Begins, BeginsReplay, outcomes_by, settings_said};
ghost use Rattle.detio_c.specs.Promise.{BringsOutcome, FillsLog, GoesOut, GrowsBy, HasSettled};
ghost use Rattle.detio_c.specs.Promise.{KeepsRest, LeadsBy, MayHaveAttempted};
ghost use Rattle.detio_c.specs.Reads.{HasClock, HasFinished, HasStopped, HasTurn, IsAtPhase};
ghost use Rattle.detio_c.specs.Reads.{IsHolder, MayGo, ReadsAnswer, ReadsLogOf, ReadsNext};
ghost use Rattle.detio_c.specs.Reads.{ReadsRequest, Rests, came_for, counts_in, counts_of};
ghost use Rattle.detio_c.specs.Reads.{door_along, next_logged, phase_code};
ghost use Rattle.detio_c.specs.Reads.{Brings, bytes_at_end, bytes_came, unused_of, waits_in};
ghost use Rattle.detio_c.specs.Refused.{IsOver, NothingElse, OfThread, RefusesAnswer};
ghost use Rattle.detio_c.specs.Refused.{RefusesAsking, RefusesAttempt, RefusesCount, RefusesEnd};
ghost use Rattle.detio_c.specs.Refused.{RefusesEvent, RefusesLog, RefusesMaking, RefusesNext};
ghost use Rattle.detio_c.specs.Refused.{RefusesOutcome, RefusesReplay, RefusesRequest, RefusesRun};
ghost use Rattle.detio_c.specs.Refused.{RefusesWords};
ghost use Rattle.detio_c.specs.Refused.{RefusesSettling, RefusesStop, bytes_due};

use crate::ends::{doors_of, run_end};
use crate::fault::fault_of;
use c_words::{
    LibraryFault, OutcomeWords, OutsideWords, ReplyWords, RunEnd, RunWords, outcome_of,
    outcome_words, outside_words, put_front, reply_words, text_of,
};
use call_turns::TurnEnd;
use input_log::{Header, LogFault, LogWriter, MemorySink, Record, decode_front, outcomes_of};
use machine::{Finished, Machine, Phase, Stop, are_in_range};
use posix_terms::{Answer, Given, Limits, Outcome, Outcomes, PackedRow, Reply, Settings, Step};
use std::alloc::{AllocError, Global};

/// What a handle holds: the machine of a run while it goes on, and then what it left. A door is a number of the
/// caller's, as a descriptor of the host.
#[derive(Drop)]
pub struct Session {
    /// The machine, while the run goes on.
    pub machine: Option<Machine<MemorySink, u64>>,
    /// What it left.
    pub left: Option<Finished<MemorySink>>,
    // of a replay, by thread the outcomes that its log has
    logged: Vec<Outcomes>,
    // of a run that is over, by thread how many outcomes came
    came: Vec<u32>,
}

// How many bytes the words have that a run is made with.
const RUN_BYTES: usize = 40;

// So many attempts one call of settle makes.
const ATTEMPTS: u32 = 4096;

impl Session {
    /// A run of so many threads, whose log has so much room.
    #[tactic(auto, unfolding(input_log::specs::Grammar::in_range))]
    pub fn new(alloc: Global, words: &RunWords) -> Result<Session, LibraryFault>
        ensures begun { IfOk result (Begins (settings_said words.now) words.now.threads) }
        ensures sized { IfOk result (λ _. 40 ≤ words.now.size) }
        ensures why { IfErr result (RefusesWords words.now) }
    {
        if words.size < RUN_BYTES {
            return Err(LibraryFault::BadSettings);
        }
        let version = match words.version {
            1 => 1,
            2 => 2,
            _ => return Err(LibraryFault::BadSettings),
        };
        let settings = Settings {
            patience: words.patience,
            door_cost: words.door_cost,
            version,
        };
        Session::under(alloc, words.threads, settings, words.room)
    }

    #[tactic(auto, unfolding(input_log::specs::Grammar::in_range))]
    fn under(
        alloc: Global,
        threads: usize,
        settings: Settings,
        room: usize,
    ) -> Result<Session, LibraryFault>
        ensures begun { IfOk result (Begins settings threads) }
        ensures why { IfErr result (RefusesRun settings threads) }
    {
        if threads < 1 || threads > Limits::THREADS || !are_in_range(settings) {
            return Err(LibraryFault::BadSettings);
        }
        let sink = MemorySink::new(alloc, room)?;
        let Ok(log) = LogWriter::begin(sink, Header::new(threads as u16, settings)) else {
            return Err(LibraryFault::LogFull);
        };
        let Ok(machine) = Machine::new(alloc, threads, settings, log) else {
            return Err(LibraryFault::NoMemory);
        };
        Ok(Session {
            machine: Some(machine),
            left: None,
            logged: Vec::new(alloc),
            came: Vec::new(alloc),
        })
    }

    /// A replay of this log, under its header: as many threads, and room for the same log. A log that is torn is
    /// replayed up to the tear.
    pub fn replay(alloc: Global, log: &[u8]) -> Result<Session, LibraryFault>
        ensures begun { IfOk result (BeginsReplay log.now) }
        ensures why { IfErr result (RefusesReplay log.now) }
    {
        let text = match decode_front(alloc, log) {
            Ok(text) => text,
            Err(LogFault::Memory) => return Err(LibraryFault::NoMemory),
            Err(_) => return Err(LibraryFault::NotALog),
        };
        let threads = usize::from(text.header.threads);
        // A torn log has no end, which takes five bytes.
        let room = log.len().saturating_add(5);
        let logged = outcomes_by(alloc, threads, text.records.as_slice())?;
        match Session::under(alloc, threads, text.header.settings(), room) {
            Ok(session) => Ok(Session { logged, ..session }),
            Err(fault) => Err(fault),
        }
    }

    /// Thread i asks this step, which is not its end.
    pub fn ask(&mut self, i: usize, asked: Step) -> Result<(), LibraryFault>
        ensures rest { KeepsRest self.old self.new }
        ensures grown { OnOk result
            (GrowsBy (Asks asked) (Advances i) self.old.machine self.new.machine) }
        ensures refused { OnErr result (self.new ≡ self.old) }
        ensures why { IfErr result (λ f. RefusesAsking asked i f self.old) }
    {
        let Some(machine) = &mut self.machine else {
            return Err(LibraryFault::Over);
        };
        if i >= machine.len() {
            return Err(LibraryFault::NoThread);
        }
        machine.ask(i, asked).map_err(fault_of)
    }

    /// Thread i ends.
    pub fn end(&mut self, i: usize) -> Result<(), LibraryFault>
        ensures rest { KeepsRest self.old self.new }
        ensures grown { OnOk result
            (GrowsBy (Asks step.End) (Advances i) self.old.machine self.new.machine) }
        ensures refused { OnErr result (self.new ≡ self.old) }
        ensures why { IfErr result (λ f. OfThread i
            (RefusesEvent works (Asks step.End) i) f self.old) }
    {
        let Some(machine) = &mut self.machine else {
            return Err(LibraryFault::Over);
        };
        if i >= machine.len() {
            return Err(LibraryFault::NoThread);
        }
        machine.end(i).map_err(fault_of)
    }

    /// Thread i makes its blocked call again.
    pub fn again(&mut self, i: usize) -> Result<(), LibraryFault>
        ensures rest { KeepsRest self.old self.new }
        ensures grown { OnOk result
            (GrowsBy Nothing (Advances i) self.old.machine self.new.machine) }
        ensures refused { OnErr result (self.new ≡ self.old) }
        ensures why { IfErr result (λ f. OfThread i
            (RefusesMaking is_blocked Nothing i) f self.old) }
    {
        let Some(machine) = &mut self.machine else {
            return Err(LibraryFault::Over);
        };
        if i >= machine.len() {
            return Err(LibraryFault::NoThread);
        }
        machine.again(i).map_err(fault_of)
    }

    /// Makes the attempts that can be made, but not too many at once: whether there may be more. Where there are none,
    /// whoever has the turn attempts no lock (`rests`). Where one is refused after others were made, there may be more:
    /// then the next call makes none and is refused.
    pub fn settle(&mut self) -> Result<bool, LibraryFault>
        ensures rests { IfOk result (λ more. more ≡ false → IsSomeAnd self.new.machine Rests) }
        ensures attempts { IfOk result
            (λ more. HasSettled (if more then 1 else 0) self.old self.new) }
        ensures refused { OnErr result (self.new ≡ self.old) }
        ensures why { IfErr result (λ f. RefusesSettling f self.old) }
    {
        let Some(machine) = &mut self.machine else {
            return Err(LibraryFault::Over);
        };
        if machine.stopped().is_some() {
            return Err(LibraryFault::Stopped);
        }
        attempts(machine)
    }

    /// Where thread i is, as C knows it.
    pub fn phase(&self, i: usize) -> Result<u32, LibraryFault>
        ensures phase { IfOk result (λ n. IsSomeAnd self.now.machine (IsAtPhase i n)) }
        ensures why { IfErr result (λ f. OfThread i NothingElse f self.now) }
    {
        let Some(machine) = &self.machine else {
            return Err(LibraryFault::Over);
        };
        if i >= machine.len() {
            return Err(LibraryFault::NoThread);
        }
        Ok(phase_code(machine.phase(i)))
    }

    /// Whether thread i has the turn.
    pub fn has_turn(&self, i: usize) -> Result<bool, LibraryFault>
        ensures turn { IfOk result (λ has. IsSomeAnd self.now.machine (HasTurn i has)) }
        ensures why { IfErr result (λ f. OfThread i NothingElse f self.now) }
    {
        let Some(machine) = &self.machine else {
            return Err(LibraryFault::Over);
        };
        if i >= machine.len() {
            return Err(LibraryFault::NoThread);
        }
        Ok(machine.has_turn(i))
    }

    /// The clock of thread i. That of a thread that has ended is the one at which it did.
    pub fn clock(&self, i: usize) -> Result<u64, LibraryFault>
        ensures clock { IfOk result (λ clock. IsSomeAnd self.now.machine (HasClock i clock)) }
        ensures why { IfErr result (λ f. OfThread i NothingElse f self.now) }
    {
        let Some(machine) = &self.machine else {
            return Err(LibraryFault::Over);
        };
        if i >= machine.len() {
            return Err(LibraryFault::NoThread);
        }
        Ok(machine.clock(i))
    }

    /// The thread that has the turn, if one has.
    pub fn holder(&self) -> Result<Option<usize>, LibraryFault>
        ensures holder { IfOk result (λ holder. IsSomeAnd self.now.machine (IsHolder holder)) }
        ensures why { IfErr result (λ f. IsOver f self.now) }
    {
        let Some(machine) = &self.machine else {
            return Err(LibraryFault::Over);
        };
        Ok(machine.turn_holder())
    }

    /// Whether thread i is about to go outside, and each call that was granted before its own and goes outside has its
    /// record.
    pub fn may_go(&self, i: usize) -> Result<bool, LibraryFault>
        ensures go { IfOk result (λ may. IsSomeAnd self.now.machine (MayGo i may)) }
        ensures why { IfErr result (λ f. OfThread i NothingElse f self.now) }
    {
        let Some(machine) = &self.machine else {
            return Err(LibraryFault::Over);
        };
        if i >= machine.len() {
            return Err(LibraryFault::NoThread);
        }
        Ok(machine.may_go(i))
    }

    /// The answer of thread i's call, or none where it makes the call again. Where `buffer` has no room for its bytes
    /// nothing happens.
    pub fn answer(
        &mut self,
        i: usize,
        buffer: &mut [u8],
    ) -> Result<Option<ReplyWords>, LibraryFault>
        ensures rest { KeepsRest self.old self.new }
        ensures grown { OnOk result
            (GrowsBy Nothing (Advances i) self.old.machine self.new.machine) }
        ensures words { IfOk result (λ words. IsSomeAnd self.old.machine
            (ReadsAnswer i words (length buffer.old) buffer.new)) }
        ensures refused { OnErr result (self.new ≡ self.old) }
        ensures why { IfErr result (λ f. OfThread i
            (RefusesAnswer i (length buffer.old)) f self.old) }
    {
        let Some(machine) = &mut self.machine else {
            return Err(LibraryFault::Over);
        };
        if i >= machine.len() {
            return Err(LibraryFault::NoThread);
        }
        if machine.stopped().is_some() {
            return Err(LibraryFault::Stopped);
        }
        let Some(most) = bytes_to_come(machine, i) else {
            return Err(LibraryFault::WrongPhase);
        };
        if most > buffer.len() {
            return Err(LibraryFault::NoRoom);
        }
        match machine.answer(i) {
            Ok(Answer::Reply(reply)) => Ok(Some(reply_words(&reply, buffer))),
            Ok(Answer::Again) => Ok(None),
            Err(refused) => Err(fault_of(refused)),
        }
    }

    /// What thread i asks outside, if it is about to go there or is there, with the path or the bytes of its call.
    pub fn request(&self, i: usize, buffer: &mut [u8]) -> Result<OutsideWords, LibraryFault>
        ensures request { IfOk result (λ words. IsSomeAnd self.now.machine
            (ReadsRequest i words buffer.new)) }
        ensures why { IfErr result (λ f. OfThread i
            (RefusesRequest i (length buffer.old)) f self.now) }
    {
        let Some(machine) = &self.machine else {
            return Err(LibraryFault::Over);
        };
        if i >= machine.len() {
            return Err(LibraryFault::NoThread);
        }
        let Some(request) = machine.request(i)? else {
            return Err(LibraryFault::WrongPhase);
        };
        if text_of(&request.call).len() > buffer.len() {
            return Err(LibraryFault::NoRoom);
        }
        Ok(outside_words(&request, waits_at(machine.phase(i)), buffer))
    }

    /// Thread i goes outside, with the door that is given, if one goes along.
    pub fn begin_outside(&mut self, i: usize) -> Result<Option<u64>, LibraryFault>
        ensures rest { KeepsRest self.old self.new }
        ensures grown { OnOk result (GoesOut i self.old.machine self.new.machine) }
        ensures door { IfOk result (λ door. IsSomeAnd self.old.machine
            (λ m. door ≡ door_along i m)) }
        ensures refused { OnErr result (self.new ≡ self.old) }
        ensures why { IfErr result (λ f. OfThread i
            (RefusesEvent goes_outside Nothing i) f self.old) }
    {
        let Some(machine) = &mut self.machine else {
            return Err(LibraryFault::Over);
        };
        if i >= machine.len() {
            return Err(LibraryFault::NoThread);
        }
        machine.begin_outside(i).map_err(fault_of)
    }

    /// This came for thread i, which is outside.
    pub fn record(
        &mut self,
        alloc: Global,
        i: usize,
        words: &OutcomeWords,
        bytes: &[u8],
    ) -> Result<(), LibraryFault>
        ensures rest { KeepsRest self.old self.new }
        ensures grown { OnOk result (BringsOutcome (outcome_of words.now bytes.now) words.now i
            self.old.machine self.new.machine) }
        ensures refused { IfErr result (λ f. (f ≡ fault.LogFull → ⊥) → self.new ≡ self.old) }
        ensures why { IfErr result (λ f. (f ≡ fault.LogFull → ⊥)
            → OfThread i (RefusesOutcome words.now (outcome_of words.now bytes.now) i) f self.old) }
        ensures full { IfErr result (λ f. f ≡ fault.LogFull
            → FillsLog (outcome_of words.now bytes.now) i self.old.machine self.new.machine) }
    {
        let Some(machine) = &mut self.machine else {
            return Err(LibraryFault::Over);
        };
        if i >= machine.len() {
            return Err(LibraryFault::NoThread);
        }
        let Some(errand) = machine.awaited(i) else {
            return Err(LibraryFault::WrongPhase);
        };
        let outcome = outcome_of(alloc, words, bytes)?;
        let (back, opened) = doors_of(errand.kind, &outcome, words);
        if !machine.takes(i, &outcome, back.is_some(), opened.is_some()) {
            return Err(LibraryFault::NoAnswer);
        }
        if let Err(refused) = machine.record(i, outcome, back, opened) {
            return Err(fault_of(refused.cause));
        }
        Ok(())
    }

    /// Of a replay, what its log has next for thread i, which is about to go outside or is there.
    pub fn next(&self, i: usize, buffer: &mut [u8]) -> Result<OutcomeWords, LibraryFault>
        ensures next { IfOk result (λ words. ReadsNext i words buffer.new self.now) }
        ensures why { IfErr result (λ f. RefusesNext i (length buffer.old) f self.now) }
    {
        let Some(machine) = &self.machine else {
            return Err(LibraryFault::Over);
        };
        if i >= machine.len() {
            return Err(LibraryFault::NoThread);
        }
        let errand = match machine.phase(i) {
            Phase::ToOutside(outing) | Phase::Outside(outing) => outing.errand,
            _ => return Err(LibraryFault::WrongPhase),
        };
        let Some(turn) = machine.outside_turn(i) else {
            return Err(LibraryFault::WrongPhase);
        };
        let Some(given) = self.next_logged(i) else {
            return Err(LibraryFault::EndOfLog);
        };
        if !given.suits(errand.kind, errand.asked) || !given.is_at(turn) {
            return Err(LibraryFault::Diverged);
        }
        outcome_words(&given.outcome, buffer)
    }

    // The next outcome of thread i in the log, if there is one.
    fn next_logged(&self, i: usize) -> Option<&Given>
        ensures { option_copied result ≡ next_logged self.now i }
    {
        let count = self.came_for(i);
        match self.logged.as_slice().get(i) {
            Some(outcomes) => outcomes.as_slice().get(count as usize),
            None => None,
        }
    }

    // How many outcomes came for thread i, and none where there is no such thread.
    fn came_for(&self, i: usize) -> u32
        ensures { result ≡ came_for self.now i }
    {
        match &self.machine {
            Some(machine) => came_in(machine, i),
            None => match self.came.as_slice().get(i) {
                Some(count) => *count,
                None => 0,
            },
        }
    }

    // How many threads there are.
    fn len(&self) -> usize
        ensures { result ≡ length (counts_of self.now) }
    {
        match &self.machine {
            Some(machine) => machine.len(),
            None => self.came.len(),
        }
    }

    /// Of a replay, how many records of thread i did not come.
    pub fn unused(&self, i: usize) -> Result<u64, LibraryFault>
        ensures count { IfOk result (λ n. n ≡ unused_of self.now i) }
        ensures why { IfErr result (λ f. RefusesCount i f self.now) }
    {
        if i >= self.len() {
            return Err(LibraryFault::NoThread);
        }
        let logged = match self.logged.as_slice().get(i) {
            Some(outcomes) => outcomes.as_slice().len() as u64,
            None => 0,
        };
        Ok(logged.saturating_sub(u64::from(self.came_for(i))))
    }

    /// Stops the run for this cause: 1 memory, 2 a clock is full, 3 the log ended for this thread, 4 it diverged.
    pub fn stop(&mut self, cause: u32, i: usize) -> Result<(), LibraryFault>
        ensures done { OnOk result (HasStopped cause i self.old self.new) }
        ensures refused { OnErr result (self.new ≡ self.old) }
        ensures why { IfErr result (λ f. RefusesStop cause i f self.old) }
    {
        let count = self.came_for(i);
        let Some(machine) = &mut self.machine else {
            return Err(LibraryFault::Over);
        };
        if (cause == 3 || cause == 4) && i >= machine.len() {
            return Err(LibraryFault::NoThread);
        }
        let stopped = match cause {
            1 => machine.stop(Stop::Memory),
            2 => machine.stop(Stop::ClockFull),
            3 => machine.stop(Stop::EndOfLog(i)),
            4 => machine.stop(Stop::Diverged(i, count)),
            _ => return Err(LibraryFault::NotACall),
        };
        stopped.map_err(fault_of)
    }

    /// The run is over. Its log is kept, with its end where all threads have ended, and how many outcomes came.
    pub fn finish(&mut self, alloc: Global) -> Result<RunEnd, LibraryFault>
        ensures done { IfOk result (λ words. HasFinished words self.old self.new) }
        ensures refused { OnErr result (self.new ≡ self.old) }
        ensures why { IfErr result (λ f. RefusesEnd f self.old) }
    {
        let came = match &self.machine {
            Some(machine) => counts_in(alloc, machine)?,
            None => return Err(LibraryFault::Over),
        };
        let Some(machine) = self.machine.take() else {
            return Err(LibraryFault::Over);
        };
        self.came = came;
        let have_ended = machine.have_ended();
        let left = machine.finish();
        let words = run_end(left.stop, have_ended, left.sink.bytes());
        self.left = Some(left);
        Ok(words)
    }

    /// Bytes of the log, which a run that goes on has so far, from this place on, as many as have room in `buffer`: how
    /// long the log is.
    pub fn log(&self, from: usize, buffer: &mut [u8]) -> Result<usize, LibraryFault>
        ensures log { IfOk result (λ n. ReadsLogOf from n (length buffer.old) buffer.new self.now) }
        ensures why { IfErr result (λ f. RefusesLog f self.now) }
    {
        let bytes = match (&self.machine, &self.left) {
            (Some(machine), _) => machine.sink().bytes(),
            (None, Some(left)) => left.sink.bytes(),
            // A run that is over has left something.
            (None, None) => return Err(LibraryFault::Over),
        };
        let (_, rest) = bytes.split_at(from.min(bytes.len()));
        put_front(rest, buffer);
        Ok(bytes.len())
    }

    /// What is true of a session.
    pub fn faithful(&self)
        ensures { IfSome self.now.machine (IsFaithful ℕ) }
    {
        if let Some(machine) = &self.machine {
            let _ = machine.history();
        }
    }
}

// The outcomes of the first threads, so many, each with its own in order.
fn outcomes_by(
    alloc: Global,
    threads: usize,
    records: &[Record],
) -> Result<Vec<Outcomes>, AllocError>
    ensures { IfOk result (λ outcomes. outcomes.items ≡ outcomes_by threads records.now) }
{
    let mut outcomes = Vec::new(alloc);
    for thread in 0..threads {
        outcomes.push(outcomes_of(alloc, thread, records)?)?;
    }
    Ok(outcomes)
}

// How many outcomes came for thread i of a machine, and none where there is no such thread.
fn came_in(machine: &Machine<MemorySink, u64>, i: usize) -> u32
    ensures { result ≡ get_or (counts_in machine.now.whole) i 0 }
{
    if i < machine.len() {
        machine.came(i)
    } else {
        0
    }
}

// By thread how many outcomes came.
fn counts_in(alloc: Global, machine: &Machine<MemorySink, u64>) -> Result<Vec<u32>, AllocError>
    ensures { IfOk result (λ came. came.items ≡ counts_in machine.now.whole) }
{
    let mut came = Vec::new(alloc);
    for i in 0..machine.len() {
        came.push(came_in(machine, i))?;
    }
    Ok(came)
}

// Makes the attempts that can be made, but not too many: whether there may be more. Where the first is refused, so is
// this.
fn attempts(machine: &mut Machine<MemorySink, u64>) -> Result<bool, LibraryFault>
    ensures rests { IfOk result (λ more. more ≡ false → Rests machine.new) }
    ensures attempts { IfOk result
        (λ more. LeadsBy (if more then 1 else 0) machine.old machine.new) }
    ensures refused { OnErr result (machine.new ≡ machine.old) }
    ensures why { IfErr result (λ f. RefusesAttempt f machine.old) }
{
    if !attempt(machine)? {
        return Ok(false);
    }
    for _ in 1..ATTEMPTS {
        match attempt(machine) {
            Ok(true) => {}
            Ok(false) => return Ok(false),
            Err(_) => return Ok(true),
        }
    }
    Ok(true)
}

// Whether whoever has the turn attempts a lock now, which is done.
fn attempt(machine: &mut Machine<MemorySink, u64>) -> Result<bool, LibraryFault>
    ensures rests { IfOk result (λ made. made ≡ false → Rests machine.new) }
    ensures attempt { IfOk result (λ made. MayHaveAttempted made machine.old machine.new) }
    ensures refused { OnErr result (machine.new ≡ machine.old) }
    ensures why { IfErr result (λ f. RefusesAttempt f machine.old) }
{
    let Some(i) = machine.turn_holder() else {
        return Ok(false);
    };
    let made = match machine.phase(i) {
        Phase::WantsTable { .. } => machine.try_table(i),
        Phase::WantsObject { .. } => machine.try_node(i),
        _ => return Ok(false),
    };
    match made {
        Ok(_) => Ok(true),
        Err(refused) => Err(fault_of(refused)),
    }
}

fn phase_code(phase: &Phase) -> u32
    ensures { result ≡ phase_code phase.now }
{
    match phase {
        Phase::Working => 1,
        Phase::WantsTable { .. } => 2,
        Phase::WantsObject { .. } => 3,
        Phase::Granted { .. } => 4,
        Phase::ToOutside(_) => 5,
        Phase::Outside(_) => 6,
        Phase::Recorded(_) => 7,
        Phase::Blocked { .. } => 8,
        Phase::Ended => 9,
    }
}

// Whether a call that goes outside, or is there, waits for its peer.
fn waits_at(phase: &Phase) -> bool
    ensures { result ≡ waits_in (out_of phase.now) }
{
    match phase {
        Phase::ToOutside(outing) | Phase::Outside(outing) => outing.errand.waits,
        _ => false,
    }
}

// How many bytes the reply of thread i will have at most, if its call is about to be answered.
fn bytes_to_come(machine: &Machine<MemorySink, u64>, i: usize) -> Option<usize>
    requires { i < length machine.now.whole.threads }
    ensures most { IfSome result (λ most. Brings i most machine.now) }
    ensures due { IfSome result (λ most. most
        ≡ bytes_due (phase_at machine.now.whole i) machine.now.whole.rows) }
    ensures none { result ≡ None → has_answer (phase_at machine.now.whole i) ≡ false }
{
    let rows = machine.history();
    match machine.phase(i) {
        Phase::Granted { ends, .. } => Some(bytes_at_end(ends)),
        Phase::Recorded(outing) => match row_at(rows, outing.row) {
            Some(row) => Some(bytes_came(row)),
            None => None,
        },
        _ => None,
    }
}

// A row by its place.
fn row_at(rows: &[PackedRow], place: usize) -> Option<&PackedRow>
    ensures { option_copied result ≡ slice_get rows.now place }
{
    rows.get(place)
}

// How many bytes the end of a turn has.
fn bytes_at_end(ends: &TurnEnd) -> usize
    ensures { result ≡ bytes_at_end ends.now }
{
    match ends {
        TurnEnd::Reply(Reply::Data(bytes)) => bytes.as_slice().len(),
        _ => 0,
    }
}

// How many bytes came for the call of a row, if anything did.
fn bytes_came(row: &PackedRow) -> usize
    ensures { result ≡ bytes_came row.now.outcome }
{
    match row.outcome() {
        Some(Outcome::Ok { bytes, .. }) => bytes.as_slice().len(),
        _ => 0,
    }
}
