ghost use Rattle.std.specs.Prelude.{◌≡◌, ◌<◌, ◌≤◌, true, IfOk, IfErr, IfSome, None, length};
ghost use Rattle.std.specs.Prelude.{replicate};
ghost use Rattle.input_log.specs.Grammar.{in_range};
ghost use Rattle.input_log.specs.Writing.{begun};
ghost use Rattle.logical_clocks.specs.TurnOrder.{has_turn, turn_holder};
ghost use Rattle.lock_machine.specs.Phases.{ShowsPhase};
ghost use Rattle.lock_machine.specs.Views.{clocks_of};
ghost use Rattle.lock_machine.specs.Whole.{thread_at};
ghost use Rattle.lock_model.specs.State.{State, live_clocks, thread_of};
ghost use Rattle.posix_terms.specs.declared.limits.TheConstants.Limits as limit;
ghost use Rattle.machine.specs.Kept.{StopsFor};
ghost use Rattle.machine.specs.Runs.{IsEnd};
ghost use Rattle.machine.specs.Starting.{first_shown, header_for};

use crate::stop::Stop;
use input_log::{LogSink, LogWriter};
use lock_machine::{LockMachine, Phase, machines_show};
use lock_model::arising_states;
use posix_terms::{Limits, PackedRow, Settings, Step};
use std::alloc::{AllocError, Global};
use std::marker::Model;

/// Threads that share one table of descriptors, with the writer of their log and their doors to the outside. Any
/// driver may make its events, in any order. Contracts see the threads with their locks, the table and the rows; what
/// the writer wrote; the doors by the numbers of their objects; and why the machine was stopped.
#[derive(Drop)]
pub struct Machine<S: LogSink, D: Drop> {
    pub(crate) calls: LockMachine,
    pub(crate) log: LogWriter<S>,
    // by object number those that are not outside
    pub(crate) doors: Vec<Option<D>>,
    pub(crate) stop: Option<Stop>,
}

impl<S: LogSink, D: Drop> Model for Machine<S, D> {
    ghost use Rattle.machine.specs.Kept.{IsKept};
    ghost use Rattle.machine.specs.Shown.{Shown};
    ghost use Rattle.call_turns.specs.StoreCode.{stored_code};
    ghost use Rattle.std.specs.Coded.{codes};

    ghost Value = { Shown D };

    ghost coded = { Prim.hlevel (codes, stored_code) };

    ghost view = { λ m. record {
      whole = m.calls;
      log = m.log;
      doors = m.doors.items;
      stop = m.stop;
    } };

    ghost invariant = { λ m. IsKept D
        (record { whole = m.calls; log = m.log; doors = m.doors.items; stop = m.stop }) };
}

impl<S: LogSink, D: Drop> Machine<S, D> {
    /// So many threads, over a table with nothing open and only the root. The writer has written their header and
    /// nothing more; where there is no memory it is handed back.
    pub fn new(
        alloc: Global,
        threads: usize,
        settings: Settings,
        log: LogWriter<S>,
    ) -> Result<Machine<S, D>, LogWriter<S>>
        requires some { 1 ≤ threads }
        requires within_limit { threads ≤ limit.THREADS }
        requires range { in_range (header_for settings threads) ≡ true }
        requires begun { log ≡ begun (header_for settings threads) }
        ensures new { IfOk result (λ machine. machine ≡ first_shown settings threads) }
        ensures back { IfErr result (λ writer. writer ≡ log) }
    {
        arising_states();
        machines_show();
        match (LockMachine::new(alloc, threads, settings), no_doors(alloc)) {
            (Ok(calls), Ok(doors)) => Ok(Machine {
                calls,
                log,
                doors,
                stop: None,
            }),
            _ => Err(log),
        }
    }

    /// Why the machine is stopped, if it is. Its sink failed exactly when the cause is `Sink`; and the cause is never
    /// `Strayed`.
    pub fn stopped(&self) -> Option<Stop>
        ensures stop { result ≡ self.now.stop }
        ensures cause { StopsFor self.now.log.failures result }
    {
        self.stop
    }

    /// The sink, with what the log's writer put into it so far.
    pub fn sink(&self) -> &S
        ensures taken { S.taken result.now ≡ self.now.log.taken }
        ensures failures { S.failures result.now ≡ self.now.log.failures }
    {
        self.log.sink()
    }

    /// How many threads there are: 1 to 16.
    pub fn len(&self) -> usize
        ensures count { result ≡ length self.now.whole.threads }
        ensures some { 1 ≤ result }
        ensures within_limit { result ≤ limit.THREADS }
    {
        self.calls.len()
    }

    /// Where thread i is between its events. Whichever run leads to the machine, this shows the phase that the thread
    /// has at its end (`shown`).
    pub fn phase(&self, i: usize) -> &Phase
        requires { i < length self.now.whole.threads }
        ensures phase { result.now ≡ (thread_at self.now.whole i).phase }
        ensures shown { (s : State) → IsEnd self.now.whole s
            → ShowsPhase result.now (thread_of s i).phase }
    {
        machines_show();
        self.calls.phase(i)
    }

    /// How many outcomes came for thread i.
    pub fn came(&self, i: usize) -> u32
        requires { i < length self.now.whole.threads }
        ensures { result ≡ (thread_at self.now.whole i).came }
    {
        self.calls.came(i)
    }

    /// The clock of thread i. That of a thread that has ended is the one at which it did.
    pub fn clock(&self, i: usize) -> u64
        requires { i < length self.now.whole.threads }
        ensures { result ≡ (thread_at self.now.whole i).clock }
    {
        self.calls.clock(i)
    }

    /// Whether thread i has the turn. An attempt without it is refused. It is the turn of the definition, at the end of
    /// whichever run leads to the machine (`shown`).
    pub fn has_turn(&self, i: usize) -> bool
        requires { i < length self.now.whole.threads }
        ensures turn { result ≡ has_turn (clocks_of self.now.whole.threads) i }
        ensures shown { (s : State) → IsEnd self.now.whole s → result ≡ has_turn (live_clocks s) i }
    {
        machines_show();
        self.calls.has_turn(i)
    }

    /// The thread that has the turn: nobody has, once all threads have ended.
    pub fn turn_holder(&self) -> Option<usize>
        ensures holder { result ≡ turn_holder (clocks_of self.now.whole.threads) }
        ensures inside { IfSome result (λ i. i < length self.now.whole.threads) }
        ensures shown { (s : State) → IsEnd self.now.whole s
            → result ≡ turn_holder (live_clocks s) }
    {
        machines_show();
        self.calls.turn_holder()
    }
}

// A place for the door of each object.
fn no_doors<D: Drop>(alloc: Global) -> Result<Vec<Option<D>>, AllocError>
    ensures { IfOk result (λ doors. doors.items ≡ replicate limit.OBJECTS None) }
{
    let mut doors = Vec::new(alloc);
    for _ in 0..Limits::OBJECTS {
        doors.push(None)?;
    }
    Ok(doors)
}
