ghost use Rattle.std.specs.Prelude.{◌≡◌, IfOk};
ghost use Rattle.recorder.specs.Seats.{IsCalling, IsReady, IsTrueTo, StandsBehind};

use crate::asked::{StepKind, is_end, kind};
use crate::events::{Journey, Next, go_on, leave};
use crate::leave::Leave;
use crate::noting::{ask_next, bring};
use crate::shared::SharedRun;
use host_doors::Outside;
use input_log::LogSink;
use posix_terms::{Limits, Reply};
use std::alloc::Global;
use std::marker::Model;
use std::snapshot::Snapshot;
use std::sync::Wait;
use thread_scripts::Actor;
use worker_notes::{Own, note_reply};

// A worker at its thread: its actor, its outside, and what it notes. A note is made exactly when
// the machine took the event; its copies and its room are made before.
pub struct Seat<A: Actor, O: Outside> {
    actor: A,
    outside: O,
    own: Own,
    // how many calls were made outside
    number: u32,
    // whether the actor or the outside may be ahead of the notes
    ahead: bool,
    actor_from: Snapshot<A>,
    outside_from: Snapshot<O>,
}

impl<A: Actor, O: Outside> Model for Seat<A, O> {
    ghost use Rattle.recorder.specs.Seats.{IsSeated, Sitting};

    ghost Value = { Sitting O };

    ghost view = { λ s. record {
      from = A.state s.actor_from.value;
      began = s.outside_from.value;
      now = A.state s.actor;
      outside = s.outside;
      steps = s.own.steps.items;
      brought = s.own.outcomes.items;
      ended = s.own.ended;
      number = s.number;
      ahead = s.ahead;
    } };

    ghost invariant = { λ s. IsSeated O O.gives O.given O.failures (record {
      from = A.state s.actor_from.value;
      began = s.outside_from.value;
      now = A.state s.actor;
      outside = s.outside;
      steps = s.own.steps.items;
      brought = s.own.outcomes.items;
      ended = s.own.ended;
      number = s.number;
      ahead = s.ahead;
    }) };
}

// What a worker brings back.
#[derive(Drop)]
pub struct Returned<A, O> {
    pub actor: A,
    pub outside: O,
    pub own: Own,
}

// Plays the actor of thread i to its end, or until the machine is stopped; and where the worker
// itself cannot go on, it stops the machine.
pub fn work<A: Actor, O: Outside, S: LogSink, R: Wait>(
    rt: &R,
    alloc: Global,
    shared: &SharedRun<S, O::Door>,
    i: usize,
    actor: A,
    outside: O,
) -> Returned<A, O>
    requires given { O.given outside ≡ 0 }
    requires failures { O.failures outside ≡ 0 }
    ensures { IsTrueTo O O.gives (A.state actor) outside
        result.own (A.state result.actor) result.outside }
{
    let mut seat = Seat::new(alloc, actor, outside);
    if let Err(why) = seat.play(rt, shared, i) {
        leave(rt, shared, why);
    }
    seat.leave()
}

impl<A: Actor, O: Outside> Seat<A, O> {
    // Before the first step.
    fn new(alloc: Global, actor: A, outside: O) -> Seat<A, O>
        requires given { O.given outside ≡ 0 }
        requires failures { O.failures outside ≡ 0 }
        ensures from { result.from ≡ A.state actor }
        ensures began { result.began ≡ outside }
        ensures ready { IsReady result }
    {
        let actor_from = Snapshot::of(&actor);
        let outside_from = Snapshot::of(&outside);
        Seat {
            actor,
            outside,
            own: Own::new(alloc),
            number: 0,
            ahead: false,
            actor_from,
            outside_from,
        }
    }

    // Asks step after step, to the actor's end.
    fn play<S: LogSink, R: Wait>(
        &mut self,
        rt: &R,
        shared: &SharedRun<S, O::Door>,
        i: usize,
    ) -> Result<(), Leave>
        requires ready { IsReady self.old }
        ensures from { self.new.from ≡ self.old.from }
        ensures began { self.new.began ≡ self.old.began }
    {
        for _ in rt.forever() {
            match self.ask(rt, shared, i)? {
                (StepKind::Work, _) => {}
                (StepKind::Call, Some(reply)) => self.hear(reply),
                (StepKind::Call, None) => self.call(rt, shared, i)?,
                (StepKind::End, _) => return Ok(()),
            }
        }
        unreachable!()
    }

    // Asks the actor's next step. With it comes the reply, where that came at once.
    fn ask<S: LogSink, R: Wait>(
        &mut self,
        rt: &R,
        shared: &SharedRun<S, O::Door>,
        i: usize,
    ) -> Result<(StepKind, Option<Reply>), Leave>
        requires ready { IsReady self.old }
        ensures from { self.new.from ≡ self.old.from }
        ensures began { self.new.began ≡ self.old.began }
        ensures behind { IfOk result (λ asked. StandsBehind asked.0 self.new) }
    {
        self.ahead = true;
        let (note, reply) = ask_next(rt, shared, i, &mut self.actor, &mut self.own.steps)?;
        let kind = kind(&note.step);
        let ended = is_end(&note.step);
        self.own.steps.push_reserved(note);
        self.own.ended = ended;
        self.ahead = false;
        Ok((kind, reply))
    }

    // Brings the call that was asked last to its reply.
    fn call<S: LogSink, R: Wait>(
        &mut self,
        rt: &R,
        shared: &SharedRun<S, O::Door>,
        i: usize,
    ) -> Result<(), Leave>
        requires calling { IsCalling self.old }
        ensures from { self.new.from ≡ self.old.from }
        ensures began { self.new.began ≡ self.old.began }
        ensures ready { IfOk result (λ _. IsReady self.new) }
    {
        for _ in rt.forever() {
            match go_on(rt, shared, i)? {
                Next::Hear(reply) => {
                    self.hear(reply);
                    return Ok(());
                }
                Next::Go(journey) => self.go(rt, shared, i, journey)?,
            }
        }
        unreachable!()
    }

    // The call that was asked last has this reply.
    fn hear(&mut self, reply: Reply)
        requires calling { IsCalling self.old }
        ensures from { self.new.from ≡ self.old.from }
        ensures began { self.new.began ≡ self.old.began }
        ensures ready { IsReady self.new }
    {
        note_reply(&mut self.own.steps, reply);
    }

    // Makes this journey, while others make their events, and has its outcome recorded.
    fn go<S: LogSink, R: Wait>(
        &mut self,
        rt: &R,
        shared: &SharedRun<S, O::Door>,
        i: usize,
        journey: Journey<O::Door>,
    ) -> Result<(), Leave>
        requires calling { IsCalling self.old }
        ensures from { self.new.from ≡ self.old.from }
        ensures began { self.new.began ≡ self.old.began }
        ensures calling { IfOk result (λ _. IsCalling self.new) }
    {
        let number = self.number;
        if number >= Limits::OUTCOMES {
            return Err(Leave::ClockFull);
        }
        self.own.outcomes.reserve(1)?;
        self.ahead = true;
        self.number = number + 1;
        let note = bring(rt, shared, i, &mut self.outside, number, &self.own, journey)?;
        self.own.outcomes.push_reserved(note);
        self.ahead = false;
        Ok(())
    }

    // What the worker brings back.
    fn leave(self) -> Returned<A, O>
        ensures { IsTrueTo O O.gives self.from self.began
            result.own (A.state result.actor) result.outside }
    {
        let Seat {
            actor,
            outside,
            own,
            number: _,
            ahead: _,
            actor_from: _,
            outside_from: _,
        } = self;
        Returned {
            actor,
            outside,
            own,
        }
    }
}
