ghost use Rattle.std.specs.Prelude.{◌≡◌, ◌+◌, ◌≤◌, ◌<◌, ◌⊎◌, None, Some, IfOk, OnOk};
ghost use Rattle.std.specs.Prelude.{vec_capacity, vec_len};
ghost use Rattle.host_doors.specs.Giving.{CanCount};
ghost use Rattle.thread_scripts.specs.Meaning.{next_of};
ghost use Rattle.worker_notes.specs.Leads.{IsAhead};
ghost use Rattle.worker_notes.specs.Plays.{last_reply, open_call};
ghost use Rattle.worker_notes.specs.Requests.{open_request};

use crate::asked::copied;
use crate::events::{Journey, ask, record};
use crate::leave::Leave;
use crate::outside::reach;
use crate::shared::SharedRun;
use host_doors::Outside;
use input_log::LogSink;
use posix_terms::{Reply, Request, Turn};
use std::alloc::AllocError;
use std::sync::Wait;
use thread_scripts::Actor;
use worker_notes::{Brought, Noted, Own, last_reply, open_call, request_for};

// What a worker does for its next note: where the machine took the event there is a note of it.

// Thread i asks the actor's next step, and has its reply where that comes at once. The notes have
// room for the step then.
pub fn ask_next<A: Actor, S: LogSink, D: Drop, R: Wait>(
    rt: &R,
    shared: &SharedRun<S, D>,
    i: usize,
    actor: &mut A,
    notes: &mut Vec<Noted>,
) -> Result<(Noted, Option<Reply>), Leave>
    ensures note { IfOk result (λ asked. asked.0 ≡ record {
      step = (next_of (last_reply notes.old.items) (A.state actor.old)).0;
      reply = None;
    }) }
    ensures after { OnOk result (A.state actor.new
        ≡ (next_of (last_reply notes.old.items) (A.state actor.old)).1) }
    ensures room { OnOk result (vec_len notes.new < vec_capacity notes.new) }
    ensures notes { notes.new.items ≡ notes.old.items }
    ensures ahead { (A.state actor.new ≡ A.state actor.old)
        ⊎ (A.state actor.new ≡ (next_of (last_reply notes.old.items) (A.state actor.old)).1) }
{
    let step = actor.next(last_reply(notes.as_slice()))?;
    let copy = copied(&step)?;
    notes.reserve(1)?;
    let reply = ask(rt, shared, i, step, notes)?;
    let note = Noted {
        step: copy,
        reply: None,
    };
    Ok((note, reply))
}

// Makes this journey of thread i, while others make their events: the request of the call in which
// its steps end, which gets the outcome of this number; and has that recorded.
pub fn bring<O: Outside, S: LogSink, R: Wait>(
    rt: &R,
    shared: &SharedRun<S, O::Door>,
    i: usize,
    outside: &mut O,
    number: u32,
    own: &Own,
    journey: Journey<O::Door>,
) -> Result<Brought, Leave>
    requires place { vec_len own.now.outcomes < vec_capacity own.now.outcomes }
    requires count { CanCount (O.given outside.old) (O.failures outside.old) }
    ensures request { IfOk result (λ note.
        open_request journey.turn own.now.steps.items ≡ Some note.request) }
    ensures gives { IfOk result (λ note.
        O.gives outside.old number note.request note.outcome outside.new) }
    ensures given { O.given outside.new ≤ O.given outside.old + 1 }
    ensures failures { O.failures outside.new ≤ O.failures outside.old + 1 }
    ensures ahead { IsAhead O.gives (open_call own.now.steps.items) number outside.old outside.new }
{
    let Journey { turn, door, waits } = journey;
    let Some(request) = asked(turn, own.steps.as_slice())? else {
        // A machine sends no thread outside but with its call. It is under the lock, so this is not
        // known here.
        return Err(Leave::Memory);
    };
    let reached = reach(outside, i, number, &request, door, waits)?;
    let outcome = reached.outcome.try_clone()?;
    record(rt, shared, i, number, reached, &own.outcomes)?;
    Ok(Brought { request, outcome })
}

// The request of the call in which the steps end, that was granted at this turn.
fn asked(turn: Turn, steps: &[Noted]) -> Result<Option<Request>, AllocError>
    ensures { IfOk result (λ request. request ≡ open_request turn steps.now) }
{
    match open_call(steps) {
        Some(call) => request_for(turn, call),
        None => Ok(None),
    }
}
