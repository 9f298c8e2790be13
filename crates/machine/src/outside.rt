ghost use Rattle.std.specs.Prelude.{◌≡◌, ◌<◌, true, IfOk, OnErr, is_some, length};
ghost use Rattle.lock_machine.specs.Refusals.{phase_at};
ghost use Rattle.call_turns.specs.Doors.{brings_back, is_ok};
ghost use Rattle.machine.specs.Doors.{exactly_where, is_answer, is_answer_to, opens_door};
ghost use Rattle.machine.specs.Requests.{IsOutsideTurn, IsRequest, awaited, out_of};

use crate::machine::Machine;
use descriptor_table::Errand;
use input_log::LogSink;
use lock_machine::{Outing, Phase};
use posix_terms::{OutKind, Outcome, Request, Turn};
use std::alloc::AllocError;

// What a driver asks before it goes outside, and when it comes back.
impl<S: LogSink, D: Drop> Machine<S, D> {
    /// A copy of what thread i asks outside, if it is about to go there, or is
    /// there. It is for the driver, which makes the request while
    /// others make their events; so [`Machine::begin_outside`] need not copy the call.
    pub fn request(&self, i: usize) -> Result<Option<Request>, AllocError>
        requires { i < length self.now.whole.threads }
        ensures request { IfOk result (λ request. IsRequest self.now.whole i request) }
        ensures memory { OnErr result (is_some (out_of (phase_at self.now.whole i)) ≡ true) }
    {
        let Some(outing) = out_of(self.calls.phase(i)) else {
            return Ok(None);
        };
        let row = &self.calls.rows()[outing.row];
        Ok(Some(Request {
            kind: outing.errand.kind,
            asked: outing.errand.asked,
            call: row.call().try_clone()?,
            turn: row.turn(),
        }))
    }

    /// The turn at which the call was granted with which thread i goes outside, or is there: what
    /// [`Machine::request`] has of it, without a copy of the call.
    pub fn outside_turn(&self, i: usize) -> Option<Turn>
        requires { i < length self.now.whole.threads }
        ensures { IsOutsideTurn self.now.whole i result }
    {
        let outing = out_of(self.calls.phase(i))?;
        Some(self.calls.rows()[outing.row].turn())
    }

    /// What thread i asked outside, if it is there: its kind and how much.
    pub fn awaited(&self, i: usize) -> Option<Errand>
        requires { i < length self.now.whole.threads }
        ensures { result ≡ awaited (phase_at self.now.whole i) }
    {
        match self.calls.phase(i) {
            Phase::Outside(outing) => Some(outing.errand),
            _ => None,
        }
    }

    /// Whether [`Machine::record`] takes this outcome for thread i, with the door
    /// that went out (`back`) and with one that was opened. Of a
    /// thread that is not outside it takes any, and refuses it.
    pub fn takes(&self, i: usize, outcome: &Outcome, back: bool, opened: bool) -> bool
        requires { i < length self.now.whole.threads }
        ensures { result ≡ is_answer (phase_at self.now.whole i) outcome.now back opened }
    {
        match self.awaited(i) {
            Some(errand) => is_answer_to(errand, outcome, back, opened),
            None => true,
        }
    }
}

// The call with which a thread goes outside, or is outside.
fn out_of(phase: &Phase) -> Option<Outing>
    ensures { result ≡ out_of phase.now }
{
    match phase {
        Phase::ToOutside(outing) | Phase::Outside(outing) => Some(*outing),
        _ => None,
    }
}

fn is_answer_to(errand: Errand, outcome: &Outcome, back: bool, opened: bool) -> bool
    ensures { result ≡ is_answer_to errand outcome.now back opened }
{
    outcome.fits(errand.kind, errand.asked)
        && (exactly_where(back, brings_back(errand.kind))
            && exactly_where(opened, opens_door(errand.kind) && is_ok(outcome)))
}

fn exactly_where(one: bool, other: bool) -> bool
    ensures { result ≡ exactly_where one other }
{
    if one { other } else { !other }
}

fn brings_back(kind: OutKind) -> bool
    ensures { result ≡ brings_back kind }
{
    matches!(
        kind,
        OutKind::Read | OutKind::Write | OutKind::Seek | OutKind::Shutdown | OutKind::Accept
    )
}

fn opens_door(kind: OutKind) -> bool
    ensures { result ≡ opens_door kind }
{
    matches!(
        kind,
        OutKind::Open | OutKind::Listen | OutKind::Connect | OutKind::Accept
    )
}

fn is_ok(outcome: &Outcome) -> bool
    ensures { result ≡ is_ok outcome.now }
{
    matches!(outcome, Outcome::Ok { .. })
}
