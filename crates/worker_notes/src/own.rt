ghost use Rattle.std.specs.Prelude.{◌≡◌, [], option_copied, false};
ghost use Rattle.worker_notes.specs.Plays.{call_in, last_reply, open_call, with_reply};

use posix_terms::{Call, Outcome, Reply, Request, Step};
use std::alloc::Global;

/// A step that the machine took, with its reply, if it was a call and one came.
#[derive(Debug, Drop)]
pub struct Noted {
    pub step: Step,
    pub reply: Option<Reply>,
}

/// A request that was made outside, with the outcome that the machine recorded.
#[derive(Debug, Drop)]
pub struct Brought {
    pub request: Request,
    pub outcome: Outcome,
}

/// What the worker of one thread noted itself, in order: the steps that the
/// machine took with their replies, and the outcomes that it recorded.
#[derive(Debug, Drop)]
pub struct Own {
    pub steps: Vec<Noted>,
    pub outcomes: Vec<Brought>,
    /// whether the machine took the actor's `End`
    pub ended: bool,
}

impl Own {
    /// No notes. It takes no memory.
    pub fn new(alloc: Global) -> Own
        ensures steps { result.steps.items ≡ [] }
        ensures outcomes { result.outcomes.items ≡ [] }
        ensures ended { result.ended ≡ false }
    {
        Own {
            steps: Vec::new(alloc),
            outcomes: Vec::new(alloc),
            ended: false,
        }
    }
}

/// The reply to the last step, if one came.
pub fn last_reply(steps: &[Noted]) -> Option<&Reply>
    ensures { option_copied result ≡ last_reply steps.now }
{
    match steps.last() {
        Some(noted) => noted.reply.as_ref(),
        None => None,
    }
}

/// The call in which the steps end, if the last of them is one that has no reply yet.
pub fn open_call(steps: &[Noted]) -> Option<&Call>
    ensures { option_copied result ≡ open_call steps.now }
{
    let last = steps.last()?;
    call_in(last)
}

// The call of a step that has no reply yet.
fn call_in(noted: &Noted) -> Option<&Call>
    ensures { option_copied result ≡ call_in noted.now.step noted.now.reply }
{
    match (&noted.step, &noted.reply) {
        (Step::Call(call), None) => Some(call),
        _ => None,
    }
}

/// The last step has this reply from now on; where there is no step nothing has.
#[tactic(auto, using(crate::proofs::Replying::reply_set))]
pub fn note_reply(steps: &mut Vec<Noted>, reply: Reply)
    ensures { steps.new.items ≡ with_reply reply steps.old.items }
{
    if !steps.is_empty() {
        let last = steps.len() - 1;
        steps[last].reply = Some(reply);
    }
}
