ghost use Rattle.std.specs.Prelude.{◌≡◌, ◌<◌, ◌⊎◌, IfOk, OnOk, OnErr, option_copied};
ghost use Rattle.thread_scripts.specs.declared.actor.ScriptState.{ScriptState};

use crate::fault::Memory;
use crate::script::Script;
use crate::state::Replaced;
use posix_terms::{Bytes, Reply, Step};
use std::alloc::AllocError;
use std::marker::Model;

/// A script and how far it has come.
#[derive(Debug, Drop)]
pub struct ScriptState {
    pub script: Script,
    /// How many lines lie before the next one.
    pub place: usize,
    /// The registers `r0` to `r15`.
    pub numbers: [i64; 16],
    /// The registers `b0` to `b3`.
    pub bytes: [Bytes; 4],
    /// How many lines were executed.
    pub executed: usize,
}

/// What gives a thread's steps. Contracts see the script that it follows and how far it has come.
pub trait Actor {
    ghost use Rattle.thread_scripts.specs.Meaning.{lines_left, next_of};

    ghost state: { Self → ScriptState };

    /// The next step, given the reply to the last one if that was a call. Without memory for it
    /// the actor is as it was. Each step but the end leaves fewer lines to be executed.
    fn next(&mut self, last: Option<&Reply>) -> Result<Step, Memory>
        ensures step { IfOk result (λ step. step
            ≡ (next_of (option_copied last.entry) (state self.old)).0) }
        ensures after { OnOk result (state self.new
            ≡ (next_of (option_copied last.entry) (state self.old)).1) }
        ensures same { OnErr result (state self.new ≡ state self.old) }
        ensures script { (state self.new).script ≡ (state self.old).script }
        ensures ends { IfOk result (λ step. (step ≡ Step.End)
            ⊎ (lines_left (state self.new) < lines_left (state self.old))) };
}

/// An actor that follows a script. Contracts see the state of the script.
#[derive(Debug, Drop)]
pub struct ScriptActor {
    state: ScriptState,
}

impl Model for ScriptActor {
    ghost Value = { ScriptState };

    ghost view = { λ a. a.state };
}

impl ScriptActor {
    ghost use Rattle.thread_scripts.specs.Meaning.{lines_left, next_of, start_of};

    /// The actor before the script's first line. It takes no memory.
    pub fn new(script: Script) -> ScriptActor
        ensures { result ≡ start_of script }
    {
        ScriptActor {
            state: ScriptState::new(script),
        }
    }

    /// How many lines of the script lie before the next one. Empty lines and comments do not count.
    /// Once a call was given, and before the step after it, that is the number of the call's own
    /// line, from 1.
    pub fn place(&self) -> usize
        ensures { result ≡ self.now.place }
    {
        self.state.place
    }

    /// The next step, as [`Actor::next`] gives it, for a caller that gives
    /// up where there is no memory for it: the reply goes into
    /// the registers uncopied and nothing is saved, so the actor is of no more use then.
    #[tactic(auto, using(crate::proofs::Ending::next_ends, crate::proofs::Ending::next_script))]
    pub fn next_unsaved(&mut self, last: Option<Reply>) -> Result<Step, Memory>
        ensures step { IfOk result (λ step. step ≡ (next_of last self.old).0) }
        ensures after { OnOk result (self.new ≡ (next_of last self.old).1) }
        ensures script { OnOk result (self.new.script ≡ self.old.script) }
        ensures ends { IfOk result (λ step. (step ≡ Step.End)
            ⊎ (lines_left self.new < lines_left self.old)) }
    {
        let Ok(step) = self.state.advance(last, &mut Replaced::none()) else {
            return Err(Memory);
        };
        Ok(step)
    }
}

impl Actor for ScriptActor {
    ghost state = { λ a. a };

    #[tactic(auto, using(crate::proofs::Ending::next_ends, crate::proofs::Ending::next_script, crate::proofs::Replacing::none_is_replaced))]
    fn next(&mut self, last: Option<&Reply>) -> Result<Step, Memory> {
        let last = copied(last)?;
        let saved = self.state.save();
        let mut replaced = Replaced::none();
        match self.state.advance(last, &mut replaced) {
            Ok(step) => Ok(step),
            Err(_) => {
                self.state.restore(saved, replaced);
                Err(Memory)
            }
        }
    }
}

// A copy of the last reply, if there was one.
fn copied(last: Option<&Reply>) -> Result<Option<Reply>, AllocError>
    ensures { IfOk result (λ copy. copy ≡ option_copied last.entry) }
{
    match last {
        Some(reply) => Ok(Some(reply.try_clone()?)),
        None => Ok(None),
    }
}
