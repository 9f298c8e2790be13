ghost use Rattle.std.specs.Prelude.{◌≡◌, ◌∷◌, [], ◌++◌, false, IfOk, OnOk, OnErr};
ghost use Rattle.lock_model.specs.Held.{has_end};
ghost use Rattle.posix_terms.specs.declared.step.Step.TheVariants as step;

use crate::growth::make_room;
use posix_terms::Step;
use std::alloc::{AllocError, Global};
use std::marker::Model;

/// The steps that one thread asked, in order. There is room for its end,
/// until that is asked. Contracts see the list of them.
#[derive(Debug, Drop)]
pub struct Steps {
    list: Vec<Step>,
}

impl Model for Steps {
    ghost use Rattle.std.specs.Prelude.{◌≡◌, ◌<◌, List, false, vec_capacity, vec_len};
    ghost use Rattle.lock_model.specs.Held.{has_end};
    ghost use Rattle.posix_terms.specs.declared.step.Step.{Step};

    ghost Value = { List Step };

    ghost view = { λ s. s.list.items };

    ghost invariant = { λ s. has_end s.list.items ≡ false → vec_len s.list < vec_capacity s.list };
}

impl Steps {
    // The steps of a thread that asked none so far.
    pub(crate) fn new(alloc: Global) -> Result<Steps, AllocError>
        ensures { IfOk result (λ steps. steps ≡ []) }
    {
        Ok(Steps {
            list: Vec::with_capacity(alloc, 1)?,
        })
    }

    // Adds a step at the end, and keeps room for the end; without memory for both the steps are as they were.
    #[inline(always)]
    pub(crate) fn push(&mut self, step: Step) -> Result<(), AllocError>
        ensures ok { OnOk result (self.new ≡ self.old ++ step ∷ []) }
        ensures err { OnErr result (self.new ≡ self.old) }
    {
        make_room(&mut self.list, 2)?;
        self.list.push_reserved(step);
        Ok(())
    }

    // Whether the end was asked last.
    pub(crate) fn has_end(&self) -> bool
        ensures { result ≡ has_end self.now }
    {
        matches!(self.list.as_slice().last(), Some(Step::End))
    }

    // Adds the end. It takes no memory.
    pub(crate) fn push_end(&mut self)
        requires { has_end self.old ≡ false }
        ensures { self.new ≡ self.old ++ step.End ∷ [] }
    {
        self.list.push_reserved(Step::End);
    }

    /// The steps, in order.
    pub fn as_slice(&self) -> &[Step]
        ensures { result.now ≡ self.now }
    {
        self.list.as_slice()
    }
}
