ghost use Rattle.std.specs.Prelude.{◌≡◌, ◌↔◌, IfOk, IsTrue, false, map, slice_index_or};
ghost use Rattle.explorer.specs.Observations.{has_ended};

use call_machine::Asked;
use posix_terms::Step;
use std::alloc::{AllocError, Global};
use std::marker::Model;

/// Which threads of a run had ended when it was over. Contracts see a list: of each thread, whether
/// it had.
#[derive(Debug, Drop)]
pub struct EndedThreads {
    threads: Vec<bool>,
}

impl Model for EndedThreads {
    ghost use Rattle.std.specs.Prelude.{Bool, List};

    ghost Value = { List Bool };

    ghost view = { λ e. e.threads.items };
}

impl EndedThreads {
    // Those of threads that asked these steps.
    pub(crate) fn new(alloc: Global, asked: &Asked) -> Result<EndedThreads, AllocError>
        ensures { IfOk result (λ ended. ended ≡ map has_ended asked.now) }
    {
        let mut threads = Vec::with_capacity(alloc, asked.len())?;
        for thread in 0..asked.len() {
            threads.push(matches!(asked.steps(thread).last(), Some(Step::End)))?;
        }
        Ok(EndedThreads { threads })
    }

    /// Of each thread, whether it had.
    pub fn as_slice(&self) -> &[bool]
        ensures { result.now ≡ self.now }
    {
        self.threads.as_slice()
    }

    /// Whether this thread had. Where there is no such thread, it had not.
    pub fn has(&self, thread: usize) -> bool
        ensures { result ≡ slice_index_or self.now thread false }
    {
        self.threads.get(thread).copied().unwrap_or(false)
    }

    // Whether the same threads had.
    pub(crate) fn is_same(&self, other: &EndedThreads) -> bool
        ensures { IsTrue result ↔ (self.now ≡ other.now) }
    {
        self.threads.as_slice() == other.threads.as_slice()
    }
}
