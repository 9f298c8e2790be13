ghost use Rattle.std.specs.Prelude.{◌≡◌, ◌<◌, [], get_or, length, map};
ghost use Rattle.lock_machine.specs.declared.thread.Thread as declared;

use crate::thread::Thread;
use posix_terms::Step;
use std::fmt;
use std::marker::Model;

/// The steps that each thread of a machine asked, when it is over. Contracts see the list of them, by thread.
#[derive(Drop)]
pub struct Asked {
    threads: Vec<Thread>,
}

impl Model for Asked {
    ghost use Rattle.std.specs.Prelude.{List, map};
    ghost use Rattle.posix_terms.specs.declared.step.Step.{Step};
    ghost use Rattle.lock_machine.specs.declared.thread.Thread as declared;

    ghost Value = { List (List Step) };

    ghost view = { λ a. map (λ (t : declared.Thread). t.asked) a.threads.items };
}

impl Asked {
    // Those of these threads. It takes no memory.
    pub(crate) fn new(threads: Vec<Thread>) -> Asked
        ensures { result ≡ map (λ (t : declared.Thread). t.asked) threads.items }
    {
        Asked { threads }
    }

    /// How many threads there are.
    pub fn len(&self) -> usize
        ensures { result ≡ length self.now }
    {
        self.threads.len()
    }

    /// The steps that thread i asked, in order.
    pub fn steps(&self, i: usize) -> &[Step]
        requires { i < length self.now }
        ensures { result.now ≡ get_or self.now i [] }
    {
        self.threads[i].asked.as_slice()
    }
}

impl fmt::Debug for Asked {
    fn fmt<W: fmt::Write>(&self, f: &mut fmt::Formatter<W>) -> fmt::Result {
        let mut list = f.debug_list();
        for thread in &self.threads {
            list.entry(&thread.asked);
        }
        list.finish()
    }
}
