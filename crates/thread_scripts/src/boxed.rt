ghost use Rattle.thread_scripts.specs.declared.actor.ScriptState.{ScriptState};

use crate::actor::Actor;
use crate::fault::Memory;
use posix_terms::{Reply, Step};

/// An actor of any type, in a box: so actors of several types stand in one list, and each runs in a
/// thread of its own.
pub type BoxedActor = Box<dyn Actor + Send + Drop>;

impl Actor for BoxedActor {
    ghost state = { λ b. (Actor-box b).state b.value };

    fn next(&mut self, last: Option<&Reply>) -> Result<Step, Memory> {
        (**self).next(last)
    }
}
