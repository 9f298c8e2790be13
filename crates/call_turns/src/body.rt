ghost use Rattle.std.specs.Prelude.{◌≡◌, IfOk};
ghost use Rattle.call_turns.specs.Bodies.{Kept, first_kept};

use memory_files::FileBody;
use pipes::PipeBody;
use std::alloc::{AllocError, Global};
use std::marker::Model;
use stream_sockets::PairBody;

// The room under one object number, for whichever kind of object has it.
#[derive(Drop)]
pub struct Body {
    pub file: FileBody,
    pub pipe: PipeBody,
    pub pair: PairBody,
}

impl Model for Body {
    ghost use Rattle.call_turns.specs.Bodies.{Kept};

    ghost Value = { Kept };

    ghost view = { λ b. record { file = b.file; pipe = b.pipe; pair = b.pair } };
}

impl Body {
    // Nothing is in any of them. It takes all the room that they ever need.
    pub fn new(alloc: Global) -> Result<Body, AllocError>
        ensures { IfOk result (λ body. body ≡ first_kept) }
    {
        Ok(Body {
            file: FileBody::new(alloc)?,
            pipe: PipeBody::new(alloc)?,
            pair: PairBody::new(alloc)?,
        })
    }

    // Nothing is in any of them, as at first.
    pub fn clear(&mut self)
        ensures { self.new ≡ first_kept }
    {
        self.file.clear();
        self.pipe.clear();
        self.pair.clear();
    }
}
