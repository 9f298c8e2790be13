ghost use Rattle.std.specs.Prelude.{◌≡◌, ◌&&◌, not, length, IfOk, if◌then◌else◌};
ghost use Rattle.posix_terms.specs.declared.limits.TheConstants.Limits as limit;
ghost use Rattle.sequential_object.specs.Streams.{Reading, Ends, half_shut, new_half, stream_read};
ghost use Rattle.sequential_object.specs.Streams.{stream_write};
ghost use Rattle.pipes.specs.Pipe.{left_by_read, left_by_write, read_answer, write_answer};
ghost use Rattle.stream_sockets.specs.Pair.{read_into};

use pipes::{PipeAnswer, StreamBody};
use posix_terms::{Limits, ShutdownHow};
use std::alloc::{AllocError, Global};
use std::marker::Model;

// One socket: the bytes that wait for it, and what is shut there.
#[derive(Drop)]
pub struct HalfBody {
    waiting: StreamBody<{ Limits::PAIR_BYTES }>,
    reading_shut: bool,
    writing_shut: bool,
}

impl Model for HalfBody {
    ghost use Rattle.sequential_object.specs.Streams.{Half};

    ghost Value = { Half };

    ghost view = { λ h. record {
      waiting = h.waiting;
      reading_shut = h.reading_shut;
      writing_shut = h.writing_shut;
    } };
}

impl HalfBody {
    // Nothing waits and nothing is shut. It takes the room for all that it can hold.
    pub fn new(alloc: Global) -> Result<HalfBody, AllocError>
        ensures { IfOk result (λ half. half ≡ new_half) }
    {
        Ok(HalfBody {
            waiting: StreamBody::new(alloc)?,
            reading_shut: false,
            writing_shut: false,
        })
    }

    // Whether nothing more is written from this side.
    pub fn is_writing_shut(&self) -> bool
        ensures { result ≡ self.now.writing_shut }
    {
        self.writing_shut
    }

    // Reads into the head of `into`. `writer` says whether more may come.
    pub fn take(&mut self, into: &mut [u8], writer: bool) -> PipeAnswer
        ensures answer { result ≡ read_answer
            (if self.old.reading_shut then Ends else stream_read self.old.waiting (length into.old)
            writer) }
        ensures left { self.new ≡ record self.old {
          waiting =
              left_by_read self.old.waiting
              (if self.old.reading_shut then Ends else stream_read self.old.waiting (length into.old)
              writer);
        } }
        ensures bytes { into.new ≡ read_into self.old into.old }
    {
        if self.reading_shut {
            return PipeAnswer::End;
        }
        self.waiting.take(into, writer)
    }

    // Takes all of the bytes after those that wait, where they fit. `reaches` says whether the peer can write.
    pub fn put(&mut self, bytes: &[u8], reaches: bool) -> PipeAnswer
        ensures answer { result ≡ write_answer (length bytes.now)
            (stream_write limit.PAIR_BYTES self.old.waiting bytes.now
            (reaches && not self.old.reading_shut)) }
        ensures left { self.new ≡ record self.old {
          waiting =
              left_by_write self.old.waiting
              (stream_write limit.PAIR_BYTES self.old.waiting bytes.now
              (reaches && not self.old.reading_shut));
        } }
    {
        self.waiting.put(bytes, reaches && !self.reading_shut, true)
    }

    // Shuts reading, writing or both.
    pub fn shutdown(&mut self, how: ShutdownHow)
        ensures { self.new ≡ half_shut self.old how }
    {
        if how != ShutdownHow::Write {
            self.waiting.clear();
            self.reading_shut = true;
        }
        if how != ShutdownHow::Read {
            self.writing_shut = true;
        }
    }

    // Nothing waits and nothing is shut, as at first.
    pub fn clear(&mut self)
        ensures { self.new ≡ new_half }
    {
        self.waiting.clear();
        self.reading_shut = false;
        self.writing_shut = false;
    }
}
