ghost use Rattle.std.specs.Prelude.{◌≡◌, length, IfOk};
ghost use Rattle.sequential_object.specs.Streams.{half_at, new_pair, pair_read, pair_write, shut};
ghost use Rattle.pipes.specs.Pipe.{read_answer, write_answer};
ghost use Rattle.stream_sockets.specs.Pair.{left_by_read, left_by_write, read_into};

use crate::half::HalfBody;
use pipes::PipeAnswer;
use posix_terms::{ShutdownHow, Side};
use std::alloc::{AllocError, Global};
use std::marker::Model;

/// The bytes that wait in both directions of a socket pair, each at most `Limits::PAIR_BYTES`, all of
/// whose room is taken when it is made, and what is shut at each side. Contracts see both sides.
#[derive(Drop)]
pub struct PairBody {
    side0: HalfBody,
    side1: HalfBody,
}

impl Model for PairBody {
    ghost use Rattle.sequential_object.specs.Streams.{PairState};

    ghost Value = { PairState };

    ghost view = { λ p. record { side0 = p.side0; side1 = p.side1 } };
}

impl PairBody {
    /// A pair in which nothing waits and nothing is shut. It takes the room for all that it can hold.
    pub fn new(alloc: Global) -> Result<PairBody, AllocError>
        ensures { IfOk result (λ pair. pair ≡ new_pair) }
    {
        Ok(PairBody {
            side0: HalfBody::new(alloc)?,
            side1: HalfBody::new(alloc)?,
        })
    }

    /// Reads at a side into the head of `into`, as many bytes as wait there and fit, the oldest first. It
    /// ends where reading is shut there, and where nothing waits and the peer has shut writing or is
    /// closed; where nothing waits otherwise it blocks. Then nothing changes.
    pub fn take(&mut self, side: Side, into: &mut [u8], peer_open: bool) -> PipeAnswer
        ensures reply { result ≡ read_answer (pair_read self.old side (length into.old) peer_open) }
        ensures left { self.new ≡ left_by_read self.old side
            (pair_read self.old side (length into.old) peer_open) }
        ensures bytes { into.new ≡ read_into (half_at self.old side) into.old }
    {
        match side {
            Side::Side0 => {
                let writer = peer_open && !self.side1.is_writing_shut();
                self.side0.take(into, writer)
            }
            Side::Side1 => {
                let writer = peer_open && !self.side0.is_writing_shut();
                self.side1.take(into, writer)
            }
        }
    }

    /// Writes all of the bytes at a side, for the peer to read, where they fit. It is broken where writing
    /// is shut there, where the peer is closed, and where the peer has shut reading; where they do not fit
    /// it blocks. Then nothing changes.
    pub fn put(&mut self, side: Side, bytes: &[u8], peer_open: bool) -> PipeAnswer
        ensures answer { result ≡ write_answer (length bytes.now)
            (pair_write self.old side bytes.now peer_open) }
        ensures left { self.new ≡ left_by_write self.old side
            (pair_write self.old side bytes.now peer_open) }
    {
        match side {
            Side::Side0 => {
                let reaches = peer_open && !self.side0.is_writing_shut();
                self.side1.put(bytes, reaches)
            }
            Side::Side1 => {
                let reaches = peer_open && !self.side1.is_writing_shut();
                self.side0.put(bytes, reaches)
            }
        }
    }

    /// Shuts reading, writing or both at a side. The bytes that wait where reading is shut are dropped.
    pub fn shutdown(&mut self, side: Side, how: ShutdownHow)
        ensures { self.new ≡ shut self.old side how }
    {
        match side {
            Side::Side0 => self.side0.shutdown(how),
            Side::Side1 => self.side1.shutdown(how),
        }
    }

    /// Nothing waits and nothing is shut, as at first.
    pub fn clear(&mut self)
        ensures { self.new ≡ new_pair }
    {
        self.side0.clear();
        self.side1.clear();
    }
}
