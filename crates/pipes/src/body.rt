ghost use Rattle.std.specs.Prelude.{◌≡◌, [], ◌++◌, length, take, drop, IfOk};
ghost use Rattle.sequential_object.specs.Streams.{bytes_put, stream_put, stream_read};
ghost use Rattle.pipes.specs.Pipe.{left_by_read, left_by_write, read_answer, write_answer};

use circular_buffer::HeapCircularBuffer;
use posix_terms::Limits;
use std::alloc::{AllocError, Global};
use std::marker::Model;

/// How a read or a write of a stream goes.
#[derive(Clone, Copy, Debug, PartialEq, Eq)]
pub enum PipeAnswer {
    /// So many bytes were read.
    Data(usize),
    /// So many bytes were written.
    Count(usize),
    /// There are no bytes, and none will come.
    End,
    /// Nobody will read.
    Broken,
    /// It has to wait.
    Block,
}

/// The bytes that wait in a stream: at most `MOST`, all of whose room is taken when it is made. They stand
/// in a ring, so that a read moves none of those that it leaves. Contracts see the list of them.
#[derive(Drop)]
pub struct StreamBody<const MOST: usize> {
    bytes: HeapCircularBuffer<u8>,
}

/// The bytes that wait in a pipe.
pub type PipeBody = StreamBody<{ Limits::PIPE_BYTES }>;

impl<const MOST: usize> Model for StreamBody<MOST> {
    ghost use Rattle.std.specs.Prelude.{◌≡◌, ℕ, List};

    ghost Value = { List ℕ };

    ghost view = { λ s. s.bytes.items };

    ghost invariant = { λ s. s.bytes.capacity ≡ MOST };
}

impl<const MOST: usize> StreamBody<MOST> {
    /// An empty stream. It takes the room for all that it can hold.
    pub fn new(alloc: Global) -> Result<StreamBody<MOST>, AllocError>
        ensures { IfOk result (λ stream. stream ≡ []) }
    {
        Ok(StreamBody {
            bytes: HeapCircularBuffer::with_capacity(alloc, MOST)?,
        })
    }

    /// Reads into the head of `into`, as many bytes as are there and fit, the oldest first. Without bytes
    /// it ends where nobody writes any more, and otherwise blocks; then nothing changes.
    pub fn take(&mut self, into: &mut [u8], writers: bool) -> PipeAnswer
        ensures answer { result ≡ read_answer (stream_read self.old (length into.old) writers) }
        ensures left { self.new ≡ left_by_read self.old
            (stream_read self.old (length into.old) writers) }
        ensures bytes { into.new ≡ take (length into.old) self.old ++ drop (length self.old)
            into.old }
    {
        if self.bytes.is_empty() {
            return if writers {
                PipeAnswer::Block
            } else {
                PipeAnswer::End
            };
        }
        PipeAnswer::Data(self.bytes.read_into(into))
    }

    /// Writes after the bytes that wait: all of the bytes where the write is `whole`, and else the
    /// first of them, as many as fit; the count says how many went. Where nobody reads any more the
    /// stream is broken. Where a whole write does not fit, or another finds no room at all, it
    /// blocks. Then nothing changes.
    pub fn put(&mut self, bytes: &[u8], readers: bool, whole: bool) -> PipeAnswer
        ensures answer { result ≡ write_answer (length (bytes_put MOST self.old bytes.now whole))
            (stream_put MOST self.old bytes.now whole readers) }
        ensures left { self.new ≡ left_by_write self.old
            (stream_put MOST self.old bytes.now whole readers) }
    {
        if !readers {
            return PipeAnswer::Broken;
        }
        let least = if whole { bytes.len() } else { 1 };
        if least > MOST - self.bytes.len() {
            return PipeAnswer::Block;
        }
        PipeAnswer::Count(self.bytes.fill_from_slice(bytes))
    }

    /// Drops all bytes.
    pub fn clear(&mut self)
        ensures { self.new ≡ [] }
    {
        self.bytes.clear();
    }
}
