ghost use Rattle.std.specs.Prelude.{◌≡◌, ◌<◌, ◌≤◌, ◌+◌, ◌^◌, drop, length, Some, None};
ghost use Rattle.sequential_object.specs.Object.{Pair, Pipe};
ghost use Rattle.sequential_object.specs.Streams.{bytes_put, half_at, pair_read, pair_write};
ghost use Rattle.sequential_object.specs.Streams.{pipe_write, stream_read, with_waiting};
ghost use Rattle.sequential_object.specs.Acts.{moved_by};
ghost use Rattle.posix_terms.specs.Ends.{peer_of};
ghost use Rattle.posix_terms.specs.declared.limits.TheConstants.Limits as limit;
ghost use Rattle.posix_terms.specs.declared.object.End.TheVariants as part;
ghost use Rattle.file_descriptions.specs.Descriptions.{ContainsKey};
ghost use Rattle.pipes.specs.Pipe as pipes;
ghost use Rattle.pipes.specs.Pipe.{read_answer, write_answer};
ghost use Rattle.stream_sockets.specs.Pair.{left_by_read, left_by_write, read_into};
ghost use Rattle.sequential_object.specs.Acts.{blocked_after, has_read, has_written, write_acted};
ghost use Rattle.sequential_object.specs.Acts.{write_pipe};
ghost use Rattle.sequential_object.specs.declared.decision.Act.TheVariants as act;
ghost use Rattle.descriptor_table.specs.Table.{is_open};
ghost use Rattle.call_turns.specs.Acting.{Leaves, acts_at, ending_of_pipe, ending_of_read};
ghost use Rattle.call_turns.specs.Acting.{ending_of_write, held_by, holding, offset_of_key};
ghost use Rattle.call_turns.specs.Acting.{taken_by};
ghost use Rattle.call_turns.specs.Patience.{act_bytes, end_of};
ghost use Rattle.call_turns.specs.Store.{kept_at};

use crate::patience::stopped;
use crate::store::Store;
use pipes::PipeAnswer;
use posix_terms::{Bytes, Call, End, Errno, Limits, Moved, Reply, ShutdownHow, Side};
use sequential_object::{ActEnd, Seen};

// A read and a write, and what calls do with a pipe or a pair of sockets, whose lock they took.
impl Store {
    // POSIX.1-2017, `read`, of as many bytes as there is room for.
    pub(crate) fn read(&mut self, call: &Call, object: usize, from: Seen, into: Vec<u8>) -> ActEnd
        requires inside { object < limit.OBJECTS }
        requires known { ContainsKey self.old.table.descriptions from.key }
        ensures acts { Leaves (acts_at self.old object (act.Read from (length into.items)) call.now)
            self.old object (Some from.key) result self.new }
        ensures few { act_bytes result ≤ length into.items }
    {
        match from.end {
            End::Only => self.read_file(object, from, into),
            End::Read | End::Write => self.read_pipe(object, from, into),
            End::Socket(side) => self.read_pair(object, from, side, into),
            // A door is read outside.
            End::Door(_) => ActEnd::Reply(Reply::Done),
        }
    }

    fn read_pipe(&mut self, object: usize, from: Seen, into: Vec<u8>) -> ActEnd
        requires inside { object < limit.OBJECTS }
        ensures acts { Leaves (has_read from (λ left. Pipe left)
            (stream_read (kept_at self.old object).pipe (length into.items)
            (is_open self.old.table object part.Write)))
            self.old object (Some from.key) result self.new }
        ensures few { act_bytes result ≤ length into.items }
    {
        let mut bytes = into;
        let writers = self.is_open(object, End::Write);
        let answer = self.bodies[object].pipe.take(bytes.as_mut_slice(), writers);
        read_ending(answer, bytes, from.nonblock)
    }

    fn read_pair(&mut self, object: usize, from: Seen, side: Side, into: Vec<u8>) -> ActEnd
        requires inside { object < limit.OBJECTS }
        ensures acts { let pair = (kept_at self.old object).pair in
            Leaves (has_read from (λ left. Pair (with_waiting pair side left))
            (pair_read pair side (length into.items)
            (is_open self.old.table object (part.Socket (peer_of side)))))
            self.old object (Some from.key) result self.new }
        ensures few { act_bytes result ≤ length into.items }
    {
        // What holds of every store holds of this one: each number has its body.
        let _ = &self.bodies;
        let mut bytes = into;
        let peer_open = self.is_open(object, End::Socket(side.peer()));
        let answer = self.take_pair(object, side, bytes.as_mut_slice(), peer_open);
        read_ending(answer, bytes, from.nonblock)
    }

    // POSIX.1-2017, `write`, of which so many bytes went before.
    pub(crate) fn write(&mut self, object: usize, to: Seen, bytes: &[u8], before: u64) -> ActEnd
        requires inside { object < limit.OBJECTS }
        requires known { ContainsKey self.old.table.descriptions to.key }
        ensures acts { Leaves (write_acted (is_open self.old.table object) to bytes.now before
            (held_by to.«end» (kept_at self.old object)) (offset_of_key self.old to.key))
            self.old object (Some to.key) result self.new }
        ensures few { act_bytes result ≡ 0 }
    {
        match to.end {
            End::Only => self.write_file(object, to, bytes),
            End::Read | End::Write => self.write_pipe(object, to, bytes, before),
            End::Socket(side) => self.write_pair(object, to, side, bytes),
            // A door is written outside.
            End::Door(_) => ActEnd::Reply(Reply::Done),
        }
    }

    // A turn of a write of a pipe, of which so many bytes went before. Of at most `PIPE_BUF` bytes
    // it is whole.
    fn write_pipe(&mut self, object: usize, to: Seen, bytes: &[u8], before: u64) -> ActEnd
        requires inside { object < limit.OBJECTS }
        ensures acts { Leaves (write_pipe to bytes.now before (kept_at self.old object).pipe
            (is_open self.old.table object part.Read))
            self.old object (Some to.key) result self.new }
        ensures few { act_bytes result ≡ 0 }
    {
        // What holds of every store holds of this one: each number has its body.
        let _ = &self.bodies;
        let readers = self.is_open(object, End::Read);
        let rest = rest_of(bytes, before);
        let whole = bytes.len() <= Limits::PIPE_BUF;
        let answer = self.put_pipe(object, rest, readers, whole);
        pipe_ending(to, bytes.len() as u64, before, answer)
    }

    fn put_pipe(&mut self, object: usize, bytes: &[u8], readers: bool, whole: bool) -> PipeAnswer
        requires inside { object < limit.OBJECTS }
        ensures answer { result ≡ write_answer
            (length (bytes_put limit.PIPE_BYTES (kept_at self.old object).pipe bytes.now whole))
            (pipe_write (kept_at self.old object).pipe bytes.now whole readers) }
        ensures left { self.new ≡ holding self.old object (Pipe (pipes.left_by_write
            (kept_at self.old object).pipe
            (pipe_write (kept_at self.old object).pipe bytes.now whole readers))) }
    {
        self.bodies[object].pipe.put(bytes, readers, whole)
    }

    fn write_pair(&mut self, object: usize, to: Seen, side: Side, bytes: &[u8]) -> ActEnd
        requires inside { object < limit.OBJECTS }
        ensures acts { let pair = (kept_at self.old object).pair in
            Leaves (has_written to (λ left. Pair (with_waiting pair (peer_of side) left))
            (length bytes.now)
            (pair_write pair side bytes.now
            (is_open self.old.table object (part.Socket (peer_of side)))))
            self.old object (Some to.key) result self.new }
        ensures few { act_bytes result ≡ 0 }
    {
        // What holds of every store holds of this one: each number has its body.
        let _ = &self.bodies;
        let peer_open = self.is_open(object, End::Socket(side.peer()));
        let answer = self.put_pair(object, side, bytes, peer_open);
        write_ending(answer, to.nonblock)
    }

    fn take_pair(
        &mut self,
        object: usize,
        side: Side,
        into: &mut [u8],
        peer_open: bool,
    ) -> PipeAnswer
        requires inside { object < limit.OBJECTS }
        ensures answer { result ≡ read_answer
            (pair_read (kept_at self.old object).pair side (length into.old) peer_open) }
        ensures left { self.new ≡ holding self.old object
            (Pair (left_by_read (kept_at self.old object).pair side
            (pair_read (kept_at self.old object).pair side (length into.old) peer_open))) }
        ensures bytes { into.new ≡ read_into
            (half_at (kept_at self.old object).pair side) into.old }
    {
        self.bodies[object].pair.take(side, into, peer_open)
    }

    fn put_pair(&mut self, object: usize, side: Side, bytes: &[u8], peer_open: bool) -> PipeAnswer
        requires inside { object < limit.OBJECTS }
        ensures answer { result ≡ write_answer (length bytes.now)
            (pair_write (kept_at self.old object).pair side bytes.now peer_open) }
        ensures left { self.new ≡ holding self.old object
            (Pair (left_by_write (kept_at self.old object).pair side
            (pair_write (kept_at self.old object).pair side bytes.now peer_open))) }
    {
        self.bodies[object].pair.put(side, bytes, peer_open)
    }

    // Whether a description has this end of an object.
    fn is_open(&self, object: usize, end: End) -> bool
        ensures { result ≡ is_open self.now.table object «end» }
    {
        let (first, second) = self.table.ends(object);
        if end.is_first() {
            first > 0
        } else {
            second > 0
        }
    }

    // POSIX.1-2017, `shutdown`.
    pub(crate) fn shutdown(
        &mut self,
        call: &Call,
        object: usize,
        side: Side,
        how: ShutdownHow,
    ) -> ActEnd
        requires inside { object < limit.OBJECTS }
        ensures acts { Leaves (acts_at self.old object (act.Shutdown side how) call.now)
            self.old object None result self.new }
        ensures few { act_bytes result ≡ 0 }
    {
        self.bodies[object].pair.shutdown(side, how);
        ActEnd::Reply(Reply::Done)
    }
}

// The end of a read that was answered so.
fn read_ending(answer: PipeAnswer, bytes: Vec<u8>, nonblock: bool) -> ActEnd
    ensures shown { result ≡ ending_of_read answer bytes.items nonblock }
    ensures few { act_bytes result ≤ length bytes.items }
{
    let mut bytes = bytes;
    match answer {
        PipeAnswer::Data(count) => {
            bytes.truncate(count);
            ActEnd::Reply(Reply::Data(Bytes::from_vec(bytes)))
        }
        PipeAnswer::End => {
            bytes.truncate(0);
            ActEnd::Reply(Reply::Data(Bytes::from_vec(bytes)))
        }
        PipeAnswer::Count(_) | PipeAnswer::Broken | PipeAnswer::Block => stopped(nonblock),
    }
}

// The end of a write that was answered so.
fn write_ending(answer: PipeAnswer, nonblock: bool) -> ActEnd
    ensures shown { result ≡ ending_of_write answer nonblock }
    ensures few { act_bytes result ≡ 0 }
{
    match answer {
        PipeAnswer::Count(count) => ActEnd::Reply(Reply::Count(count as u64)),
        PipeAnswer::Broken => ActEnd::Reply(Reply::Fail(Errno::EPIPE)),
        PipeAnswer::Data(_) | PipeAnswer::End | PipeAnswer::Block => stopped(nonblock),
    }
}

// What is left of bytes of which so many went before.
fn rest_of(bytes: &[u8], before: u64) -> &[u8]
    ensures { result.now ≡ drop before bytes.now }
{
    &bytes[bytes.len().min(before as usize)..]
}

// The end of a write of a pipe, of so many bytes in all, that was answered so.
fn pipe_ending(to: Seen, all: u64, before: u64, answer: PipeAnswer) -> ActEnd
    requires { before + taken_by answer < 2 ^ 64 }
    ensures shown { result ≡ ending_of_pipe to all before answer }
    ensures few { act_bytes result ≡ 0 }
{
    match answer {
        PipeAnswer::Count(now) => {
            let total = before + now as u64;
            if all <= total {
                return ActEnd::Reply(Reply::Count(total));
            }
            blocked_after(to, total)
        }
        PipeAnswer::Broken if before == 0 => ActEnd::Reply(Reply::Fail(Errno::EPIPE)),
        PipeAnswer::Broken => ActEnd::Reply(Reply::Count(before)),
        _ if before == 0 => stopped(to.nonblock),
        _ => blocked_after(to, before),
    }
}

// A write of a pipe that cannot go on after so many bytes waits, or ends where its description is
// not to block.
fn blocked_after(to: Seen, total: u64) -> ActEnd
    ensures ends { result ≡ end_of (blocked_after to total) }
    ensures few { act_bytes result ≡ 0 }
{
    if to.nonblock {
        return ActEnd::Reply(Reply::Count(total));
    }
    ActEnd::Waits(moved_by(to.birth, total))
}

// So many bytes moved so far, the first of them by the description of this birth.
fn moved_by(birth: u128, bytes: u64) -> Moved
    ensures { result ≡ moved_by birth bytes }
{
    if bytes == 0 {
        return Moved::NOTHING;
    }
    Moved {
        bytes,
        from: Some(birth),
    }
}
