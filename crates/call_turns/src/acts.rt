ghost use Rattle.std.specs.Prelude.{◌≡◌, ◌≤◌, ◌<◌, ◌==◌, ◌+ℤ◌, pos, length, false, IfOk};
ghost use Rattle.std.specs.Prelude.{◌-◌, Some, None};
ghost use Rattle.sequential_object.specs.Files.{bytes_at, resized, written};
ghost use Rattle.sequential_object.specs.Acts.{base_of, offset_of};
ghost use Rattle.posix_terms.specs.declared.limits.TheConstants.Limits as limit;
ghost use Rattle.posix_terms.specs.declared.reply.ObjectKind.TheVariants.{File};
ghost use Rattle.posix_terms.specs.declared.reply.Reply.TheVariants.{Data, Done, Stat};
ghost use Rattle.file_descriptions.specs.Descriptions.{ContainsKey};
ghost use Rattle.sequential_object.specs.Acts.{read_file, released_reply, sought, write_at};
ghost use Rattle.sequential_object.specs.Acts.{write_file};
ghost use Rattle.sequential_object.specs.declared.decision.Act.TheVariants as act;
ghost use Rattle.call_turns.specs.Acting.{Leaves, acts_at, cut_to, offset_of_key};
ghost use Rattle.call_turns.specs.Patience.{act_bytes};
ghost use Rattle.call_turns.specs.Store.{body_at};

use crate::store::Store;
use memory_files::FileBody;
use posix_terms::{Bytes, Call, Errno, ObjectKind, Reply, Whence};
use sequential_object::{ActEnd, Seen};

// What calls do with the file whose lock they took.
impl Store {
    // POSIX.1-2017, `read` of a file, as many bytes as there is room for.
    pub(crate) fn read_file(&mut self, object: usize, from: Seen, into: Vec<u8>) -> ActEnd
        requires inside { object < limit.OBJECTS }
        requires known { ContainsKey self.old.table.descriptions from.key }
        ensures acts { Leaves (read_file (body_at self.old object) (offset_of_key self.old from.key)
            (length into.items)) self.old object (Some from.key) result self.new }
        ensures few { act_bytes result ≤ length into.items }
    {
        let offset = self.table.offset(from.key);
        let bytes = file_bytes(&self.bodies[object].file, offset, into);
        self.table
            .set_offset(from.key, offset + bytes.as_slice().len() as u64);
        ActEnd::Reply(Reply::Data(bytes))
    }

    // POSIX.1-2017, `pread`, of as many bytes as there is room for.
    pub(crate) fn pread(&self, object: usize, position: u64, into: Vec<u8>) -> Reply
        requires { object < limit.OBJECTS }
        ensures { result ≡ Data (bytes_at (body_at self.now object) position (length into.items)) }
    {
        Reply::Data(file_bytes(&self.bodies[object].file, position, into))
    }

    // POSIX.1-2017, `write` to a file, which of no bytes does nothing.
    pub(crate) fn write_file(&mut self, object: usize, to: Seen, bytes: &[u8]) -> ActEnd
        requires inside { object < limit.OBJECTS }
        requires known { ContainsKey self.old.table.descriptions to.key }
        ensures acts { Leaves (write_file to bytes.now (body_at self.old object)
            (offset_of_key self.old to.key)) self.old object (Some to.key) result self.new }
        ensures few { act_bytes result ≡ 0 }
    {
        if bytes.is_empty() {
            return ActEnd::Reply(Reply::Count(0));
        }
        let start = if to.append {
            self.bodies[object].file.len()
        } else {
            self.table.offset(to.key)
        };
        match self.bodies[object].file.write_at(start, bytes) {
            Ok(count) => {
                self.table.set_offset(to.key, start + count as u64);
                ActEnd::Reply(Reply::Count(count as u64))
            }
            Err(error) => ActEnd::Reply(Reply::Fail(error)),
        }
    }

    // POSIX.1-2017, `pwrite`.
    pub(crate) fn pwrite(&mut self, object: usize, position: u64, bytes: &[u8]) -> ActEnd
        requires inside { object < limit.OBJECTS }
        ensures acts { Leaves (write_at bytes.now (body_at self.old object) position)
            self.old object None result self.new }
        ensures few { act_bytes result ≡ 0 }
    {
        if bytes.is_empty() {
            return ActEnd::Reply(Reply::Count(0));
        }
        match self.bodies[object].file.write_at(position, bytes) {
            Ok(count) => ActEnd::Reply(Reply::Count(count as u64)),
            Err(error) => ActEnd::Reply(Reply::Fail(error)),
        }
    }

    // POSIX.1-2017, `lseek`.
    pub(crate) fn lseek(&mut self, object: usize, at: Seen, offset: i64, whence: Whence) -> ActEnd
        requires inside { object < limit.OBJECTS }
        requires known { ContainsKey self.old.table.descriptions at.key }
        ensures acts { Leaves (sought (offset_of
            (pos (base_of whence (offset_of_key self.old at.key) (length (body_at self.old object)))
            +ℤ offset))) self.old object (Some at.key) result self.new }
        ensures few { act_bytes result ≡ 0 }
    {
        let base = match whence {
            Whence::Set => 0,
            Whence::Current => self.table.offset(at.key),
            Whence::End => self.bodies[object].file.len(),
        };
        match sought(base, offset) {
            Ok(to) => {
                self.table.set_offset(at.key, to);
                ActEnd::Reply(Reply::Number(to as i64))
            }
            Err(error) => ActEnd::Reply(Reply::Fail(error)),
        }
    }

    // POSIX.1-2017, `ftruncate`.
    pub(crate) fn ftruncate(&mut self, call: &Call, object: usize, size: usize) -> ActEnd
        requires inside { object < limit.OBJECTS }
        requires fits { size ≤ limit.FILE_BYTES }
        ensures acts { Leaves (acts_at self.old object (act.Ftruncate size) call.now)
            self.old object None result self.new }
        ensures few { act_bytes result ≡ 0 }
    {
        self.bodies[object].file.set_len(size as u64);
        ActEnd::Reply(Reply::Done)
    }

    // POSIX.1-2017, `fstat`, of a file with this many names.
    pub(crate) fn fstat(&self, object: usize, links: usize) -> Reply
        requires { object < limit.OBJECTS }
        ensures { result ≡ Stat File (length (body_at self.now object)) links }
    {
        Reply::Stat {
            kind: ObjectKind::File,
            number: self.bodies[object].file.len(),
            links: links as u64,
        }
    }

    // Leaves a file without bytes, if it is to be cut.
    pub(crate) fn cut(&mut self, object: usize, cut: bool)
        requires { object < limit.OBJECTS }
        ensures { self.new ≡ cut_to self.old object cut }
    {
        if cut {
            self.bodies[object].file.clear();
        }
    }
}

// The reply of a call that lets an object go.
pub(crate) fn released_reply(call: &Call) -> Reply
    ensures { result ≡ released_reply call.now }
{
    match call {
        Call::Dup2 { target, .. } => Reply::Number(*target),
        _ => Reply::Done,
    }
}

// A copy of the bytes of a file from a position on, as many as there is room for.
fn file_bytes(body: &FileBody, position: u64, into: Vec<u8>) -> Bytes
    ensures bytes { result ≡ bytes_at body.now position (length into.items) }
    ensures within_limit { length result ≤ 65536 - position }
{
    let mut bytes = into;
    let read = body.read_at(position, bytes.as_mut_slice());
    bytes.truncate(read);
    Bytes::from_vec(bytes)
}

// An offset counted from a base.
fn sought(base: u64, offset: i64) -> Result<u64, Errno>
    ensures value { result ≡ offset_of (pos base +ℤ offset) }
    ensures within { IfOk result (λ to. to < 9223372036854775808) }
{
    let to = i128::from(base) + i128::from(offset);
    if to < 0 {
        return Err(Errno::EINVAL);
    }
    if to > i128::from(i64::MAX) {
        return Err(Errno::EOVERFLOW);
    }
    Ok(to as u64)
}
