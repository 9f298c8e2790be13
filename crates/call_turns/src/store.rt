ghost use Rattle.std.specs.Prelude.{◌≡◌, ◌+◌, ◌<◌, ◌≤◌, ◌^◌, length, pos, [], IfOk, Some, None};
ghost use Rattle.std.specs.Prelude.{replicate};
ghost use Rattle.posix_terms.specs.declared.limits.TheConstants.Limits as limit;
ghost use Rattle.sequential_object.specs.Locked.{keeps_table};
ghost use Rattle.sequential_object.specs.Object.{File, Pair, Pipe};
ghost use Rattle.sequential_object.specs.Streams.{new_pair};
ghost use Rattle.sequential_object.specs.declared.turn_end.ActEnd.TheVariants as act_end;
ghost use Rattle.posix_terms.specs.declared.reply.Reply.TheVariants as reply;
ghost use Rattle.file_descriptions.specs.Descriptions.{ContainsKey};
ghost use Rattle.sequential_object.specs.Bytes.{read_count};
ghost use Rattle.sequential_object.specs.Meant.{key_of};
ghost use Rattle.sequential_object.specs.So.{Can, CanDo};
ghost use Rattle.sequential_object.specs.declared.decision.Deed.TheVariants as deed;
ghost use Rattle.sequential_object.specs.declared.decision.Act.TheVariants as act;
ghost use Rattle.descriptor_table.specs.Doors.{GoneWithLast, HaveOne};
ghost use Rattle.descriptor_table.specs.Laws.{TableFollows};
ghost use Rattle.descriptor_table.specs.View.{view};
ghost use Rattle.call_turns.specs.Acting.{IsInside, IsReady, Leaves, StandsChanged, acts_at};
ghost use Rattle.call_turns.specs.Acting.{cleared, emptied};
ghost use Rattle.call_turns.specs.Bodies.{first_kept};
ghost use Rattle.call_turns.specs.Doors.{KeepsDoors, MovesDoors};
ghost use Rattle.call_turns.specs.Patience.{act_bytes};
ghost use Rattle.call_turns.specs.Store.{ComesTo, EndsTurn, IsDecided, KeepsStore, Performs};
ghost use Rattle.call_turns.specs.Store.{UsesRoom, first_stored};

use crate::acts::released_reply;
use crate::body::Body;
use crate::patience::{AtTable, Locking, TurnStart, blocked};
use descriptor_table::{Table, errand_of, table_follows_step};
use posix_terms::{Call, Carried, Limits, Reply};
use sequential_object::{Act, ActEnd, Change, Decision, Deed, Seen, TurnEnd};
use std::alloc::{AllocError, Global};
use std::marker::Model;
use std::mem::replace;

/// The shared descriptor table, and by object number the bodies of the objects.
#[derive(Drop)]
pub struct Store {
    /// What descriptors, descriptions and names there are. It is public for `Table::made`, which says what the
    /// store asks of its caller. Whoever changes it otherwise than by the store's own functions may leave a store
    /// that stands for no world; `Performs` then says nothing.
    pub table: Table,
    pub(crate) bodies: Vec<Body>,

    // each object number has its body
    ghost count: { length bodies.items ≡ limit.OBJECTS },
    // at most one description of an object leads outside
    ghost single: { HaveOne table.descriptions },
}

impl Model for Store {
    ghost use Rattle.call_turns.specs.Store.{Stored};
    ghost use Rattle.call_turns.specs.StoreCode.{stored_code};

    ghost Value = { Stored };

    ghost coded = { stored_code };

    ghost view = { λ s. record { table = s.table; bodies = s.bodies.items } };
}

impl Store {
    /// Nothing is open, and there is only the root. It takes the room for all bodies that there can be, some
    /// 6.2 MiB.
    pub fn new(alloc: Global) -> Result<Store, AllocError>
        ensures { IfOk result (λ s. s ≡ first_stored) }
    {
        let mut bodies = Vec::new(alloc);
        for _ in 0..Limits::OBJECTS {
            bodies.push(Body::new(alloc)?)?;
        }
        Ok(Store {
            table: Table::new(alloc)?,
            bodies,
        })
    }

    /// Nothing is open any more, and there is only the root, as at first. It takes no memory, and keeps the room
    /// for all bodies.
    pub fn reset(&mut self)
        ensures { self.new ≡ first_stored }
    {
        self.table.reset();
        clear_all(self.bodies.as_mut_slice());
    }

    /// Performs the turn of a call that carries this, if the table alone answers it. Of any other call it
    /// returns what was decided of it, with the number of the object that it has to lock beside the
    /// table, and changes nothing.
    pub fn perform_or_lock(&mut self, call: &Call, carried: Carried) -> AtTable
        requires descriptions { self.old.table.descriptions.made < 2 ^ 127 }
        requires objects { self.old.table.made_objects < 2 ^ 127 }
        ensures comes { ComesTo carried self.old call.now result self.new }
        ensures doors { KeepsDoors self.old self.new }
        ensures births { (self.new.table.descriptions.made ≤ self.old.table.descriptions.made + 2)
            × (self.new.table.made_objects ≤ self.old.table.made_objects + 1) }
    {
        // What holds of every table holds of this one.
        let _ = self.table.made();
        table_follows_step();
        match self.table.decide(call, carried.moved) {
            Ok(Decision::Replies { reply, change }) => {
                self.change(call, change);
                AtTable::Answers(reply)
            }
            Ok(Decision::Locks { object, deed }) => AtTable::Locks(Locking { object, deed }),
            Err(error) => AtTable::Answers(Reply::Fail(error)),
        }
    }

    /// Performs one turn of a call that carries this from its blocked turns, and took the lock of its
    /// object: as it was decided by `perform_or_lock`, while the table was kept. A call that cannot
    /// go on is blocked until it was for as many turns as its patience, and then fails with EINTR;
    /// where its description has O_NONBLOCK it fails at once with EAGAIN. A write that moved bytes
    /// of a pipe returns their count in place of either. A call that goes outside gets its errand,
    /// with the number of the object whose door it takes along; unless it keeps the table, its
    /// change is made, and `end_outside` ends its turn. Where it keeps the table nothing has
    /// changed (`kept`), and `open_door` ends its turn.
    ///
    /// The room is for a read's bytes, and has at least as many as `read_count` says, whatever they
    /// are. A read that is made here takes it, even where it has to wait, so its next turn needs
    /// another, and no reply brings more bytes than that. A call that goes outside leaves it as it
    /// was, for `end_outside`, and asks no more (`room`).
    pub fn perform(
        &mut self,
        call: &Call,
        locking: Locking,
        patience: u32,
        carried: Carried,
        room: &mut Vec<u8>,
    ) -> TurnStart
        requires descriptions { self.old.table.descriptions.made < 2 ^ 127 }
        requires objects { self.old.table.made_objects < 2 ^ 127 }
        requires decided { IsDecided self.old call.now carried.moved locking }
        requires room { read_count call.now ≤ length room.old.items }
        ensures performs { Performs patience carried self.old call.now result self.new }
        ensures kept { KeepsStore (keeps_table call.now) result self.old self.new }
        ensures doors { MovesDoors locking.object (keeps_table call.now) result self.old self.new }
        ensures room { UsesRoom (read_count call.now) room.old.items room.new.items result }
        ensures births { (self.new.table.descriptions.made ≤ self.old.table.descriptions.made + 2)
            × (self.new.table.made_objects ≤ self.old.table.made_objects + 1) }
    {
        // What holds of every table holds of this one.
        let _ = self.table.made();
        table_follows_step();
        let Locking { object, deed } = locking;
        match deed {
            Deed::Acts { act, change } => {
                match self.act(call, object, act, change, carried, room) {
                    ActEnd::Reply(reply) => TurnStart::Ended(TurnEnd::Reply(reply)),
                    ActEnd::Waits(moved) => TurnStart::Ended(blocked(patience, moved, carried)),
                }
            }
            Deed::Asks { blocks } => TurnStart::GoesOut(errand_of(call, blocks, Some(object))),
            Deed::Closes { number, key } => {
                self.change(call, Change::Close { number, key });
                TurnStart::GoesOut(errand_of(call, false, Some(object)))
            }
            Deed::Opens {
                blocks,
                listener,
                ..
            } => TurnStart::GoesOut(errand_of(call, blocks, listener)),
        }
    }

    // Makes a change that was decided of a call, in the table and in the body of a new object.
    pub(crate) fn change(&mut self, call: &Call, change: Change)
        requires descriptions { self.old.table.descriptions.made < 2 ^ 127 }
        requires objects { self.old.table.made_objects < 2 ^ 127 }
        requires can { Can (view self.old.table) call.now change }
        ensures stands { StandsChanged self.old call.now change self.new }
        ensures doors { KeepsDoors self.old self.new }
        ensures last { GoneWithLast self.old.table.descriptions change self.new.table.descriptions }
        ensures births { (self.new.table.descriptions.made ≤ self.old.table.descriptions.made + 2)
            × (self.new.table.made_objects ≤ self.old.table.made_objects + 1) }
    {
        table_follows_step();
        self.table.carry_out(call, change);
        // What holds of every table holds of this one.
        let _ = self.table.made();
        self.clear(change);
    }

    // A new object has nothing in it, whatever was under its number before.
    fn clear(&mut self, change: Change)
        requires { IsInside change }
        ensures { self.new ≡ record self.old { bodies = cleared self.old.bodies change } }
    {
        match change {
            Change::MakeFile(new) => self.clear_file(new.object),
            Change::MakePipe(new) => self.clear_pipe(new.object),
            Change::MakeSockets(new) => self.clear_pair(new.object),
            _ => {}
        }
    }

    // Performs a turn of a call that acts on the object that it locked, as it was decided.
    fn act(
        &mut self,
        call: &Call,
        object: usize,
        act: Act,
        change: Change,
        carried: Carried,
        room: &mut Vec<u8>,
    ) -> ActEnd
        requires descriptions { self.old.table.descriptions.made < 2 ^ 127 }
        requires objects { self.old.table.made_objects < 2 ^ 127 }
        requires decided { IsDecided self.old call.now carried.moved
            (record { object = object; deed = deed.Acts act change }) }
        requires can { CanDo (view self.old.table) call.now object (deed.Acts act change) }
        requires room { read_count call.now ≤ length room.old.items }
        ensures ends { EndsTurn carried self.old call.now result self.new }
        ensures doors { KeepsDoors self.old self.new }
        ensures few { act_bytes result ≤ read_count call.now }
        ensures births { (self.new.table.descriptions.made ≤ self.old.table.descriptions.made + 2)
            × (self.new.table.made_objects ≤ self.old.table.made_objects + 1) }
    {
        // What holds of every table holds of this one, and each number has its body.
        let _ = self.table.made();
        let _ = &self.bodies;
        table_follows_step();
        match act {
            Act::Open { number, cut } => {
                self.cut(object, cut);
                self.change(call, change);
                number_reply(number)
            }
            Act::Create { number } => {
                self.change(call, change);
                number_reply(number)
            }
            Act::Release => {
                self.change(call, change);
                ActEnd::Reply(released_reply(call))
            }
            Act::Pipe { first, second } | Act::Socketpair { first, second } => {
                self.change(call, change);
                pair_reply(first, second)
            }
            act => self.act_on(call, object, act, room),
        }
    }

    // Performs an act that reads or writes an object.
    fn act_on(&mut self, call: &Call, object: usize, act: Act, room: &mut Vec<u8>) -> ActEnd
        requires inside { object < limit.OBJECTS }
        requires ready { IsReady self.old.table (length room.old.items) act }
        ensures acts { Leaves (acts_at self.old object act call.now) self.old object (key_of act)
            result self.new }
        ensures few { IsReady self.old.table (read_count call.now) act
            → act_bytes result ≤ read_count call.now }
    {
        // What holds of every store holds of this one: each number has its body.
        let _ = &self.bodies;
        match act {
            Act::Read { from, count } => self.read(call, object, from, taken(room, count)),
            Act::Write { to, before } => self.write_call(call, object, to, before),
            Act::Pread { count, position } => {
                ActEnd::Reply(self.pread(object, position, taken(room, count)))
            }
            Act::Pwrite { position } => self.pwrite_call(call, object, position),
            Act::Lseek { at } => self.lseek_call(call, object, at),
            Act::Ftruncate { size } => self.ftruncate(call, object, size),
            Act::Fstat { links } => ActEnd::Reply(self.fstat(object, links)),
            Act::Shutdown { side, how } => self.shutdown(call, object, side, how),
            _ => unreachable!(),
        }
    }

    // The acts whose operands are in the call. An act is decided of its own call alone.
    fn write_call(&mut self, call: &Call, object: usize, to: Seen, before: u64) -> ActEnd
        requires inside { object < limit.OBJECTS }
        requires known { ContainsKey self.old.table.descriptions to.key }
        ensures acts { Leaves (acts_at self.old object (act.Write to before) call.now)
            self.old object (Some to.key) result self.new }
        ensures few { act_bytes result ≡ 0 }
    {
        match call {
            Call::Write { bytes, .. } => self.write(object, to, bytes.as_slice(), before),
            _ => ActEnd::Reply(Reply::Done),
        }
    }

    fn pwrite_call(&mut self, call: &Call, object: usize, position: u64) -> ActEnd
        requires inside { object < limit.OBJECTS }
        ensures acts { Leaves (acts_at self.old object (act.Pwrite position) call.now)
            self.old object None result self.new }
        ensures few { act_bytes result ≡ 0 }
    {
        match call {
            Call::Pwrite { bytes, .. } => self.pwrite(object, position, bytes.as_slice()),
            _ => ActEnd::Reply(Reply::Done),
        }
    }

    fn lseek_call(&mut self, call: &Call, object: usize, at: Seen) -> ActEnd
        requires inside { object < limit.OBJECTS }
        requires known { ContainsKey self.old.table.descriptions at.key }
        ensures acts { Leaves (acts_at self.old object (act.Lseek at) call.now)
            self.old object (Some at.key) result self.new }
        ensures few { act_bytes result ≡ 0 }
    {
        match call {
            Call::Lseek { offset, whence, .. } => self.lseek(object, at, *offset, *whence),
            _ => ActEnd::Reply(Reply::Done),
        }
    }

    fn clear_file(&mut self, object: usize)
        requires { object < limit.OBJECTS }
        ensures { self.new ≡ record self.old { bodies = emptied self.old.bodies object (File []) } }
    {
        // What holds of every store holds of this one: each number has its body.
        let _ = &self.bodies;
        self.bodies[object].file.clear();
    }

    fn clear_pipe(&mut self, object: usize)
        requires { object < limit.OBJECTS }
        ensures { self.new ≡ record self.old { bodies = emptied self.old.bodies object (Pipe []) } }
    {
        let _ = &self.bodies;
        self.bodies[object].pipe.clear();
    }

    fn clear_pair(&mut self, object: usize)
        requires { object < limit.OBJECTS }
        ensures { self.new
            ≡ record self.old { bodies = emptied self.old.bodies object (Pair new_pair) } }
    {
        let _ = &self.bodies;
        self.bodies[object].pair.clear();
    }
}

// Nothing is in any of these bodies any more.
fn clear_all(bodies: &mut [Body])
    ensures { bodies.new ≡ replicate (length bodies.old) first_kept }
{
    for i in 0..bodies.len() {
        bodies[i].clear();
    }
}

// The end of an act that opened this descriptor.
fn number_reply(number: usize) -> ActEnd
    requires { number < limit.DESCRIPTORS }
    ensures { result ≡ act_end.Reply (reply.Number (pos number)) }
{
    ActEnd::Reply(Reply::Number(number as i64))
}

fn pair_reply(first: usize, second: usize) -> ActEnd
    requires { (first < limit.DESCRIPTORS) × (second < limit.DESCRIPTORS) }
    ensures { result ≡ act_end.Reply (reply.Pair (pos first) (pos second)) }
{
    ActEnd::Reply(Reply::Pair(first as i64, second as i64))
}

// So many bytes of the room, in which nothing is left.
fn taken(room: &mut Vec<u8>, count: usize) -> Vec<u8>
    requires { count ≤ length room.old.items }
    ensures { length result.items ≡ count }
{
    let alloc = *room.allocator();
    let mut bytes = replace(room, Vec::new(alloc));
    bytes.truncate(count);
    bytes
}
