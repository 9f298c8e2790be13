ghost use Rattle.std.specs.Prelude.{◌≡◌, ◌+◌, ◌≤◌, ◌<◌, ◌^◌, Ok, None, IfOk, IfSome};
ghost use Rattle.std.specs.Prelude.{false, not, true};
ghost use Rattle.sequential_object.specs.Bytes.{read_count, reply_bytes};
ghost use Rattle.descriptor_table.specs.Plans.{bytes_asked};
ghost use Rattle.posix_terms.specs.Outcomes.{fits};
ghost use Rattle.call_turns.specs.Doors.{MovesDoors};
ghost use Rattle.call_turns.specs.Patience.{EndsOutside, turn_bytes};
ghost use Rattle.call_turns.specs.Space.{HasSpaceFor, LeavesSpace, changed, no_space};
ghost use Rattle.sequential_object.specs.Locked.{keeps_table};
ghost use Rattle.call_turns.specs.Store.{IsDecided, KeepsStore, Performs};

use crate::patience::{Locking, TurnStart, copied, end_outside};
use crate::store::Store;
use descriptor_table::{Errand, read_count};
use posix_terms::{Call, Carried, Outcome, OutcomeRoom, Reply};
use sequential_object::TurnEnd;
use std::alloc::{AllocError, Global};
use std::marker::Model;

/// The memory that a thread has for the bytes of its reply, for the one that is given and for its
/// copy in the row of the history; and for an outcome in that row. Contracts see how many bytes
/// each has, and whether there is room for an outcome.
#[derive(Drop)]
pub struct Room {
    told: Vec<u8>,
    row: Vec<u8>,
    outcome: Option<OutcomeRoom>,
}

impl Model for Room {
    ghost use Rattle.std.specs.Prelude.{is_some, length};
    ghost use Rattle.call_turns.specs.Space.{Space};

    ghost Value = { Space };

    ghost view = { λ r. record {
      told = length r.told.items;
      row = length r.row.items;
      outcome = is_some r.outcome;
    } };
}

impl Room {
    /// Of no bytes. It takes no memory.
    pub fn new(alloc: Global) -> Room
        ensures { result ≡ no_space }
    {
        Room {
            told: Vec::new(alloc),
            row: Vec::new(alloc),
            outcome: None,
        }
    }

    /// What takes this one's place for a call, with room for just as many bytes as it may read;
    /// none where there is room for the call here.
    pub fn for_call(&self, call: &Call) -> Result<Option<Room>, AllocError>
        ensures room { IfOk result (λ other. HasSpaceFor call.now (changed other self.now)) }
        ensures none { HasSpaceFor call.now self.now → result ≡ Ok None }
        ensures other { IfOk result (λ other. IfSome other (λ r. r ≡ record {
          told = read_count call.now;
          row = read_count call.now;
          outcome = not self.now.outcome;
        })) }
    {
        let count = read_count(call);
        if count <= self.told.len() && self.told.len() <= self.row.len() && self.outcome.is_some() {
            return Ok(None);
        }
        let alloc = *self.told.allocator();
        Ok(Some(Room {
            told: vec![in alloc; 0; count]?,
            row: vec![in alloc; 0; count]?,
            outcome: if self.outcome.is_some() {
                None
            } else {
                Some(OutcomeRoom::new(alloc)?)
            },
        }))
    }

    /// Has another take its place, if there is one, and keeps what room it has for an outcome.
    pub fn change(&mut self, other: Option<Room>)
        ensures { self.new ≡ changed other self.old }
    {
        if let Some(other) = other {
            self.told = other.told;
            self.row = other.row;
            if other.outcome.is_some() {
                self.outcome = other.outcome;
            }
        }
    }

    /// Performs a turn of a call, as [`Store::perform`], with room for the bytes of its reply.
    pub fn perform(
        &mut self,
        store: &mut Store,
        call: &Call,
        locking: Locking,
        patience: u32,
        carried: Carried,
    ) -> TurnStart
        requires descriptions { store.old.table.descriptions.made < 2 ^ 127 }
        requires objects { store.old.table.made_objects < 2 ^ 127 }
        requires decided { IsDecided store.old call.now carried.moved locking }
        requires room { HasSpaceFor call.now self.old }
        ensures performs { Performs patience carried store.old call.now result store.new }
        ensures kept { KeepsStore (keeps_table call.now) result store.old store.new }
        ensures doors { MovesDoors locking.object (keeps_table call.now) result store.old
            store.new }
        ensures room { LeavesSpace result self.new }
        ensures births { (store.new.table.descriptions.made ≤ store.old.table.descriptions.made + 2)
            × (store.new.table.made_objects ≤ store.old.table.made_objects + 1) }
    {
        store.perform(call, locking, patience, carried, &mut self.told)
    }

    /// Ends a turn that went outside, as [`end_outside`], with room for the bytes that came.
    pub fn end_outside(
        &mut self,
        errand: Errand,
        outcome: &Outcome,
        patience: u32,
        carried: Carried,
    ) -> TurnEnd
        requires asked { bytes_asked errand ≤ self.old.told }
        requires copy { self.old.told ≤ self.old.row }
        ensures ends { fits errand.kind errand.asked outcome.now ≡ true
            → EndsOutside patience carried errand outcome.now result }
        ensures copy { turn_bytes result ≤ self.new.row }
    {
        end_outside(errand, outcome, patience, carried, &mut self.told)
    }

    /// The room for an outcome, which is used up.
    pub fn for_outcome(&mut self) -> OutcomeRoom
        requires { self.old.outcome ≡ true }
        ensures { self.new ≡ record self.old { outcome = false } }
    {
        self.outcome.take().unwrap()
    }

    /// A copy of a reply, for the row.
    pub fn copy(&mut self, reply: &Reply) -> Reply
        requires { reply_bytes reply.now ≤ self.old.row }
        ensures { result ≡ reply.now }
    {
        copied(reply, &mut self.row)
    }
}
