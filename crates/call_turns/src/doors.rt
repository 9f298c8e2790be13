ghost use Rattle.std.specs.Prelude.{◌≡◌, ◌+◌, ◌^◌, ◌<◌, ◌≤◌, IsTrue, false};
ghost use Rattle.sequential_object.specs.Locked.{keeps_table};
ghost use Rattle.descriptor_table.specs.Changes.{IsPortOf};
ghost use Rattle.descriptor_table.specs.Doors.{AddsOne};
ghost use Rattle.call_turns.specs.Doors.{is_ok};
ghost use Rattle.call_turns.specs.Patience.{turn_bytes};
ghost use Rattle.call_turns.specs.Store.{IsDecided, Opens, at_port};

use crate::patience::{Locking, fail_outside};
use crate::store::Store;
use descriptor_table::{errand_of, table_follows_step};
use posix_terms::{Call, Carried, Errno, Outcome, Reply};
use sequential_object::{Deed, TurnEnd};

// Calls that go outside.
impl Store {
    /// Ends a turn of a call that kept the table while it was outside, as it was decided before, by an
    /// outcome that fits: where a door was opened it is a new object, and the lowest number that is
    /// not open refers to it. Otherwise nothing changes: the failure EAGAIN may make an accept wait,
    /// and every other one is the call's reply. What was to ask nothing outside, and a port past
    /// 65,535, end with EIO and change nothing. No reply brings bytes.
    pub fn open_door(
        &mut self,
        call: &Call,
        locking: Locking,
        outcome: &Outcome,
        patience: u32,
        carried: Carried,
    ) -> TurnEnd
        requires descriptions { self.old.table.descriptions.made < 2 ^ 127 }
        requires objects { self.old.table.made_objects < 2 ^ 127 }
        requires decided { IsDecided self.old call.now carried.moved locking }
        ensures opens { Opens patience carried self.old call.now outcome.now result self.new }
        ensures few { turn_bytes result ≡ 0 }
        ensures doors { AddsOne self.old.table.descriptions locking.object
            self.new.table.descriptions }
        ensures fails { is_ok outcome.now ≡ false → self.new ≡ self.old }
        ensures births { (self.new.table.descriptions.made ≤ self.old.table.descriptions.made + 2)
            × (self.new.table.made_objects ≤ self.old.table.made_objects + 1) }
    {
        table_follows_step();
        // What holds of every table holds of this one.
        let _ = self.table.made();
        let Deed::Opens {
            blocks,
            listener,
            new,
        } = locking.deed
        else {
            return TurnEnd::Reply(Reply::Fail(Errno::EIO));
        };
        match outcome {
            Outcome::Ok { value, .. } if is_port_of(call, *value) => {
                let number = self.table.open_door(call, new, *value);
                let _ = self.table.made();
                TurnEnd::Reply(Reply::Number(number))
            }
            Outcome::Ok { .. } => TurnEnd::Reply(Reply::Fail(Errno::EIO)),
            Outcome::Fail(error) => {
                fail_outside(errand_of(call, blocks, listener), *error, patience, carried)
            }
        }
    }
}

/// Whether a call keeps the table to its answer: one that opens a door outside.
pub fn keeps_table(call: &Call) -> bool
    ensures { result ≡ keeps_table call.now }
{
    matches!(
        call,
        Call::HostOpen { .. }
            | Call::TcpListen { .. }
            | Call::TcpConnect { .. }
            | Call::TcpAccept { .. }
    )
}

// Whether a listener is opened at a port.
fn is_port_of(call: &Call, value: u64) -> bool
    ensures port { IsTrue result → IsPortOf call.now value }
    ensures test { result ≡ at_port call.now value }
{
    match call {
        Call::TcpListen { .. } => value <= 65_535,
        _ => true,
    }
}
