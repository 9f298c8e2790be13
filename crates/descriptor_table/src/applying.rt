ghost use Rattle.std.specs.Prelude.{◌≡◌, ◌<◌, ◌≤◌, ◌+◌, ◌^◌, pos, true, false, IsTrue};
ghost use Rattle.std.specs.Prelude.{option_copied, Some, Ok};
ghost use Rattle.sequential_object.specs.Object.{State};
ghost use Rattle.posix_terms.specs.declared.object.End.TheVariants as part;
ghost use Rattle.sequential_object.specs.Changes.{changed, door_of, door_opened, old_path_of};
ghost use Rattle.sequential_object.specs.Changes.{path_of};
ghost use Rattle.sequential_object.specs.Decided.{decided};
ghost use Rattle.sequential_object.specs.Renaming.{change_by, decision_by, new_by, ok_by};
ghost use Rattle.sequential_object.specs.So.{Can, CanDo, IsFree, IsSo};
ghost use Rattle.sequential_object.specs.declared.decision.Decision.TheVariants as decision;
ghost use Rattle.descriptor_table.specs.Agreement.{NumbersStay};
ghost use Rattle.descriptor_table.specs.Applied.{AreNumbers, IsAtPort, door_given, given, left_of};
ghost use Rattle.descriptor_table.specs.Applied.{numbers_of, value_of, with_door};
ghost use Rattle.descriptor_table.specs.Doors.{AddsNone, AddsOne, GoneWithLast};
ghost use Rattle.descriptor_table.specs.Laws.{TableFollows};
ghost use Rattle.descriptor_table.specs.Changes.{AreOpened, CanChange, CanMakeEnds, Changed};
ghost use Rattle.descriptor_table.specs.Changes.{IsDoorOpened, IsFreeNumber, IsNextObject};
ghost use Rattle.descriptor_table.specs.Changes.{IsOpened, IsPortOf, Refers, closed, with_object};
ghost use Rattle.descriptor_table.specs.Plans.{is_refused};
ghost use Rattle.descriptor_table.specs.Shows.{Shows};
ghost use Rattle.descriptor_table.specs.Table.{free_object, is_used};
ghost use Rattle.descriptor_table.specs.View.{names_of, view};
ghost use Rattle.descriptor_table.specs.declared.plan.NewNumbers.TheVariants as numbers;

use crate::laws::table_follows_step;
use crate::plan::{NewNumbers, Plan};
use crate::table::Table;
use directories::Node;
use file_descriptions::{StatusFlags, changes_keep_sound};
use posix_terms::{Access, Call, Door, End, Moved, Outcome, Side};
use sequential_object::{Act, Change, Decision, Deed, NewDescriptor, NewEnds};

impl Table {
    /// Makes the change of a call that was planned, of descriptors, descriptions, names and objects,
    /// with the outcome of what it asks outside. It returns the numbers of new descriptors. After a
    /// refusal nothing changes. It decides the call again: whoever has the decision hands its change
    /// to `carry_out` or `open_door` instead.
    pub fn apply(&mut self, call: &Call, plan: &Plan, outcome: Option<&Outcome>) -> NewNumbers
        requires descriptions { self.old.descriptions.made < 2 ^ 127 }
        requires objects { self.old.made_objects < 2 ^ 127 }
        requires port { IsAtPort call.now (value_of (option_copied outcome)) }
        ensures refused { IsTrue (is_refused plan.now)
            → (self.new ≡ self.old) × (result ≡ numbers.None) }
        ensures shows { is_refused plan.now ≡ false
            → (s : State) → Shows self.old s
            → Shows self.new (left_of s call.now (option_copied outcome.entry)
            (ok_by (decision_by (names_of self.old))
            (decided (view self.old) call.now Moved.NOTHING))) }
        ensures number { is_refused plan.now ≡ false
            → result ≡ given (option_copied outcome.entry)
            (decided (view self.old) call.now Moved.NOTHING) }
    {
        if plan.is_refused() {
            return NewNumbers::None;
        }
        match self.decide(call, Moved::NOTHING) {
            Ok(decision) => self.apply_decision(call, decision, outcome),
            Err(_) => NewNumbers::None,
        }
    }

    /// Makes a change for which all was looked up in this table (`can`), and looks nothing up again.
    /// What the table shows goes along (`shows`). An object keeps its number while it is there, and
    /// a new one gets the next that is free (`numbers`). No description that leads outside is new
    /// (`doors`), and one that a single descriptor held is gone with that (`ends`).
    pub fn carry_out(&mut self, call: &Call, change: Change)
        requires descriptions { self.old.descriptions.made < 2 ^ 127 }
        requires objects { self.old.made_objects < 2 ^ 127 }
        requires can { Can (view self.old) call.now change }
        ensures shows { (s : State) → Shows self.old s
            → Shows self.new (changed s call.now (change_by (names_of self.old) change)) }
        ensures numbers { NumbersStay self.old self.new }
        ensures doors { AddsNone self.old.descriptions self.new.descriptions }
        ensures ends { GoneWithLast self.old.descriptions change self.new.descriptions }
    {
        self.known();
        changes_keep_sound();
        self.change(call, change);
    }

    /// Makes a descriptor of a door that was opened outside with this value, and returns its number.
    pub fn open_door(&mut self, call: &Call, new: NewDescriptor, value: u64) -> i64
        requires descriptions { self.old.descriptions.made < 2 ^ 127 }
        requires objects { self.old.made_objects < 2 ^ 127 }
        requires port { IsPortOf call.now value }
        requires free { IsFree (view self.old) new.number }
        requires next { free_object self.old ≡ Some new.object }
        ensures number { result ≡ pos new.number }
        ensures shows { (s : State) → Shows self.old s
            → Shows self.new (door_opened s call.now (new_by (names_of self.old) new) value) }
        ensures numbers { NumbersStay self.old self.new }
        ensures doors { AddsOne self.old.descriptions new.object self.new.descriptions }
    {
        self.known();
        changes_keep_sound();
        self.make_door(call, new, value)
    }

    // What a call changes that is not refused.
    fn apply_decision(
        &mut self,
        call: &Call,
        decision: Decision,
        outcome: Option<&Outcome>,
    ) -> NewNumbers
        requires descriptions { self.old.descriptions.made < 2 ^ 127 }
        requires objects { self.old.made_objects < 2 ^ 127 }
        requires port { IsAtPort call.now (value_of (option_copied outcome)) }
        requires so { IsSo (view self.old) call.now decision }
        ensures shows { (s : State) → Shows self.old s
            → Shows self.new (left_of s call.now (option_copied outcome.entry)
            (Ok (decision_by (names_of self.old) decision))) }
        ensures number { result ≡ given (option_copied outcome.entry) (Ok decision) }
    {
        match decision {
            Decision::Replies { change, .. } => {
                self.carry_out(call, change);
                NewNumbers::None
            }
            Decision::Locks { object, deed } => self.apply_deed(call, object, deed, outcome),
        }
    }

    // What a call changes that locks an object.
    fn apply_deed(
        &mut self,
        call: &Call,
        object: usize,
        deed: Deed,
        outcome: Option<&Outcome>,
    ) -> NewNumbers
        requires descriptions { self.old.descriptions.made < 2 ^ 127 }
        requires objects { self.old.made_objects < 2 ^ 127 }
        requires port { IsAtPort call.now (value_of (option_copied outcome)) }
        requires can { CanDo (view self.old) call.now object deed }
        ensures shows { (s : State) → Shows self.old s
            → Shows self.new (left_of s call.now (option_copied outcome.entry)
            (ok_by (decision_by (names_of self.old)) (Ok (decision.Locks object deed)))) }
        ensures number { result
            ≡ given (option_copied outcome.entry) (Ok (decision.Locks object deed)) }
    {
        table_follows_step();
        match deed {
            Deed::Acts { act, change } => {
                self.carry_out(call, change);
                numbers_of(act)
            }
            Deed::Closes { number, key } => {
                self.carry_out(call, Change::Close { number, key });
                NewNumbers::None
            }
            Deed::Opens { new, .. } => self.apply_opening(call, new, value_of(outcome)),
            Deed::Asks { .. } => NewNumbers::None,
        }
    }

    // Where a door was opened outside: its descriptor.
    fn apply_opening(&mut self, call: &Call, new: NewDescriptor, value: Option<u64>) -> NewNumbers
        requires descriptions { self.old.descriptions.made < 2 ^ 127 }
        requires objects { self.old.made_objects < 2 ^ 127 }
        requires port { IsAtPort call.now value }
        requires free { IsFree (view self.old) new.number }
        requires next { free_object self.old ≡ Some new.object }
        ensures shows { (s : State) → Shows self.old s
            → Shows self.new
            (with_door s call.now (new_by (names_of self.old) new) value) }
        ensures number { result ≡ door_given new.number value }
    {
        match value {
            Some(value) => NewNumbers::One(self.open_door(call, new, value)),
            None => NewNumbers::None,
        }
    }

    fn change(&mut self, call: &Call, change: Change)
        requires descriptions { self.old.descriptions.made < 2 ^ 127 }
        requires objects { self.old.made_objects < 2 ^ 127 }
        requires can { CanChange self.old call.now change }
        ensures { Changed self.old call.now change self.new }
    {
        match change {
            Change::Nothing => {}
            Change::Share { number, key } => self.share(number, key),
            Change::Close { number, key } => self.close(number, key),
            Change::Replace {
                number,
                old_key,
                key,
            } => {
                self.close(number, old_key);
                self.share(number, key);
            }
            Change::SetFlags {
                key,
                append,
                nonblock,
            } => self.set_flags(key, StatusFlags { append, nonblock }),
            Change::AddFile { object } => self.add_name(path_of(call), Node::File(object)),
            Change::AddDirectory => self.add_name(path_of(call), Node::Directory),
            Change::RemoveFile { object } => {
                self.remove_name(path_of(call));
                self.free_if_gone(object);
            }
            Change::RemoveDirectory => self.remove_name(path_of(call)),
            Change::Rename { object, lost } => {
                self.move_name(old_path_of(call), path_of(call), object);
                if let Some(lost) = lost {
                    self.free_if_gone(lost);
                }
            }
            Change::OpenFile(new) => self.open(new, End::Only),
            Change::MakeFile(new) => {
                self.make_file(path_of(call), new.object);
                self.open(new, End::Only);
            }
            Change::MakePipe(new) => {
                let read = (End::Read, Access::ReadOnly);
                let write = (End::Write, Access::WriteOnly);
                self.open_two(new, read, write);
            }
            Change::MakeSockets(new) => {
                let side0 = (End::Socket(Side::Side0), Access::ReadWrite);
                let side1 = (End::Socket(Side::Side1), Access::ReadWrite);
                self.open_two(new, side0, side1);
            }
        }
    }

    // A new descriptor, of an object that is there.
    fn open(&mut self, new: NewDescriptor, end: End)
        requires births { self.old.descriptions.made < 2 ^ 127 }
        requires free { IsFreeNumber self.old new.number }
        requires there { is_used self.old new.object ≡ true }
        ensures { IsOpened self.old new «end» self.new }
    {
        let flags = StatusFlags {
            append: new.append,
            nonblock: new.nonblock,
        };
        let _ = self.open_number(new.number, new.object, end, new.access, flags);
    }

    // A new object, to whose ends two numbers refer.
    fn open_two(&mut self, new: NewEnds, one: (End, Access), other: (End, Access))
        requires descriptions { self.old.descriptions.made < 2 ^ 127 }
        requires objects { self.old.made_objects < 2 ^ 127 }
        requires can { CanMakeEnds self.old new }
        ensures { AreOpened self.old one other new self.new }
    {
        let flags = StatusFlags {
            append: false,
            nonblock: false,
        };
        self.make_object(new.object);
        let _ = self.open_number(new.first, new.object, one.0, one.1, flags);
        let _ = self.open_number(new.second, new.object, other.0, other.1, flags);
    }

    // A new object, a door, to which a number refers.
    fn make_door(&mut self, call: &Call, new: NewDescriptor, value: u64) -> i64
        requires descriptions { self.old.descriptions.made < 2 ^ 127 }
        requires objects { self.old.made_objects < 2 ^ 127 }
        requires port { IsPortOf call.now value }
        requires free { IsFreeNumber self.old new.number }
        requires next { IsNextObject self.old new.object }
        ensures opened { IsDoorOpened self.old call.now new value self.new }
        ensures number { result ≡ pos new.number }
    {
        self.make_object(new.object);
        self.open(new, End::Door(door_of(call, value)));
        new.number as i64
    }

    // Number `number` is closed, which refers to the description of this key.
    fn close(&mut self, number: usize, key: usize)
        requires { Refers self.old number key }
        ensures closed { self.new ≡ closed self.old number key }
        ensures free { IsFreeNumber self.new number }
    {
        if let Some(object) = self.let_go(number, key) {
            self.free_if_gone(object);
        }
    }
}

// The value of a success.
fn value_of(outcome: Option<&Outcome>) -> Option<u64>
    ensures { result ≡ value_of (option_copied outcome.entry) }
{
    match outcome {
        Some(Outcome::Ok { value, .. }) => Some(*value),
        _ => None,
    }
}

// The numbers of the descriptors that an act opens.
fn numbers_of(act: Act) -> NewNumbers
    requires { AreNumbers act }
    ensures { result ≡ numbers_of act }
{
    match act {
        Act::Open { number, .. } | Act::Create { number } => NewNumbers::One(number as i64),
        Act::Pipe { first, second } | Act::Socketpair { first, second } => {
            NewNumbers::Two(first as i64, second as i64)
        }
        _ => NewNumbers::None,
    }
}

// The path that a call gives a name, or takes it from.
fn path_of(call: &Call) -> &[u8]
    ensures { result.now ≡ path_of call.now }
{
    match call {
        Call::Open { path, .. }
        | Call::Link { new_path: path, .. }
        | Call::Unlink { path }
        | Call::Rename { new_path: path, .. }
        | Call::Mkdir { path }
        | Call::Rmdir { path } => path.as_slice(),
        _ => &[],
    }
}

// The path whose name a call takes for another one.
fn old_path_of(call: &Call) -> &[u8]
    ensures { result.now ≡ old_path_of call.now }
{
    match call {
        Call::Rename { old_path, .. } => old_path.as_slice(),
        _ => &[],
    }
}

// The door that a call opens outside, by the value of that.
fn door_of(call: &Call, value: u64) -> Door
    requires { IsPortOf call.now value }
    ensures { result ≡ door_of call.now value }
{
    match call {
        Call::HostOpen { .. } => Door::HostFile,
        Call::TcpListen { .. } => Door::Listener(value as u16),
        _ => Door::Stream,
    }
}
