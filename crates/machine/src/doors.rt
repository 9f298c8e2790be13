ghost use Rattle.std.specs.Prelude.{◌≡◌, length};
ghost use Rattle.machine.specs.Doors.{door_at, put, without};

use std::mem::replace;

// Takes the door that stands at this number, if there is a number.
pub fn take<D: Drop>(doors: &mut Vec<Option<D>>, number: Option<usize>) -> Option<D>
    ensures door { result ≡ door_at doors.old.items number }
    ensures rest { doors.new.items ≡ without doors.old.items number }
    ensures count { length doors.new.items ≡ length doors.old.items }
{
    match doors.get_mut(number?) {
        Some(place) => replace(place, None),
        None => None,
    }
}

// Puts a door there, if there is one.
pub fn put<D: Drop>(doors: &mut Vec<Option<D>>, number: Option<usize>, door: Option<D>)
    ensures rest { doors.new.items ≡ put doors.old.items number door }
    ensures count { length doors.new.items ≡ length doors.old.items }
{
    if let (Some(number), Some(door)) = (number, door) {
        if let Some(place) = doors.get_mut(number) {
            *place = Some(door);
        }
    }
}
