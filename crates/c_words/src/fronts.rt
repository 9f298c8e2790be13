ghost use Rattle.std.specs.Prelude.{◌≡◌, ◌≤◌, drop, length, take};

/// Puts bytes at the front of `room`, as many as have room there: how many there are.
pub fn put_front(bytes: &[u8], room: &mut [u8]) -> usize
    ensures count { result ≡ length bytes.now }
    ensures length { length room.new ≡ length room.old }
    ensures whole { length bytes.now ≤ length room.old
        → take (length bytes.now) room.new ≡ bytes.now }
    ensures part { length room.old ≤ length bytes.now
        → room.new ≡ take (length room.old) bytes.now }
    ensures rest { drop (length bytes.now) room.new ≡ drop (length bytes.now) room.old }
{
    let count = bytes.len().min(room.len());
    let (whole, _) = bytes.split_at(count);
    let (front, _) = room.split_at_mut(count);
    front.copy_from_slice(whole);
    bytes.len()
}
