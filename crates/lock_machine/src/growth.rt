ghost use Rattle.std.specs.Prelude.{◌≡◌, ◌+◌, ◌<◌, ◌≤◌, OnOk, OnErr, vec_capacity, vec_len};

use std::alloc::AllocError;

// Takes room for so many items more, where it is missing: then for three times as many more as there are, but for 64 at
// least and 4,096 at most, so that a list that grows is seldom moved.
#[inline(always)]
pub fn make_room<T>(list: &mut Vec<T>, more: usize) -> Result<(), AllocError>
    ensures items { list.new.items ≡ list.old.items }
    ensures len { vec_len list.new ≡ vec_len list.old }
    ensures capacity { vec_capacity list.old ≤ vec_capacity list.new }
    ensures ok { OnOk result (vec_len list.new + more ≤ vec_capacity list.new) }
    ensures full { OnErr result (vec_capacity list.old < vec_len list.old + more) }
    ensures err { OnErr result (vec_capacity list.new ≡ vec_capacity list.old) }
{
    let len = list.len();
    if more <= list.capacity() - len {
        return Ok(());
    }
    list.reserve(more.max(len.saturating_mul(3).clamp(64, 4_096)))
}
