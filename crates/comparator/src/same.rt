ghost use Rattle.std.specs.Prelude.{◌≡◌, ◌↔◌, IsTrue};
ghost use Rattle.comparator.specs.Counted.{counted};

use posix_terms::{Row, equal_ones_are_the_same};

// Whether two rows are equal in the call and in the reply and, where turns count, in the turn.
pub fn same_row(turns: bool, one: &Row, other: &Row) -> bool
    ensures { IsTrue result ↔ (counted turns one.now ≡ counted turns other.now) }
{
    equal_ones_are_the_same();
    if turns {
        one == other
    } else {
        one.call == other.call && one.reply == other.reply
    }
}
