ghost use Rattle.std.specs.Prelude.{◌≡◌, ◌↔◌, IsTrue};

use posix_terms::{Call, Outcome, Step, equal_ones_are_the_same};

// Each says that `==` decides which values are equal.

pub fn same_call(one: &Call, other: &Call) -> bool
    ensures { IsTrue result ↔ (one.now ≡ other.now) }
{
    equal_ones_are_the_same();
    one == other
}

pub fn same_step(one: &Step, other: &Step) -> bool
    ensures { IsTrue result ↔ (one.now ≡ other.now) }
{
    match (one, other) {
        (Step::Work(m), Step::Work(n)) => *m == *n,
        (Step::Call(c), Step::Call(d)) => same_call(c, d),
        (Step::End, Step::End) => true,
        _ => false,
    }
}

pub fn same_outcome(one: &Outcome, other: &Outcome) -> bool
    ensures { IsTrue result ↔ (one.now ≡ other.now) }
{
    one == other
}
