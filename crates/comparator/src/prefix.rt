ghost use Rattle.std.specs.Prelude.{◌↔◌, IsTrue};
ghost use Rattle.std.specs.List.{AllZip};
ghost use Rattle.comparator.specs.Comparison.{IsPrefixOf};

use posix_terms::{Row, Transcripts, equal_ones_are_the_same};

/// Whether each thread's transcript in `a` is a prefix of that thread's in `b`, with as many threads in both.
pub fn prefix_of(a: &Transcripts, b: &Transcripts) -> bool
    ensures { IsTrue result ↔ AllZip IsPrefixOf a.now b.now }
{
    if a.threads().len() != b.threads().len() {
        return false;
    }
    for (one, other) in a.threads().iter().zip(b.threads()) {
        if !is_prefix(one.rows(), other.rows()) {
            return false;
        }
    }
    true
}

// Whether the second begins with the rows of the first.
fn is_prefix(front: &[Row], whole: &[Row]) -> bool
    ensures { IsTrue result ↔ IsPrefixOf front.now whole.now }
{
    equal_ones_are_the_same();
    whole.starts_with(front)
}
