ghost use Rattle.std.specs.Prelude.{◌≡◌, MatchOption, map};
ghost use Rattle.comparator.specs.Comparison.{IsFirstDifference, IsVerdictBy, IsVerdictOn};
ghost use Rattle.comparator.specs.Counted.{counted};

use crate::same::same_row;
use posix_terms::{Row, Transcript, Transcripts};

/// What the comparison of the transcripts of two runs tells.
#[derive(Clone, Copy, Debug, PartialEq, Eq)]
pub enum Verdict {
    /// There are as many threads on both sides, and each has the same rows.
    Same,
    /// The least thread that differs, and the least of its rows that does, both counted from 0. Where one transcript is
    /// shorter, it is the row after its last; where one side lacks the thread, it is the first, 0.
    Differs { thread: usize, row: usize },
}

/// Compares the transcripts of two runs. Rows are compared whole: call, turn and reply.
pub fn compare(a: &Transcripts, b: &Transcripts) -> Verdict
    ensures { IsVerdictOn a.now b.now result }
{
    compare_by(true, a, b)
}

/// The same, by what is said to count: without `turns`, by the calls and the replies alone, so rows
/// whose clocks alone are others are the same.
#[tactic(auto, using(crate::proofs::Counting::verdict_by))]
pub fn compare_by(turns: bool, a: &Transcripts, b: &Transcripts) -> Verdict
    ensures { IsVerdictBy turns a.now b.now result }
{
    verdict_on(turns, a.threads(), b.threads())
}

// The verdict on what is compared of these transcripts.
fn verdict_on(turns: bool, some: &[Transcript], others: &[Transcript]) -> Verdict
    ensures { IsVerdictOn
        (map (map (counted turns)) some.now) (map (map (counted turns)) others.now) result }
{
    for (thread, one) in some.iter().enumerate() {
        let Some(other) = others.get(thread) else {
            return Verdict::Differs { thread, row: 0 };
        };
        if let Some(row) = first_difference(turns, one.rows(), other.rows()) {
            return Verdict::Differs { thread, row };
        }
    }
    if some.len() < others.len() {
        return Verdict::Differs {
            thread: some.len(),
            row: 0,
        };
    }
    Verdict::Same
}

// The least row at which the two differ, if they do.
fn first_difference(turns: bool, some: &[Row], others: &[Row]) -> Option<usize>
    ensures { MatchOption result
        (map (counted turns) some.now ≡ map (counted turns) others.now)
        (λ row. IsFirstDifference
        (map (counted turns) some.now) (map (counted turns) others.now) row) }
{
    for (row, one) in some.iter().enumerate() {
        match others.get(row) {
            Some(other) if same_row(turns, one, other) => {}
            _ => return Some(row),
        }
    }
    (some.len() < others.len()).then_some(some.len())
}
