ghost use Rattle.comparator.specs.Comparison.{OneVerdict, OneVerdictBy};

/// There is one verdict on the transcripts of two runs, whether turns count or not: so `compare` and
/// `compare_by` give no other. The body is empty: the contract is the law.
pub fn one_verdict()
    ensures whole { OneVerdict }
    ensures by { OneVerdictBy }
{}
