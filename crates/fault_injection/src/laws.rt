ghost use Rattle.fault_injection.specs.Laws.{CasesDiffer};

/// The law of cases: in none of those of [`fault_cases`](crate::fault_cases) are the outcomes the
/// same as without it. So each is of an outcome that is there, and none is the recorded run.
pub fn cases_differ()
    ensures { CasesDiffer }
{}
