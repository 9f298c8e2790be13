ghost use Rattle.std.specs.Prelude.{◌≡◌};
ghost use Rattle.std.specs.Bool.{Decides};
ghost use Rattle.posix_terms.specs.Calls.{Call};
ghost use Rattle.posix_terms.specs.declared.transcript.Row.{Row};

/// The law of `==`: of two calls, and of two rows, it tells whether they are the same. The body is empty: the contract
/// is the law.
pub fn equal_ones_are_the_same()
    ensures calls { (a b : Call) → Decides (⟦<crate::call::Call as PartialEq>⟧.eq a b) (a ≡ b) }
    ensures rows { (a b : Row) → Decides (⟦<crate::transcript::Row as PartialEq>⟧.eq a b) (a ≡ b) }
{}
