ghost use Rattle.std.specs.Prelude.{◌≡◌, [], IfOk, replicate};

use posix_terms::Outcomes;
use std::alloc::{AllocError, Global};

/// The outcomes of so many scripts, where nothing comes from outside.
pub fn no_outcomes(alloc: Global, scripts: usize) -> Result<Vec<Outcomes>, AllocError>
    ensures { IfOk result (λ outcomes. outcomes.items ≡ replicate scripts []) }
{
    let mut outcomes = Vec::new(alloc);
    for _ in 0..scripts {
        outcomes.push(Outcomes::from_vec(Vec::new(alloc)))?;
    }
    Ok(outcomes)
}
