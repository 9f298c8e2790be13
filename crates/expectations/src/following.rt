// A script that is followed by the replies of its thread.
ghost use Rattle.std.specs.Prelude.{◌≡◌, IfOk, None, Some, false, if◌then◌else◌, nat_lt};
ghost use Rattle.std.specs.Prelude.{option_copied, ℕ};
ghost use Rattle.expectations.specs.CutOff.{is_early};
ghost use Rattle.expectations.specs.Places.{call_after, past_works};

use posix_terms::{Reply, Step};
use thread_scripts::{Actor, Memory, ScriptActor, runs_end};

// Brings a script past its next call, given the last reply, and returns whether there is one. Where
// there is none it has come to its end.
pub fn to_next_call(actor: &mut ScriptActor, last: Option<&Reply>) -> Result<bool, Memory>
    ensures call { IfOk result (λ more.
        call_after (option_copied last.entry) actor.old ≡ (if more then Some actor.new else None)) }
    ensures end { IfOk result (λ more. (lines : ℕ) →
        is_early lines (past_works (option_copied last.entry) actor.old).0
        (past_works (option_copied last.entry) actor.old).1
        ≡ (if more then false else nat_lt actor.new.place lines)) }
{
    runs_end();
    let mut last = last;
    loop {
        match actor.next(last)? {
            Step::Call(_) => return Ok(true),
            Step::Work(_) => last = None,
            Step::End => return Ok(false),
        }
    }
}
