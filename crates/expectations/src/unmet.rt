ghost use Rattle.std.specs.Prelude.{◌≡◌, All, IfOk, MatchBool, MatchOption, map};
ghost use Rattle.expectations.specs.Places.{calls_of};
ghost use Rattle.expectations.specs.Unmet.{AreMet, IsFirstOfCall, IsFirstUnmet, IsMet, IsUnmet};

use crate::expected::Expectation;
use crate::following::to_next_call;
use posix_terms::{Reply, Row};
use thread_scripts::{Memory, Script, ScriptActor};

/// A reply that does not meet an expectation.
#[derive(Clone, Copy, Debug, PartialEq, Eq)]
pub struct Unmet {
    /// The number of the row that has it, from 0.
    pub row: usize,
    /// The number of the expectation, from 0.
    pub expectation: usize,
}

// Whether the expectation is of this place, and the reply does not meet it.
fn is_unmet(expectation: &Expectation, place: usize, reply: &Reply) -> bool
    ensures { MatchBool result
        (IsUnmet (place, reply.now) expectation.now)
        (IsMet (place, reply.now) expectation.now) }
{
    expectation.place == place && !expectation.wanted.is_met_by(reply)
}

// The first expectation that the reply to the call at this place does not meet.
fn first_of_call(expectations: &[Expectation], place: usize, reply: &Reply) -> Option<usize>
    ensures { MatchOption result
        (AreMet expectations.now (place, reply.now))
        (λ n. IsFirstOfCall expectations.now (place, reply.now) n) }
{
    for (n, expectation) in expectations.iter().enumerate() {
        if is_unmet(expectation, place, reply) {
            return Some(n);
        }
    }
    None
}

/// The first reply of a thread that does not meet an expectation of its call's line. The rows are
/// those of the thread that ran the script, in their order; their replies say which way it went.
/// Rows after the script's last call have no line, and are not looked at.
pub fn first_unmet(
    script: Script,
    expectations: &[Expectation],
    rows: &[Row],
) -> Result<Option<Unmet>, Memory>
    ensures { IfOk result (λ unmet.
        let calls = calls_of script (map (λ row. row.reply) rows.now) in
        MatchOption unmet
        (All (AreMet expectations.now) calls)
        (λ first. IsFirstUnmet expectations.now calls first)) }
{
    let mut actor = ScriptActor::new(script);
    let mut last = None;
    for row in 0..rows.len() {
        if !to_next_call(&mut actor, last)? {
            return Ok(None);
        }
        let reply = &rows[row].reply;
        if let Some(expectation) = first_of_call(expectations, actor.place(), reply) {
            return Ok(Some(Unmet { row, expectation }));
        }
        last = Some(reply);
    }
    Ok(None)
}
