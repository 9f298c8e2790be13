ghost use Rattle.std.specs.Prelude.{◌≡◌, IfOk, map};
ghost use Rattle.expectations.specs.CutOff.{is_cut_off};

use crate::following::to_next_call;
use posix_terms::Row;
use thread_scripts::{Memory, Script, ScriptActor};

/// Whether a thread ended before its script did, since it had executed as many lines as a thread
/// may. The rows are those of the thread that ran the script, in their order; their replies say
/// which way it went. A thread with another call to make has not ended.
pub fn is_cut_off(script: Script, rows: &[Row]) -> Result<bool, Memory>
    ensures { IfOk result (λ cut. cut ≡ is_cut_off script (map (λ row. row.reply) rows.now)) }
{
    let lines = script.lines().len();
    let mut actor = ScriptActor::new(script);
    let mut last = None;
    for row in 0..rows.len() {
        if !to_next_call(&mut actor, last)? {
            return Ok(false);
        }
        last = Some(&rows[row].reply);
    }
    Ok(!to_next_call(&mut actor, last)? && actor.place() < lines)
}
