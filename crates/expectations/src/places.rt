ghost use Rattle.std.specs.Prelude.{◌≡◌, ◌∷◌, ◌++◌, [], IfOk, OnOk, map};
ghost use Rattle.expectations.specs.Places.{next_place, places_of};

use crate::following::to_next_call;
use posix_terms::Row;
use std::alloc::{AllocError, Global};
use thread_scripts::{Memory, Script, ScriptActor};

/// The places of a script's calls, each the number of its line in the script, from 1: empty lines
/// and comments are not counted. The rows are those of the thread that ran the script, in their
/// order; their replies say which way it went. Rows after the script's last call have no place.
pub fn call_places(alloc: Global, script: Script, rows: &[Row]) -> Result<Vec<usize>, Memory>
    ensures { IfOk result (λ places.
        places.items ≡ places_of script (map (λ row. row.reply) rows.now)) }
{
    let mut actor = ScriptActor::new(script);
    let mut places = Vec::new(alloc);
    let mut last = None;
    for row in 0..rows.len() {
        if !to_next_call(&mut actor, last)? {
            return Ok(places);
        }
        push_place(&mut places, actor.place())?;
        last = Some(&rows[row].reply);
    }
    Ok(places)
}

/// The place of the call that follows those of the rows, as [`call_places`] has it: None where the
/// script comes to its end first.
pub fn next_call_place(script: Script, rows: &[Row]) -> Result<Option<usize>, Memory>
    ensures { IfOk result (λ place.
        place ≡ next_place script (map (λ row. row.reply) rows.now)) }
{
    let mut actor = ScriptActor::new(script);
    let mut last = None;
    for row in 0..rows.len() {
        if !to_next_call(&mut actor, last)? {
            return Ok(None);
        }
        last = Some(&rows[row].reply);
    }
    let is_there = to_next_call(&mut actor, last)?;
    Ok(is_there.then_some(actor.place()))
}

fn push_place(places: &mut Vec<usize>, place: usize) -> Result<(), AllocError>
    ensures { OnOk result (places.new.items ≡ places.old.items ++ place ∷ []) }
{
    places.push(place)?;
    Ok(())
}
