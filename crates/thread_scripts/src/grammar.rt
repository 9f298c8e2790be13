ghost use Rattle.std.specs.Prelude.{◌≡◌, ◌≤◌, length, map};
ghost use Rattle.thread_scripts.specs.Faults.{Parses};
ghost use Rattle.thread_scripts.specs.Grammar.{gathered, readings_from, script_of};

use crate::fault::{LineFault, ScriptFault};
use crate::labels::{Label, labels, place_after};
use crate::lines::read_line;
use crate::script::Script;
use crate::words::{SplitLine, split_lines, text_lines};
use posix_terms::Limits;
use std::alloc::Global;

/// The script of these lines.
fn read_lines(alloc: Global, labels: &[Label], split: &[SplitLine]) -> Result<Script, ScriptFault>
    requires { length split.now ≤ Limits.SCRIPT_LINES }
    ensures { Parses result (gathered 1
        (readings_from (map (λ l. (l.name.now, l.place)) labels.now) 0
        (map (λ l. l.text.now) split.now))) }
{
    let mut lines = Vec::new(alloc);
    let mut place = 0;
    for i in 0..split.len() {
        let words = &split[i].words;
        match read_line(alloc, labels, place, words) {
            Ok(Some(line)) => lines.push(line)?,
            Ok(None) => {}
            Err(LineFault::Bad) => return Err(ScriptFault::BadLine(i + 1)),
            Err(LineFault::Memory) => return Err(ScriptFault::Memory),
        }
        place = place_after(place, words);
    }
    Ok(Script::from_vec(lines))
}

/// The script that a text is, or its first bad line.
#[tactic(auto, unfolding(crate::specs::Grammar::script_of))]
pub fn parse(alloc: Global, text: &[u8]) -> Result<Script, ScriptFault>
    ensures { Parses result (script_of text.now) }
{
    let texts = text_lines(alloc, text)?;
    if texts.len() > Limits::SCRIPT_LINES {
        return Err(ScriptFault::TooLong);
    }
    let split = split_lines(alloc, &texts)?;
    let labels = labels(alloc, &split)?;
    read_lines(alloc, &labels, &split)
}
