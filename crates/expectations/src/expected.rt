ghost use Rattle.std.specs.Prelude.{◌≡◌, IfOk, IfErr};
ghost use Rattle.thread_scripts.specs.Words.{lines_of};
ghost use Rattle.expectations.specs.Expected.{AreExpectations, IsFault};

use crate::above::Above;
use crate::fault::ExpectationFault;
use crate::wanted::Wanted;
use std::alloc::Global;
use thread_scripts::text_lines;

/// What a line of a text expects, and of which call.
#[derive(Debug, PartialEq, Eq, Drop)]
pub struct Expectation {
    /// The number of its own line in the text, from 1.
    pub line: usize,
    /// The number of its call's line in the text, from 1.
    pub call: usize,
    /// The number of its call's line in the script, from 1: empty lines and comments are not
    /// counted. A `ScriptActor` that has just given that call has this `place`.
    pub place: usize,
    /// What the reply is to be.
    pub wanted: Wanted,
}

/// The expectations of a script's text, in the order of their lines, or the first bad one. Other
/// lines need not be good: a line whose first word names a call is a call line, whatever follows,
/// and any other bad line is not. The text may be longer than a script's.
pub fn expectations_of(alloc: Global, text: &[u8]) -> Result<Vec<Expectation>, ExpectationFault>
    ensures ok { IfOk result (λ expectations.
        AreExpectations (lines_of text.now) expectations.items) }
    ensures err { IfErr result (λ fault. IsFault (lines_of text.now) fault) }
{
    let lines = text_lines(alloc, text)?;
    let mut expectations = Vec::new(alloc);
    let mut above = Above {
        lines: 0,
        last: 0,
        is_call: false,
        place: 0,
    };
    for i in 0..lines.len() {
        if let Some(expectation) = above.expected(alloc, lines[i])? {
            expectations.push(expectation)?;
        }
        above = above.with_line(alloc, lines[i])?;
    }
    Ok(expectations)
}
