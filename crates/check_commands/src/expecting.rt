ghost use Rattle.std.specs.Prelude.{◌≡◌, ◌++◌, [], IfOk, OnOk};
ghost use Rattle.check_commands.specs.Expecting.{AddsBad, bad_text, reason_words};

use crate::positions::push_position;
use command_texts::push_word;
use expectations::{ExpectationFault, Reason, expectations_of};
use std::alloc::{AllocError, Global};

/// The line for the first bad expectation of this text, which is that of the script at this path;
/// nothing where all are good. Whether the text is a script is not looked at.
pub fn bad_expectation_line(alloc: Global, path: &str, text: &[u8]) -> Result<Vec<u8>, AllocError>
    ensures { IfOk result (λ line. AddsBad path.now text.now [] line.items) }
{
    let mut line = Vec::new(alloc);
    push_bad(alloc, &mut line, path, text)?;
    Ok(line)
}

// Adds a line for the first bad expectation of a text, if it has one.
fn push_bad(alloc: Global, output: &mut Vec<u8>, path: &str, text: &[u8]) -> Result<(), AllocError>
    ensures { OnOk result (AddsBad path.now text.now output.old.items output.new.items) }
{
    match expectations_of(alloc, text) {
        Ok(_) => Ok(()),
        Err(ExpectationFault::Bad { line, reason }) => push_reason(output, path, line, reason),
        Err(ExpectationFault::Memory) => Err(AllocError),
    }
}

fn push_reason(
    output: &mut Vec<u8>,
    path: &str,
    line: usize,
    reason: Reason,
) -> Result<(), AllocError>
    ensures { OnOk result (output.new.items ≡ output.old.items ++ bad_text path.now line reason) }
{
    push_position(output, path, line, 1)?;
    push_word(output, reason_words(reason))
}

fn reason_words(reason: Reason) -> &'static str
    ensures { result.now ≡ reason_words reason }
{
    match reason {
        Reason::Words => "bad expectation: not the words of a reply\n",
        Reason::NothingAbove => "bad expectation: no call above\n",
        Reason::NotACall => "bad expectation: the line above is not a call\n",
    }
}
