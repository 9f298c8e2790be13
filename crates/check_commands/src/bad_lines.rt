ghost use Rattle.std.specs.Prelude.{◌≡◌, ◌++◌, OnOk, codes};
ghost use Rattle.command_texts.specs.Transcripts.{◌+++◌};
ghost use Rattle.check_commands.specs.Findings.{bad_line_text, bad_lines_text, left_out_text};
ghost use Rattle.check_commands.specs.Findings.{more_words};

use crate::expected_text::push_mistake;
use crate::positions::push_position;
use command_texts::{push_number, push_word};
use script_checks::BadLine;
use std::alloc::AllocError;

/// Adds that the script at this path is too long.
pub(crate) fn push_too_long(text: &mut Vec<u8>, path: &str) -> Result<(), AllocError>
    ensures { OnOk result (
        text.new.items ≡ text.old.items ++ (path.now +++ codes ": more than 1,000 lines\n")) }
{
    push_word(text, path)?;
    push_word(text, ": more than 1,000 lines\n")
}

/// Adds the bad lines of the script at this path.
pub(crate) fn push_bad_lines(
    text: &mut Vec<u8>,
    path: &str,
    shown: &[BadLine],
) -> Result<(), AllocError>
    ensures { OnOk result (
        text.new.items ≡ text.old.items ++ bad_lines_text path.now shown.now) }
{
    for i in 0..shown.len() {
        push_bad_line(text, path, &shown[i])?;
    }
    Ok(())
}

#[tactic(auto, unfolding(crate::specs::Findings::bad_line_text))]
fn push_bad_line(text: &mut Vec<u8>, path: &str, bad: &BadLine) -> Result<(), AllocError>
    ensures { OnOk result (text.new.items ≡ text.old.items ++ bad_line_text path.now bad.now) }
{
    push_position(text, path, bad.number, bad.mistake.column)?;
    push_mistake(text, &bad.mistake)
}

/// Adds how many bad lines of the script at this path are left out, if any are.
pub(crate) fn push_left_out(text: &mut Vec<u8>, path: &str, count: usize) -> Result<(), AllocError>
    ensures { OnOk result (text.new.items ≡ text.old.items ++ left_out_text path.now count) }
{
    if count == 0 {
        return Ok(());
    }
    push_word(text, path)?;
    push_word(text, ": ")?;
    push_number(text, count as u64)?;
    push_word(text, more_words(count))
}

fn more_words(count: usize) -> &'static str
    ensures { result.now ≡ more_words count }
{
    if count == 1 {
        " more bad line\n"
    } else {
        " more bad lines\n"
    }
}
