ghost use Rattle.std.specs.Prelude.{◌≡◌, ◌++◌, OnOk, slice_get};
ghost use Rattle.check_commands.specs.Findings.{column_of, if_there, warning_head};
ghost use Rattle.check_commands.specs.Findings.{warning_text, warnings_text};

use crate::concern_words::{concern_word, push_concern};
use crate::positions::push_position;
use command_texts::push_word;
use script_checks::{ActingLine, Concern, PlacedWord, Warning};
use std::alloc::AllocError;

/// Adds the warnings of the script at this path, which has these lines that do something.
pub(crate) fn push_warnings(
    text: &mut Vec<u8>,
    path: &str,
    lines: &[ActingLine],
    warnings: &[Warning],
) -> Result<(), AllocError>
    ensures { OnOk result (
        text.new.items ≡ text.old.items ++ warnings_text path.now lines.now warnings.now) }
{
    for i in 0..warnings.len() {
        push_at_place(text, path, lines, warnings[i])?;
    }
    Ok(())
}

// Adds a warning, if its line is there.
fn push_at_place(
    text: &mut Vec<u8>,
    path: &str,
    lines: &[ActingLine],
    warning: Warning,
) -> Result<(), AllocError>
    ensures { OnOk result (
        text.new.items
        ≡ text.old.items
        ++ if_there (warning_text path.now warning.concern) (slice_get lines.now warning.place)) }
{
    match lines.get(warning.place) {
        Some(line) => push_warning(text, path, line, warning.concern),
        None => Ok(()),
    }
}

fn push_warning(
    text: &mut Vec<u8>,
    path: &str,
    line: &ActingLine,
    concern: Concern,
) -> Result<(), AllocError>
    ensures { OnOk result (
        text.new.items ≡ text.old.items ++ warning_text path.now concern line.now) }
{
    push_warning_head(text, path, line, concern_word(concern))?;
    push_concern(text, concern, &line.words)?;
    push_word(text, "\n")
}

/// Adds the head of a warning at this word of a line.
pub(crate) fn push_warning_head(
    text: &mut Vec<u8>,
    path: &str,
    line: &ActingLine,
    word: usize,
) -> Result<(), AllocError>
    ensures { OnOk result (
        text.new.items ≡ text.old.items ++ warning_head path.now line.now word) }
{
    push_position(text, path, line.number, column_of(&line.words, word))?;
    push_word(text, "warning: ")
}

pub(crate) fn column_of(words: &[PlacedWord], word: usize) -> usize
    ensures { result ≡ column_of (slice_get words.now word) }
{
    match words.get(word) {
        Some(word) => word.column,
        None => 1,
    }
}
