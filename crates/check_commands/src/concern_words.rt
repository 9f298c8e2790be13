ghost use Rattle.std.specs.Prelude.{◌≡◌, ◌++◌, OnOk, Some, codes, option_map, slice_get};
ghost use Rattle.script_checks.specs.Paths.{refusal_seen};
ghost use Rattle.check_commands.specs.Findings.{concern_word, concern_words, error_words};
ghost use Rattle.check_commands.specs.Findings.{path_in, path_words, refusal_words, text_of};
ghost use Rattle.check_commands.specs.Mistakes.{quoted};

use crate::expected_text::push_quoted;
use command_texts::push_word;
use posix_terms::errno_name;
use script_checks::{Concern, PathFault, PlacedWord, path_fault};
use std::alloc::AllocError;

/// The word of a line, from 0, at which a warning of it stands.
pub(crate) fn concern_word(concern: Concern) -> usize
    ensures { result ≡ concern_word concern }
{
    match concern {
        Concern::UnusedLabel => 1,
        Concern::NeverReached => 0,
        Concern::PathRefused { word } => word,
    }
}

/// Adds what may be wrong with a line that has these words.
#[tactic(auto, unfolding(crate::specs::Findings::concern_words))]
pub(crate) fn push_concern(
    text: &mut Vec<u8>,
    concern: Concern,
    words: &[PlacedWord],
) -> Result<(), AllocError>
    ensures { OnOk result (text.new.items ≡ text.old.items ++ concern_words concern words.now) }
{
    match concern {
        Concern::UnusedLabel => push_unused_label(text, text_of(words, 1)),
        Concern::NeverReached => push_word(text, "this line is never reached"),
        Concern::PathRefused { word } => push_path(text, text_of(words, 0), text_of(words, word)),
    }
}

fn push_unused_label(text: &mut Vec<u8>, name: &[u8]) -> Result<(), AllocError>
    ensures { OnOk result (
        text.new.items ≡ text.old.items ++ codes "no line jumps to the label " ++ name.now) }
{
    push_word(text, "no line jumps to the label ")?;
    Ok(text.extend_from_slice(name)?)
}

// Adds that the call of this word refuses the path of that one, and why.
fn push_path(text: &mut Vec<u8>, name: &[u8], word: &[u8]) -> Result<(), AllocError>
    ensures { OnOk result (text.new.items ≡ text.old.items ++ path_words name.now word.now) }
{
    text.extend_from_slice(name)?;
    push_word(text, " refuses this path")?;
    let fault = path_fault(*text.allocator(), path_in(word))?;
    push_why(text, fault)
}

// Adds why a path is refused, if it is.
#[tactic(auto, unfolding(crate::specs::Findings::error_words))]
fn push_why(text: &mut Vec<u8>, fault: Option<PathFault<'_>>) -> Result<(), AllocError>
    ensures { OnOk result (
        text.new.items ≡ text.old.items ++ error_words (option_map refusal_seen fault.entry)) }
{
    match fault {
        Some(fault) => push_error(text, fault),
        None => Ok(()),
    }
}

// The path that a word names.
fn path_in(word: &[u8]) -> &[u8]
    ensures { result.now ≡ path_in word.now }
{
    if word == b"\"\"".as_slice() {
        &[]
    } else {
        word
    }
}

#[tactic(auto, unfolding(crate::specs::Findings::error_words))]
fn push_error(text: &mut Vec<u8>, fault: PathFault<'_>) -> Result<(), AllocError>
    ensures { OnOk result (
        text.new.items ≡ text.old.items ++ error_words (Some (refusal_seen fault.entry))) }
{
    push_word(text, " with ")?;
    push_word(text, errno_name(fault.error()))?;
    push_word(text, ": ")?;
    push_refusal(text, fault)
}

fn push_refusal(text: &mut Vec<u8>, fault: PathFault<'_>) -> Result<(), AllocError>
    ensures { OnOk result (
        text.new.items ≡ text.old.items ++ refusal_words (refusal_seen fault.entry)) }
{
    match fault {
        PathFault::Empty => push_word(text, "it is empty"),
        PathFault::TooLong => push_word(text, "it has more than 255 bytes"),
        PathFault::Dots(name) => push_dots(text, name),
        PathFault::EndsInSlash => push_word(text, "it ends with a slash"),
        PathFault::LongName(name) => push_long_name(text, name),
    }
}

fn push_dots(text: &mut Vec<u8>, name: &[u8]) -> Result<(), AllocError>
    ensures { OnOk result (
        text.new.items ≡ text.old.items ++ quoted name.now ++ codes " is not a name") }
{
    push_quoted(text, name)?;
    push_word(text, " is not a name")
}

fn push_long_name(text: &mut Vec<u8>, name: &[u8]) -> Result<(), AllocError>
    ensures { OnOk result (
        text.new.items
        ≡ text.old.items
        ++ codes "the name " ++ quoted name.now ++ codes " has more than 14 bytes") }
{
    push_word(text, "the name ")?;
    push_quoted(text, name)?;
    push_word(text, " has more than 14 bytes")
}

/// The text of a word, and nothing where there is none.
pub(crate) fn text_of<'a>(words: &[PlacedWord<'a>], word: usize) -> &'a [u8]
    ensures { result.now ≡ text_of (slice_get words.now word) }
{
    match words.get(word) {
        Some(word) => word.text,
        None => &[],
    }
}
