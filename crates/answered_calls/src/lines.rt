ghost use Rattle.std.specs.Prelude.{◌≡◌, IfOk, map};
ghost use Rattle.expectations.specs.Expected.{counts};
ghost use Rattle.thread_scripts.specs.Words.{lines_of};
ghost use Rattle.answered_calls.specs.Lines.{counted_from, line_at, lines_of_calls};
ghost use Rattle.answered_calls.specs.Lines.{next_call_line};

use expectations::{call_places, next_call_place};
use posix_terms::Row;
use std::alloc::{AllocError, Global};
use thread_scripts::{ScriptFault, line_words, parse, text_lines};

/// The lines of a text at which the calls of these rows stand, as far as there are such. There are
/// none where the text is not a script.
pub(crate) fn lines_of_calls(
    alloc: Global,
    text: &[u8],
    rows: &[Row],
) -> Result<Vec<usize>, AllocError>
    ensures { IfOk result (λ lines.
        lines.items ≡ lines_of_calls text.now (map (λ row. row.reply) rows.now)) }
{
    let script = match parse(alloc, text) {
        Ok(script) => script,
        Err(ScriptFault::Memory) => return Err(AllocError),
        Err(ScriptFault::BadLine(_) | ScriptFault::TooLong) => return Ok(Vec::new(alloc)),
    };
    let Ok(places) = call_places(alloc, script, rows) else {
        return Err(AllocError);
    };
    let counted = counted_lines(alloc, text)?;
    lines_of_places(alloc, &counted, &places)
}

/// The number, from 1, of the line of a text that has the next call of its script, after those of
/// these rows: None where the script comes to its end first, and where the text is not a script.
pub fn next_call_line(alloc: Global, text: &[u8], rows: &[Row]) -> Result<Option<usize>, AllocError>
    ensures { IfOk result (λ line.
        line ≡ next_call_line text.now (map (λ row. row.reply) rows.now)) }
{
    let script = match parse(alloc, text) {
        Ok(script) => script,
        Err(ScriptFault::Memory) => return Err(AllocError),
        Err(ScriptFault::BadLine(_) | ScriptFault::TooLong) => return Ok(None),
    };
    let Ok(place) = next_call_place(script, rows) else {
        return Err(AllocError);
    };
    let Some(place) = place else {
        return Ok(None);
    };
    let counted = counted_lines(alloc, text)?;
    Ok(Some(line_at(&counted, place)))
}

// The numbers, from 1, of the lines of a text that are neither empty, nor spaces alone, nor a
// comment.
fn counted_lines(alloc: Global, text: &[u8]) -> Result<Vec<usize>, AllocError>
    ensures { IfOk result (λ numbers. numbers.items ≡ counted_from 1 (lines_of text.now)) }
{
    let lines = text_lines(alloc, text)?;
    let mut numbers = Vec::new(alloc);
    for i in 0..lines.len() {
        if counts(alloc, lines[i])? {
            numbers.push(i + 1)?;
        }
    }
    Ok(numbers)
}

// Whether a line of a text is neither empty, nor spaces alone, nor a comment.
fn counts(alloc: Global, line: &[u8]) -> Result<bool, AllocError>
    ensures { IfOk result (λ is. is ≡ counts line.now) }
{
    match line_words(alloc, line)? {
        Some(words) => Ok(!words.is_empty()),
        None => Ok(true),
    }
}

// The lines with these places: the numbers of those that are counted are given.
fn lines_of_places(
    alloc: Global,
    counted: &[usize],
    places: &[usize],
) -> Result<Vec<usize>, AllocError>
    ensures { IfOk result (λ lines. lines.items ≡ map (line_at counted.now) places.now) }
{
    let mut lines = Vec::new(alloc);
    for place in places {
        lines.push(line_at(counted, *place))?;
    }
    Ok(lines)
}

// The line with this place, from 1, among those that are counted; 0, where there are not so many.
fn line_at(counted: &[usize], place: usize) -> usize
    ensures { result ≡ line_at counted.now place }
{
    counted.get(place.saturating_sub(1)).copied().unwrap_or(0)
}
