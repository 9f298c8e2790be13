ghost use Rattle.std.specs.Prelude.{◌≡◌, ◌+◌, All, IfOk, IfSome, length};
ghost use Rattle.script_checks.specs.Columns.{IsColumn, IsWordOf};

use crate::expected::{Expected, Found, Mistake};
use crate::fitting::{expected_for, is_flag};
use crate::labels::NamedLabel;
use crate::operand::{FlagSet, OperandShape};
use crate::shape::shape_of;
use crate::words::{PlacedWord, placed_words};
use std::alloc::{AllocError, Global};

/// Why the line of this number is bad, in a text with these labels: its first byte that cannot be
/// seen or, if all can, the first word that is not as the word at the head of the line asks for.
pub(crate) fn mistake_in<'a>(
    alloc: Global,
    labels: &[NamedLabel],
    number: usize,
    line: &'a [u8],
) -> Result<Mistake<'a>, AllocError>
    ensures { IfOk result (λ mistake. IsColumn line.now mistake.column) }
{
    if let Some(mistake) = unseen(line) {
        return Ok(mistake);
    }
    let words = placed_words(alloc, line)?;
    let mistake = first_mistake(labels, number, line, &words);
    Ok(mistake.unwrap_or(Mistake {
        column: 1,
        expected: Expected::GoodLine,
        found: Found::Word(line),
    }))
}

// The first byte that a line may not have, if it has one: in a comment one that is not ASCII,
// elsewhere one that cannot be seen.
fn unseen<'a>(line: &'a [u8]) -> Option<Mistake<'a>>
    ensures { IfSome result (λ mistake. IsColumn line.now mistake.column) }
{
    let in_comment = matches!(line, [b'#', ..]);
    for (i, byte) in line.iter().enumerate() {
        let expected = if in_comment {
            Expected::Ascii
        } else {
            Expected::Visible
        };
        let good = if in_comment {
            byte.is_ascii()
        } else {
            *byte == b' ' || byte.is_ascii_graphic()
        };
        if !good {
            return Some(Mistake {
                column: i + 1,
                expected,
                found: Found::Byte(*byte),
            });
        }
    }
    None
}

// The first word that is not as the word at the head asks for, if there is one.
fn first_mistake<'a>(
    labels: &[NamedLabel],
    number: usize,
    line: &'a [u8],
    words: &[PlacedWord<'a>],
) -> Option<Mistake<'a>>
    requires { All (λ w. IsWordOf line.now w.text.now w.column) words.now }
    ensures { IfSome result (λ mistake. IsColumn line.now mistake.column) }
{
    let [head, rest @ ..] = words else {
        return None;
    };
    let Some(shape) = shape_of(head.text) else {
        return Some(at_word(Expected::Word, head));
    };
    if let Some(mistake) = wrong_operand(labels, number, line, shape.operands, rest) {
        return Some(mistake);
    }
    let count = shape.operands.len().min(rest.len());
    let surplus = &rest[count..];
    match shape.flags {
        Some(flags) => wrong_flag(line, flags, surplus),
        None => Some(at_word(Expected::EndOfLine, surplus.first()?)),
    }
}

// A mistake at this word: something else is expected.
fn at_word<'a>(expected: Expected, word: &PlacedWord<'a>) -> Mistake<'a>
    ensures { result.column ≡ word.now.column }
{
    Mistake {
        column: word.column,
        expected,
        found: Found::Word(word.text),
    }
}

// The first operand that is missing, or is not as it has to be.
fn wrong_operand<'a>(
    labels: &[NamedLabel],
    number: usize,
    line: &'a [u8],
    operands: &[OperandShape],
    words: &[PlacedWord<'a>],
) -> Option<Mistake<'a>>
    requires { All (λ w. IsWordOf line.now w.text.now w.column) words.now }
    ensures { IfSome result (λ mistake. IsColumn line.now mistake.column) }
{
    for (i, operand) in operands.iter().enumerate() {
        let Some(word) = words.get(i) else {
            return Some(Mistake {
                column: line.len() + 1,
                expected: Expected::Operand(*operand),
                found: Found::End,
            });
        };
        if let Some(expected) = expected_for(labels, number, *operand, word.text) {
            return Some(at_word(expected, word));
        }
    }
    None
}

// The first word that is none of these flags, or stands there already.
fn wrong_flag<'a>(line: &[u8], flags: FlagSet, words: &[PlacedWord<'a>]) -> Option<Mistake<'a>>
    requires { All (λ w. IsWordOf line.now w.text.now w.column) words.now }
    ensures { IfSome result (λ mistake. IsColumn line.now mistake.column) }
{
    for (i, word) in words.iter().enumerate() {
        let again = words[..i].iter().any(|before| before.text == word.text);
        if again || !is_flag(flags, word.text) {
            return Some(at_word(Expected::Flag(flags), word));
        }
    }
    None
}
