ghost use Rattle.std.specs.Prelude.{◌≡◌, IfOk, map, option_map};
ghost use Rattle.thread_scripts.specs.Words.{is_ascii, is_comment, lines_of, words_of};

use posix_terms::{pieces, split};
use std::alloc::{AllocError, Global};

fn is_ascii(text: &[u8]) -> bool
    ensures { result ≡ is_ascii text.now }
{
    text.iter().all(|byte| *byte < 128)
}

fn is_comment(text: &[u8]) -> bool
    ensures { result ≡ is_comment text.now }
{
    match text {
        [] => false,
        [first, ..] => *first == b'#',
    }
}

/// The words of a line, if it is ASCII text; a comment has none.
#[tactic(auto, unfolding(crate::specs::Words::words_of))]
pub fn line_words<'a>(alloc: Global, text: &'a [u8]) -> Result<Option<Vec<&'a [u8]>>, AllocError>
    ensures { IfOk result (λ words. option_map (λ v. map (λ w. w.now) v.items) words
        ≡ words_of text.now) }
{
    if !is_ascii(text) {
        return Ok(None);
    }
    if is_comment(text) {
        return Ok(Some(Vec::new(alloc)));
    }
    Ok(Some(pieces(alloc, text, b' ')?))
}

/// A line of a text, with its words.
#[derive(Drop)]
pub(crate) struct SplitLine<'a> {
    pub text: &'a [u8],
    pub words: Option<Vec<&'a [u8]>>,
    ghost split: { option_map (λ v. map (λ w. w.now) v.items) words ≡ words_of text.now },
}

/// Lines with their words.
pub(crate) fn split_lines<'a>(
    alloc: Global,
    texts: &[&'a [u8]],
) -> Result<Vec<SplitLine<'a>>, AllocError>
    ensures { IfOk result (λ ls. map (λ l. l.text.now) ls.items ≡ map (λ t. t.now) texts.now) }
{
    let mut lines = Vec::new(alloc);
    for i in 0..texts.len() {
        let text = texts[i];
        let words = line_words(alloc, text)?;
        lines.push(SplitLine { text, words })?;
    }
    Ok(lines)
}

/// The lines of a text, without their line feeds. The last may lack its own.
pub fn text_lines<'a>(alloc: Global, text: &'a [u8]) -> Result<Vec<&'a [u8]>, AllocError>
    ensures { IfOk result (λ lines. map (λ l. l.now) lines.items ≡ lines_of text.now) }
{
    if text.is_empty() {
        return Ok(Vec::new(alloc));
    }
    let last = text.len() - 1;
    let end = if text[last] == b'\n' {
        last
    } else {
        text.len()
    };
    split(alloc, &text[..end], b'\n')
}
