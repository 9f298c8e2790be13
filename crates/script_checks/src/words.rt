ghost use Rattle.std.specs.Prelude.{◌≡◌, ◌<◌, ◌≤◌, ◌≢◌, All, IfOk, length, slice_index};
ghost use Rattle.script_checks.specs.Columns.{IsWordOf};

use std::alloc::{AllocError, Global};

/// A word of a line, and where it stands.
#[derive(Clone, Copy, Debug)]
pub struct PlacedWord<'a> {
    pub text: &'a [u8],
    /// In bytes, from 1.
    pub column: usize,
}

// Where the word that begins here ends.
fn word_end(line: &[u8], start: usize) -> usize
    requires inside { start < length line.now }
    requires begins { slice_index line.now start ≢ 32 }
    ensures after { start < result }
    ensures within { result ≤ length line.now }
{
    for end in start..line.len() {
        if line[end] == b' ' {
            return end;
        }
    }
    line.len()
}

/// The words of a line, between one or more spaces, whatever bytes they have.
pub(crate) fn placed_words<'a>(
    alloc: Global,
    line: &'a [u8],
) -> Result<Vec<PlacedWord<'a>>, AllocError>
    ensures { IfOk result (λ words. All (λ w. IsWordOf line.now w.text.now w.column) words.items) }
{
    let mut words = Vec::new(alloc);
    let mut start = 0;
    while start < line.len() {
        if line[start] == b' ' {
            start += 1;
        } else {
            let end = word_end(line, start);
            words.push(PlacedWord {
                text: &line[start..end],
                column: start + 1,
            })?;
            start = end;
        }
    }
    Ok(words)
}
