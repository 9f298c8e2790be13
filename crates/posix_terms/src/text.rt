ghost use Rattle.std.specs.Prelude.{◌≡◌, ◌==◌, IfOk, map};
ghost use Rattle.std.specs.List.{slice_split};
ghost use Rattle.posix_terms.specs.Text.{pieces_of};

use std::alloc::{AllocError, Global};

/// The pieces of a text between the separators, without the empty ones: the words of a line, the
/// components of a path.
pub fn pieces<'a>(alloc: Global, text: &'a [u8], separator: u8) -> Result<Vec<&'a [u8]>, AllocError>
    ensures { IfOk result (λ pieces. map (λ p. p.now) pieces.items ≡ pieces_of separator text.now) }
{
    let all = split(alloc, text, separator)?;
    let mut pieces = Vec::new(alloc);
    for piece in &all {
        if !piece.is_empty() {
            pieces.push(*piece)?;
        }
    }
    Ok(pieces)
}

/// The pieces of a text between the separators, with the empty ones.
pub fn split<'a>(alloc: Global, text: &'a [u8], separator: u8) -> Result<Vec<&'a [u8]>, AllocError>
    ensures { IfOk result (λ pieces. map (λ p. p.now) pieces.items
        ≡ slice_split (λ b. b == separator) text.now) }
{
    text.split(|b| *b == separator).collect(alloc)
}
