// Texts of a run as they stand in a page.
ghost use Rattle.std.specs.Prelude.{◌≡◌, ◌++◌, OnOk};
ghost use Rattle.std.specs.List.{flat_map};
ghost use Rattle.run_pictures.specs.Escaped.{asked_escaped, escaped, escaped_byte, reply_escaped};

use command_texts::{push_data, push_reply, push_word};
use posix_terms::{Call, Reply};
use run_views::push_asked;
use std::alloc::{AllocError, Global};

/// Adds a text, so that nothing of it is taken for a part of the page.
pub(crate) fn push_escaped(text: &mut Vec<u8>, bytes: &[u8]) -> Result<(), AllocError>
    ensures { OnOk result (text.new.items ≡ text.old.items ++ escaped bytes.now) }
{
    for byte in bytes {
        push_escaped_byte(text, *byte)?;
    }
    Ok(())
}

fn push_escaped_byte(text: &mut Vec<u8>, byte: u8) -> Result<(), AllocError>
    ensures { OnOk result (text.new.items ≡ text.old.items ++ escaped_byte byte) }
{
    if byte == b'&' {
        push_word(text, "&amp;")
    } else if byte == b'<' {
        push_word(text, "&lt;")
    } else if byte == b'>' {
        push_word(text, "&gt;")
    } else if byte == b'"' {
        push_word(text, "&quot;")
    } else if b' ' <= byte && byte <= b'~' {
        text.push(byte)?;
        Ok(())
    } else {
        push_word(text, "\\x")?;
        push_data(text, &[byte])
    }
}

/// Adds what a call was asked.
#[tactic(auto, unfolding(crate::specs::Escaped::asked_escaped))]
pub(crate) fn push_asked_escaped(
    alloc: Global,
    text: &mut Vec<u8>,
    call: &Call,
) -> Result<(), AllocError>
    ensures { OnOk result (text.new.items ≡ text.old.items ++ asked_escaped call.now) }
{
    let mut asked = Vec::new(alloc);
    push_asked(&mut asked, call)?;
    push_escaped(text, &asked)
}

/// Adds the reply of a call.
#[tactic(auto, unfolding(crate::specs::Escaped::reply_escaped))]
pub(crate) fn push_reply_escaped(
    alloc: Global,
    text: &mut Vec<u8>,
    reply: &Reply,
) -> Result<(), AllocError>
    ensures { OnOk result (text.new.items ≡ text.old.items ++ reply_escaped reply.now) }
{
    let mut shown = Vec::new(alloc);
    push_reply(&mut shown, reply)?;
    push_escaped(text, &shown)
}
