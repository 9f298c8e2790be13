// The operands of calls, each added to a text after a space.
ghost use Rattle.std.specs.Prelude.{◌≡◌, ◌++◌, OnOk};
ghost use Rattle.std.specs.List.{list_all};
ghost use Rattle.run_views.specs.Calls.{bytes_operand, bytes_text, flag_operand, flags_operands};
ghost use Rattle.run_views.specs.Calls.{is_bare, is_plain, is_quotable, number_operand};
ghost use Rattle.run_views.specs.Calls.{path_operand, path_text, word_operand};

use command_texts::{push_data, push_signed, push_word};
use posix_terms::OpenFlags;
use std::alloc::AllocError;

/// Adds a number.
pub(crate) fn push_number_operand(text: &mut Vec<u8>, number: i64) -> Result<(), AllocError>
    ensures { OnOk result (text.new.items ≡ text.old.items ++ number_operand number) }
{
    push_word(text, " ")?;
    push_signed(text, number)
}

/// Adds bytes.
pub(crate) fn push_bytes_operand(text: &mut Vec<u8>, bytes: &[u8]) -> Result<(), AllocError>
    ensures { OnOk result (text.new.items ≡ text.old.items ++ bytes_operand bytes.now) }
{
    push_word(text, " ")?;
    push_bytes(text, bytes)
}

/// Adds a path.
pub(crate) fn push_path_operand(text: &mut Vec<u8>, path: &[u8]) -> Result<(), AllocError>
    ensures { OnOk result (text.new.items ≡ text.old.items ++ path_operand path.now) }
{
    push_word(text, " ")?;
    push_path(text, path)
}

/// Adds a word.
pub(crate) fn push_word_operand(text: &mut Vec<u8>, word: &str) -> Result<(), AllocError>
    ensures { OnOk result (text.new.items ≡ text.old.items ++ word_operand word.now) }
{
    push_word(text, " ")?;
    push_word(text, word)
}

/// Adds the flags that are set.
#[tactic(auto, unfolding(crate::specs::Calls::flags_operands))]
pub(crate) fn push_flags_operands(text: &mut Vec<u8>, flags: OpenFlags) -> Result<(), AllocError>
    ensures { OnOk result (text.new.items ≡ text.old.items ++ flags_operands flags) }
{
    push_flag_operand(text, flags.create, " create")?;
    push_flag_operand(text, flags.exclusive, " excl")?;
    push_flag_operand(text, flags.truncate, " trunc")?;
    push_flag_operand(text, flags.append, " append")?;
    push_flag_operand(text, flags.nonblock, " nonblock")
}

// Adds the word of a flag, if it is set.
fn push_flag_operand(text: &mut Vec<u8>, is_set: bool, word: &str) -> Result<(), AllocError>
    ensures { OnOk result (text.new.items ≡ text.old.items ++ flag_operand is_set word.now) }
{
    if is_set {
        push_word(text, word)
    } else {
        Ok(())
    }
}

// Adds a path: its bytes as they stand, if that can be read back; else in quotes or as digits.
fn push_path(text: &mut Vec<u8>, path: &[u8]) -> Result<(), AllocError>
    ensures { OnOk result (text.new.items ≡ text.old.items ++ path_text path.now) }
{
    if path.is_empty() {
        push_word(text, "\"\"")
    } else if is_bare(path) {
        text.extend_from_slice(path)
    } else if is_quotable(path) {
        push_bytes(text, path)
    } else {
        push_word(text, "\\")?;
        push_data(text, path)
    }
}

// Adds bytes: as text in double quotes, or as hexadecimal digits.
fn push_bytes(text: &mut Vec<u8>, bytes: &[u8]) -> Result<(), AllocError>
    ensures { OnOk result (text.new.items ≡ text.old.items ++ bytes_text bytes.now) }
{
    if !is_quotable(bytes) {
        return push_data(text, bytes);
    }
    push_word(text, "\"")?;
    text.extend_from_slice(bytes)?;
    push_word(text, "\"")
}

fn is_quotable(bytes: &[u8]) -> bool
    ensures { result ≡ is_quotable bytes.now }
{
    !bytes.is_empty() && are_plain(bytes)
}

fn are_plain(bytes: &[u8]) -> bool
    ensures { result ≡ list_all is_plain bytes.now }
{
    bytes.iter().all(|byte| is_plain(*byte))
}

fn is_bare(path: &[u8]) -> bool
    ensures { result ≡ is_bare path.now }
{
    path.iter().all(|byte| is_plain(*byte) && *byte > b' ')
}

fn is_plain(byte: u8) -> bool
    ensures { result ≡ is_plain byte }
{
    b' ' <= byte && byte <= b'~' && byte != b'"' && byte != b'\\'
}
