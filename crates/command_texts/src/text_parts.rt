// What the lines of transcripts and logs are made of, each added at the end of a text.
ghost use Rattle.std.specs.Prelude.{◌≡◌, ◌++◌, OnOk, codes};
ghost use Rattle.std.specs.Fmt.{decimal, signed_decimal};
ghost use Rattle.command_texts.specs.Transcripts.{data_text};

use itoa::{Buffer, Integer};
use std::alloc::AllocError;

/// Adds a word at the end of a text.
pub fn push_word(text: &mut Vec<u8>, word: &str) -> Result<(), AllocError>
    ensures { OnOk result (text.new.items ≡ text.old.items ++ word.now) }
{
    text.extend_from_slice(word.as_bytes())
}

/// Adds a number in decimal at the end of a text. Most numbers of a line have one digit.
#[inline(always)]
#[tactic(auto, using(std::proofs::lemmas::Fmt::decimal_digit))]
pub fn push_number(text: &mut Vec<u8>, number: u64) -> Result<(), AllocError>
    ensures { OnOk result (text.new.items ≡ text.old.items ++ decimal number) }
{
    if number < 10 {
        text.push(b'0' + number as u8)?;
        return Ok(());
    }
    push_digits(text, number)
}

/// Adds a number in decimal, with a sign where it is below zero.
#[inline(always)]
pub fn push_signed(text: &mut Vec<u8>, number: i64) -> Result<(), AllocError>
    ensures { OnOk result (text.new.items ≡ text.old.items ++ signed_decimal number) }
{
    if number >= 0 {
        return push_number(text, number as u64);
    }
    push_digits(text, number)
}

// Adds the text of a number.
fn push_digits<I: Integer>(text: &mut Vec<u8>, number: I) -> Result<(), AllocError>
    ensures { OnOk result (text.new.items ≡ text.old.items ++ I.text number) }
{
    let mut digits = Buffer::new();
    push_word(text, digits.format(number))
}

/// Adds where a line of a thread stands: the thread, and the number of the line among its own.
pub fn push_place(text: &mut Vec<u8>, thread: u64, number: u64) -> Result<(), AllocError>
    ensures { OnOk result (text.new.items
        ≡ text.old.items ++ decimal thread ++ codes " " ++ decimal number ++ codes " ") }
{
    push_number(text, thread)?;
    push_word(text, " ")?;
    push_number(text, number)?;
    push_word(text, " ")
}

/// Adds bytes as hexadecimal digits, and `-` for none.
pub fn push_data(text: &mut Vec<u8>, bytes: &[u8]) -> Result<(), AllocError>
    ensures { OnOk result (text.new.items ≡ text.old.items ++ data_text bytes.now) }
{
    if bytes.is_empty() {
        return push_word(text, "-");
    }
    let digits = 2 * bytes.len();
    // Where there is room for the digits, the sum does not wrap.
    text.reserve(digits)?;
    let start = text.len();
    text.resize(start + digits, 0)?;
    hex::encode_to_slice(bytes, &mut text[start..]).unwrap();
    Ok(())
}
