ghost use Rattle.std.specs.Prelude.{◌≡◌, ◌≤◌, ◌^◌, IfSome};
ghost use Rattle.thread_scripts.specs.Numbers.{byte_register_of, index_of, natural_of, number_of};
ghost use Rattle.thread_scripts.specs.Numbers.{register_named, register_of, up_to};

use crate::line::{ByteRegister, NumberRegister};

/// The value of one or more digits, if it is at most `limit`. Leading zeros are allowed.
#[tactic(auto, using(crate::proofs::Digits::too_great))]
pub fn natural(text: &[u8], limit: u64) -> Option<u64>
    ensures value { result ≡ up_to limit (natural_of text.now) }
    ensures bound { IfSome result (λ n. n ≤ limit) }
{
    if text.is_empty() {
        return None;
    }
    let mut value = 0u64;
    for digit in text {
        if !digit.is_ascii_digit() {
            return None;
        }
        let next = 10 * value as u128 + (*digit - b'0') as u128;
        if next > limit as u128 {
            return None;
        }
        value = next as u64;
    }
    Some(value)
}

/// The value of digits after an optional minus sign, if it is a number of 64 bits.
pub fn number(text: &[u8]) -> Option<i64>
    ensures { result ≡ number_of text.now }
{
    let (first, digits) = text.split_first()?;
    if *first == b'-' {
        let size = natural(digits, 1 << 63)?;
        Some((-(size as i128)) as i64)
    } else {
        let size = natural(text, i64::MAX as u64)?;
        Some(size as i64)
    }
}

/// The number of a register with this letter, if it is at most `greatest`.
fn register_named(letter: u8, greatest: u64, word: &[u8]) -> Option<u64>
    ensures value { result ≡ register_named letter greatest word.now }
    ensures bound { IfSome result (λ n. n ≤ greatest) }
{
    let (first, digits) = word.split_first()?;
    if *first != letter {
        return None;
    }
    if digits.len() != 1 && (digits.is_empty() || digits[0] == b'0') {
        return None;
    }
    natural(digits, greatest)
}

/// The register that a word names.
#[tactic(auto, unfolding(crate::specs::Numbers::register_of))]
pub fn register(word: &[u8]) -> Option<NumberRegister>
    ensures { result ≡ register_of word.now }
{
    let index = register_named(b'r', 15, word)?;
    Some(NumberRegister::new(index as usize))
}

/// The byte register that a word names.
#[tactic(auto, unfolding(crate::specs::Numbers::byte_register_of))]
pub fn byte_register(word: &[u8]) -> Option<ByteRegister>
    ensures { result ≡ byte_register_of word.now }
{
    let index = register_named(b'b', 3, word)?;
    Some(ByteRegister::new(index as usize))
}
