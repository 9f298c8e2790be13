use crate::expected::Expected;
use crate::labels::{NamedLabel, is_label_name, line_of_label};
use crate::operand::{FlagSet, OperandShape};
use posix_terms::Limits;
use thread_scripts::{byte_register, natural, number, register};

// What is expected in place of this word, where a line has this number and this operand there; none
// where it is good.
pub(crate) fn expected_for(
    labels: &[NamedLabel],
    line: usize,
    operand: OperandShape,
    word: &[u8],
) -> Option<Expected> {
    match operand {
        OperandShape::Number => expected_number(word),
        OperandShape::Bytes => expected_bytes(word),
        OperandShape::NewLabel => expected_new_label(labels, line, word),
        _ if fits(labels, operand, word) => None,
        _ => Some(Expected::Operand(operand)),
    }
}

// Whether a word is good as an operand of any other kind.
fn fits(labels: &[NamedLabel], operand: OperandShape, word: &[u8]) -> bool {
    match operand {
        OperandShape::Amount => natural(word, Limits::WORK).is_some(),
        OperandShape::Register => register(word).is_some(),
        OperandShape::ByteRegister => byte_register(word).is_some(),
        OperandShape::Access => {
            word == b"r".as_slice() || word == b"w".as_slice() || word == b"rw".as_slice()
        }
        OperandShape::Whence => {
            word == b"set".as_slice() || word == b"cur".as_slice() || word == b"end".as_slice()
        }
        OperandShape::HowToShut => {
            word == b"read".as_slice() || word == b"write".as_slice() || word == b"both".as_slice()
        }
        OperandShape::KnownLabel => line_of_label(labels, word).is_some(),
        // Any word that can be seen is a path; the others are asked for elsewhere.
        OperandShape::Path | OperandShape::Number | OperandShape::Bytes | OperandShape::NewLabel =>
            true,
    }
}

fn expected_number(word: &[u8]) -> Option<Expected> {
    if number(word).is_some() || register(word).is_some() {
        None
    } else if is_decimal(word) {
        Some(Expected::NumberInRange)
    } else {
        Some(Expected::Operand(OperandShape::Number))
    }
}

// Whether a word is digits after an optional minus sign.
fn is_decimal(word: &[u8]) -> bool {
    let digits = match word {
        [b'-', digits @ ..] => digits,
        _ => word,
    };
    !digits.is_empty() && digits.iter().all(|byte| byte.is_ascii_digit())
}

fn expected_bytes(word: &[u8]) -> Option<Expected> {
    if byte_register(word).is_some() {
        return None;
    }
    let [b'x', digits @ ..] = word else {
        return Some(Expected::Operand(OperandShape::Bytes));
    };
    if digits.len() % 2 != 0 || !digits.iter().all(|byte| byte.is_ascii_hexdigit()) {
        Some(Expected::Operand(OperandShape::Bytes))
    } else if digits.len() / 2 > Limits::COUNT {
        Some(Expected::FewerBytes)
    } else {
        None
    }
}

// A label's line is good if it is the first of its name.
fn expected_new_label(labels: &[NamedLabel], line: usize, word: &[u8]) -> Option<Expected> {
    if !is_label_name(word) {
        return Some(Expected::LabelName);
    }
    match line_of_label(labels, word) {
        Some(first) if first < line => Some(Expected::OtherLabel(first)),
        _ => None,
    }
}

// Whether a word is one of these flags.
pub(crate) fn is_flag(flags: FlagSet, word: &[u8]) -> bool {
    let append = word == b"append".as_slice();
    let nonblock = word == b"nonblock".as_slice();
    let open = word == b"create".as_slice() || word == b"trunc".as_slice();
    match flags {
        FlagSet::Open => append || nonblock || open || word == b"excl".as_slice(),
        FlagSet::Host => append || open,
        FlagSet::Status => append || nonblock,
    }
}
