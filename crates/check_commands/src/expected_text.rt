ghost use Rattle.std.specs.Prelude.{◌≡◌, ◌++◌, ◌∷◌, [], OnOk, codes};
ghost use Rattle.std.specs.Fmt.{decimal};
ghost use Rattle.hex.specs.Hex.{encode_lower};
ghost use Rattle.check_commands.specs.Mistakes.{byte_name, expected_text, flag_words, found_text};
ghost use Rattle.check_commands.specs.Mistakes.{mistake_text, operand_words, quoted};

use command_texts::{push_number, push_word};
use script_checks::{Expected, FlagSet, Found, Mistake, OperandShape};
use std::alloc::AllocError;

/// Adds what was expected and what stands there, as the end of a line.
pub(crate) fn push_mistake(text: &mut Vec<u8>, mistake: &Mistake) -> Result<(), AllocError>
    ensures { OnOk result (text.new.items ≡ text.old.items ++ mistake_text mistake.now) }
{
    push_expected(text, mistake.expected)?;
    push_word(text, " is expected, ")?;
    push_found(text, &mistake.found)?;
    push_word(text, "\n")
}

#[tactic(auto, unfolding(crate::specs::Mistakes::expected_text))]
pub(crate) fn push_expected(text: &mut Vec<u8>, expected: Expected) -> Result<(), AllocError>
    ensures { OnOk result (text.new.items ≡ text.old.items ++ expected_text expected) }
{
    match expected {
        Expected::OtherLabel(line) => push_other_label(text, line),
        Expected::Ascii => push_word(text, "an ASCII character"),
        Expected::Visible => push_word(text, "a visible ASCII character or a space"),
        Expected::Word => push_word(
            text,
            "a call, work, end, set, add, setb, label, jump, jzero or jfail",
        ),
        Expected::Operand(operand) => push_word(text, operand_words(operand)),
        Expected::NumberInRange => push_word(
            text,
            "a number from -9223372036854775808 to 9223372036854775807",
        ),
        Expected::FewerBytes => {
            push_word(text, "x and hexadecimal digits for at most 32767 bytes")
        }
        Expected::LabelName => push_word(text, "a label of 1 to 14 lower-case letters and digits"),
        Expected::Flag(flags) => push_word(text, flag_words(flags)),
        Expected::EndOfLine => push_word(text, "the end of the line"),
        Expected::GoodLine => push_word(text, "another line"),
    }
}

fn push_other_label(text: &mut Vec<u8>, line: usize) -> Result<(), AllocError>
    ensures { OnOk result (
        text.new.items
        ≡ text.old.items ++ codes "another name than that of the label in line " ++ decimal line) }
{
    push_word(text, "another name than that of the label in line ")?;
    push_number(text, line as u64)
}

fn operand_words(operand: OperandShape) -> &'static str
    ensures { result.now ≡ operand_words operand }
{
    match operand {
        OperandShape::Number => "a number or a register r0 to r15",
        OperandShape::Amount => "a number from 0 to 1000000",
        OperandShape::Register => "a register r0 to r15",
        OperandShape::ByteRegister => "a byte register b0 to b3",
        OperandShape::Bytes => {
            "x and an even number of hexadecimal digits, or a byte register b0 to b3,"
        }
        OperandShape::Path => "a path",
        OperandShape::Access => "r, w or rw",
        OperandShape::Whence => "set, cur or end",
        OperandShape::HowToShut => "read, write or both",
        OperandShape::NewLabel => "a label of 1 to 14 lower-case letters and digits",
        OperandShape::KnownLabel => "a label of this script",
    }
}

fn flag_words(flags: FlagSet) -> &'static str
    ensures { result.now ≡ flag_words flags }
{
    match flags {
        FlagSet::Open => "create, excl, trunc, append or nonblock, each at most once,",
        FlagSet::Host => "create, trunc or append, each at most once,",
        FlagSet::Status => "append or nonblock, each at most once,",
    }
}

// How much of a long word is shown.
const SHOWN: usize = 40;

#[tactic(auto, unfolding(crate::specs::Mistakes::found_text))]
pub(crate) fn push_found(text: &mut Vec<u8>, found: &Found) -> Result<(), AllocError>
    ensures { OnOk result (text.new.items ≡ text.old.items ++ found_text found.now) }
{
    match found {
        Found::Word(word) => {
            push_quoted(text, word)?;
            push_word(text, " stands there")
        }
        Found::Byte(byte) => {
            push_byte(text, *byte)?;
            push_word(text, " stands there")
        }
        Found::End => push_word(text, "the line ends here"),
    }
}

/// Adds a word in quotes; of a long one its front, and how long it is.
pub(crate) fn push_quoted(text: &mut Vec<u8>, word: &[u8]) -> Result<(), AllocError>
    ensures { OnOk result (text.new.items ≡ text.old.items ++ quoted word.now) }
{
    push_word(text, "\"")?;
    if word.len() <= SHOWN {
        text.extend_from_slice(word)?;
        return push_word(text, "\"");
    }
    let (front, _) = word.split_at(SHOWN);
    text.extend_from_slice(front)?;
    push_word(text, "..\" of ")?;
    push_number(text, word.len() as u64)?;
    push_word(text, " bytes")
}

// Adds a byte by its number, and by its name where it has one.
fn push_byte(text: &mut Vec<u8>, byte: u8) -> Result<(), AllocError>
    ensures { OnOk result (
        text.new.items
        ≡ text.old.items ++ codes "byte " ++ encode_lower (byte ∷ []) ++ byte_name byte) }
{
    let mut digits = [0; 2];
    push_word(text, "byte ")?;
    hex::encode_to_slice([byte].as_slice(), &mut digits).unwrap();
    text.extend_from_slice(&digits)?;
    push_word(text, byte_name(byte))
}

fn byte_name(byte: u8) -> &'static str
    ensures { result.now ≡ byte_name byte }
{
    match byte {
        b'\0' => ", a zero byte,",
        b'\t' => ", a tab,",
        b'\r' => ", a carriage return,",
        _ => "",
    }
}
