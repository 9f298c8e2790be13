ghost use Rattle.std.specs.Prelude.{◌≡◌, ◌++◌, OnOk};
ghost use Rattle.std.specs.List.{flat_map};
ghost use Rattle.answered_calls.specs.OperandsSeen.{operand_seen, value_seen};
ghost use Rattle.run_views.specs.Calls.{asked_text, operand_text, operands_text, said_text};

use crate::operands::{
    push_bytes_operand, push_flags_operands, push_number_operand, push_path_operand,
    push_word_operand,
};
use answered_calls::{Operand, OperandValue, operands};
use command_texts::push_word;
use posix_terms::Call;
use std::alloc::AllocError;

/// Adds what a call was asked, as the line of a script has it, with values in place of registers.
#[tactic(auto, unfolding(crate::specs::Calls::asked_text))]
pub fn push_asked(text: &mut Vec<u8>, call: &Call) -> Result<(), AllocError>
    ensures { OnOk result (text.new.items ≡ text.old.items ++ asked_text call.now) }
{
    push_word(text, call.kind().word())?;
    push_operands(text, call)
}

// Adds the operands of a call.
#[tactic(auto, using(crate::proofs::Places::by_place))]
fn push_operands(text: &mut Vec<u8>, call: &Call) -> Result<(), AllocError>
    ensures { OnOk result (text.new.items ≡ text.old.items ++ operands_text call.now) }
{
    let operands = operands(call);
    push_operand(text, operands.first)?;
    push_operand(text, operands.second)?;
    push_operand(text, operands.third)
}

// Adds an operand, if there is one.
fn push_operand(text: &mut Vec<u8>, operand: Option<Operand<'_>>) -> Result<(), AllocError>
    ensures { OnOk result (
        text.new.items
        ≡ text.old.items ++ flat_map operand_text (operand_seen operand.entry)) }
{
    match operand {
        Some(operand) => push_value(text, operand.value),
        None => Ok(()),
    }
}

// Adds what an operand says.
fn push_value(text: &mut Vec<u8>, value: OperandValue<'_>) -> Result<(), AllocError>
    ensures { OnOk result (
        text.new.items ≡ text.old.items ++ said_text (value_seen value.entry)) }
{
    match value {
        OperandValue::Descriptor(number) | OperandValue::Number(number) => {
            push_number_operand(text, number)
        }
        OperandValue::Bytes(bytes) => push_bytes_operand(text, bytes.as_slice()),
        OperandValue::Path(path) => push_path_operand(text, path),
        OperandValue::Word(word) => push_word_operand(text, word),
        OperandValue::Flags(flags) => push_flags_operands(text, flags),
    }
}
