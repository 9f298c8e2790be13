ghost use Rattle.std.specs.Prelude.{◌≡◌, IfOk, OnOk, map};
ghost use Rattle.answered_calls.specs.OperandsSeen.{operand_seen, value_seen};
ghost use Rattle.serde_json.specs.View.{members_view, view};
ghost use Rattle.json_views.specs.Calls.{arguments_value, member_of, said_value};
ghost use Rattle.json_views.specs.Objects.{with_members};

use crate::flags::flags_value;
use crate::values::{hex_value, text_value};
use answered_calls::{Operand, OperandValue, operands};
use posix_terms::Call;
use serde_json::{Map, Value, put};
use std::alloc::{AllocError, Global};

/// What a call was asked: an object of its operands.
#[tactic(auto, using(crate::proofs::Places::by_place))]
pub(crate) fn arguments_value(alloc: Global, call: &Call) -> Result<Value, AllocError>
    ensures { IfOk result (λ value. view value ≡ arguments_value call.now) }
{
    let operands = operands(call);
    let mut members = Map::new(alloc);
    put_operand(&mut members, alloc, operands.first)?;
    put_operand(&mut members, alloc, operands.second)?;
    put_operand(&mut members, alloc, operands.third)?;
    Ok(Value::Object(members))
}

// Puts an operand into the object, if there is one.
fn put_operand(
    members: &mut Map<String, Value>,
    alloc: Global,
    operand: Option<Operand<'_>>,
) -> Result<(), AllocError>
    ensures { OnOk result (members_view members.new.entries
        ≡ with_members (members_view members.old.entries)
        (map member_of (operand_seen operand.entry))) }
{
    let Some(Operand { name, value }) = operand else {
        return Ok(());
    };
    let value = said_value(alloc, value)?;
    put(members, alloc, name, value)
}

// What an operand says.
fn said_value(alloc: Global, value: OperandValue<'_>) -> Result<Value, AllocError>
    ensures { IfOk result (λ json. view json ≡ said_value (value_seen value.entry)) }
{
    match value {
        OperandValue::Descriptor(number) | OperandValue::Number(number) => Ok(Value::from(number)),
        OperandValue::Bytes(bytes) => hex_value(alloc, bytes.as_slice()),
        OperandValue::Path(path) => text_value(alloc, path),
        OperandValue::Word(word) => Value::try_from_str(alloc, word),
        OperandValue::Flags(flags) => flags_value(alloc, flags),
    }
}
