ghost use Rattle.std.specs.Prelude.{◌≡◌, ◌++◌, IfOk, OnOk};
ghost use Rattle.serde_json.specs.View.{members_view, view};
ghost use Rattle.answered_calls.specs.Seen.{seen};
ghost use Rattle.json_views.specs.Objects.{with_members};
ghost use Rattle.json_views.specs.Rows.{course_of, place_of, row_line, row_value};

use crate::arguments::arguments_value;
use crate::replies::reply_value;
use crate::values::push_line;
use answered_calls::AnsweredCall;
use serde_json::{Map, Value, json, put};
use std::alloc::{AllocError, Global};

/// Adds the line of a call that was answered: an object, and a line feed.
pub fn push_row_json(text: &mut Vec<u8>, call: &AnsweredCall<'_>) -> Result<(), AllocError>
    ensures { OnOk result (text.new.items ≡ text.old.items ++ row_line (seen call.now)) }
{
    let value = row_value(*text.allocator(), call)?;
    push_line(text, &value)
}

fn row_value(alloc: Global, call: &AnsweredCall<'_>) -> Result<Value, AllocError>
    ensures { IfOk result (λ value. view value ≡ row_value (seen call.now)) }
{
    let mut members = Map::new(alloc);
    put_place(&mut members, alloc, call)?;
    put_course(&mut members, alloc, call)?;
    Ok(Value::Object(members))
}

// Puts in where the call stands.
fn put_place(
    members: &mut Map<String, Value>,
    alloc: Global,
    call: &AnsweredCall<'_>,
) -> Result<(), AllocError>
    ensures { OnOk result (
        members_view members.new.entries
        ≡ with_members (members_view members.old.entries) (place_of (seen call.now))) }
{
    put(members, alloc, "thread", json!(in alloc; call.thread)?)?;
    put(members, alloc, "row", json!(in alloc; call.number)?)?;
    put(members, alloc, "line", json!(in alloc; call.line)?)?;
    put(
        members,
        alloc,
        "clock",
        json!(in alloc; call.row.turn.clock)?,
    )
}

// Puts in what the call was asked, what it got, and how it came to that.
fn put_course(
    members: &mut Map<String, Value>,
    alloc: Global,
    call: &AnsweredCall<'_>,
) -> Result<(), AllocError>
    ensures { OnOk result (
        members_view members.new.entries
        ≡ with_members (members_view members.old.entries) (course_of (seen call.now))) }
{
    put(
        members,
        alloc,
        "call",
        json!(in alloc; call.row.call.kind().word())?,
    )?;
    put(
        members,
        alloc,
        "arguments",
        arguments_value(alloc, &call.row.call)?,
    )?;
    put(
        members,
        alloc,
        "reply",
        reply_value(alloc, &call.row.reply)?,
    )?;
    put(members, alloc, "outcome", json!(in alloc; call.outcome)?)?;
    put(members, alloc, "blocked", json!(in alloc; call.blocked)?)
}
