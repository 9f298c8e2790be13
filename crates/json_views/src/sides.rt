ghost use Rattle.std.specs.Prelude.{◌≡◌, ◌++◌, IfOk, OnOk, None, Some, option_copied, true};
ghost use Rattle.serde_json.specs.View.{members_view, view};
ghost use Rattle.json_views.specs.Objects.{with_members};
ghost use Rattle.json_views.specs.Sides.{clock_counted, seen_members, seen_value, side_end_line};
ghost use Rattle.json_views.specs.Sides.{side_end_value, side_place, side_row_line, side_row_value};

use crate::arguments::arguments_value;
use crate::ends::{end_words, outcome_stopped, thread_stopped};
use crate::replies::reply_value;
use crate::values::push_line;
use machine::Stop;
use posix_terms::Row;
use serde_json::{Map, Value, json, put};
use std::alloc::{AllocError, Global};

/// Adds the line of a thread's row of this number, as it is by one of two logs, or by both: an
/// object, and a line feed. Without turns it has no clock. Where there is no row, its members but
/// the thread and the number are null.
#[tactic(auto, unfolding(crate::specs::Sides::side_row_line))]
pub fn push_side_row(
    text: &mut Vec<u8>,
    by: &str,
    turns: bool,
    thread: usize,
    number: usize,
    row: Option<&Row>,
) -> Result<(), AllocError>
    ensures { OnOk result (
        text.new.items
        ≡ text.old.items
        ++ side_row_line by.now turns thread number (option_copied row.entry)) }
{
    let value = side_row_value(*text.allocator(), by, turns, thread, number, row)?;
    push_line(text, &value)
}

fn side_row_value(
    alloc: Global,
    by: &str,
    turns: bool,
    thread: usize,
    number: usize,
    row: Option<&Row>,
) -> Result<Value, AllocError>
    ensures { IfOk result (λ value.
        view value ≡ side_row_value by.now turns thread number (option_copied row.entry)) }
{
    let mut members = Map::new(alloc);
    put_side_place(&mut members, alloc, by, thread, number)?;
    put_seen(&mut members, alloc, turns, row)?;
    Ok(Value::Object(members))
}

// Puts in which row it is, and by which log.
fn put_side_place(
    members: &mut Map<String, Value>,
    alloc: Global,
    by: &str,
    thread: usize,
    number: usize,
) -> Result<(), AllocError>
    ensures { OnOk result (
        members_view members.new.entries
        ≡ with_members (members_view members.old.entries) (side_place by.now thread number)) }
{
    put(members, alloc, "by", json!(in alloc; by)?)?;
    put(members, alloc, "thread", json!(in alloc; thread)?)?;
    put(members, alloc, "row", json!(in alloc; number)?)
}

// Puts in what the thread saw in that row.
fn put_seen(
    members: &mut Map<String, Value>,
    alloc: Global,
    turns: bool,
    row: Option<&Row>,
) -> Result<(), AllocError>
    ensures { OnOk result (
        members_view members.new.entries
        ≡ with_members (members_view members.old.entries)
        (seen_members turns (option_copied row.entry))) }
{
    match row {
        Some(row) => put_row(members, alloc, turns, row),
        None => put_nothing(members, alloc),
    }
}

fn put_row(
    members: &mut Map<String, Value>,
    alloc: Global,
    turns: bool,
    row: &Row,
) -> Result<(), AllocError>
    ensures { OnOk result (
        members_view members.new.entries
        ≡ with_members (members_view members.old.entries) (seen_members turns (Some row.now))) }
{
    let clock = clock_counted(turns, row.turn.clock);
    put(members, alloc, "clock", json!(in alloc; clock)?)?;
    put(
        members,
        alloc,
        "call",
        json!(in alloc; row.call.kind().word())?,
    )?;
    put(
        members,
        alloc,
        "arguments",
        arguments_value(alloc, &row.call)?,
    )?;
    put(members, alloc, "reply", reply_value(alloc, &row.reply)?)
}

// Puts in that there is no such row.
fn put_nothing(members: &mut Map<String, Value>, alloc: Global) -> Result<(), AllocError>
    ensures { OnOk result (
        members_view members.new.entries
        ≡ with_members (members_view members.old.entries) (seen_members true None)) }
{
    put(members, alloc, "clock", Value::Null)?;
    put(members, alloc, "call", Value::Null)?;
    put(members, alloc, "arguments", Value::Null)?;
    put(members, alloc, "reply", Value::Null)
}

fn clock_counted(turns: bool, clock: u64) -> Option<u64>
    ensures { result ≡ clock_counted turns clock }
{
    if turns { Some(clock) } else { None }
}

/// What was seen in a row, without its turn: an object, and null where there is no such row.
pub fn seen_value(alloc: Global, row: Option<&Row>) -> Result<Value, AllocError>
    ensures { IfOk result (λ value. view value ≡ seen_value (option_copied row.entry)) }
{
    let Some(row) = row else {
        return Ok(Value::Null);
    };
    let arguments = arguments_value(alloc, &row.call)?;
    let reply = reply_value(alloc, &row.reply)?;
    json!(in alloc; {
        "call": row.call.kind().word(),
        "arguments": arguments,
        "reply": reply
    })
}

/// Adds the line of how a replay by this log ended: an object, and a line feed.
#[tactic(auto, using(crate::proofs::ExactSides::side_end_exact))]
pub fn push_side_end(text: &mut Vec<u8>, by: &str, stop: Option<Stop>) -> Result<(), AllocError>
    ensures { OnOk result (text.new.items ≡ text.old.items ++ side_end_line by.now stop) }
{
    let value = side_end_value(*text.allocator(), by, stop)?;
    push_line(text, &value)
}

fn side_end_value(alloc: Global, by: &str, stop: Option<Stop>) -> Result<Value, AllocError>
    ensures { IfOk result (λ value. view value ≡ side_end_value by.now stop) }
{
    json!(in alloc; {
        "by": by,
        "end": end_words(stop),
        "thread": thread_stopped(stop),
        "outcome": outcome_stopped(stop)
    })
}
