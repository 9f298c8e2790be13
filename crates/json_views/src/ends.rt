ghost use Rattle.std.specs.Prelude.{◌≡◌, ◌++◌, [], IfOk, OnOk, map, option_copied};
ghost use Rattle.std.specs.Bool.{then_some};
ghost use Rattle.std.specs.List.{flat_map};
ghost use Rattle.serde_json.specs.View.{members_view, view};
ghost use Rattle.answered_calls.specs.Seen.{seen};
ghost use Rattle.json_views.specs.Ends.{end_line, end_members, end_value, end_words};
ghost use Rattle.json_views.specs.Ends.{outcome_stopped, run_json};
ghost use Rattle.json_views.specs.Ends.{status_with, thread_stopped, unmet_value};
ghost use Rattle.json_views.specs.Objects.{with_members};
ghost use Rattle.json_views.specs.Rows.{row_line};

use crate::rows::push_row_json;
use crate::values::{push_line, text_value};
use answered_calls::AnsweredCall;
use command_texts::{Printed, end_status};
use machine::Stop;
use posix_terms::Bytes;
use serde_json::{Map, Value, json, put};
use std::alloc::{AllocError, Global};

/// What is to be printed in JSON for a run with these calls that ended so: the line of each call,
/// and the last one, which has what is printed, without its line feed, of the first reply that is
/// not as expected, if there is one. It fails only where there is no memory.
pub fn run_json(
    alloc: Global,
    calls: &[AnsweredCall<'_>],
    stop: Option<Stop>,
    unmet: Option<&[u8]>,
) -> Result<Printed, AllocError>
    ensures { IfOk result (λ printed.
        printed ≡ run_json (map seen calls.now) stop (option_copied unmet.entry)) }
{
    let status = status_with(stop, unmet.is_some());
    let mut output = Vec::new(alloc);
    push_rows(&mut output, calls)?;
    push_end(&mut output, stop, status, unmet)?;
    Ok(Printed {
        status,
        output: Bytes::from_vec(output),
        errors: Bytes::from_vec(Vec::new(alloc)),
    })
}

// The status of a run that ended so, and in which a reply was not as expected, or none.
fn status_with(stop: Option<Stop>, is_unmet: bool) -> u8
    ensures { result ≡ status_with stop (then_some is_unmet []) }
{
    if is_unmet && stop.is_none() {
        1
    } else {
        end_status(stop)
    }
}

fn push_rows(text: &mut Vec<u8>, calls: &[AnsweredCall<'_>]) -> Result<(), AllocError>
    ensures { OnOk result (
        text.new.items ≡ text.old.items ++ flat_map row_line (map seen calls.now)) }
{
    for call in calls {
        push_row_json(text, call)?;
    }
    Ok(())
}

// Adds the last line of a run.
#[tactic(auto, using(crate::proofs::ExactEnds::end_exact))]
fn push_end(
    text: &mut Vec<u8>,
    stop: Option<Stop>,
    status: u8,
    unmet: Option<&[u8]>,
) -> Result<(), AllocError>
    ensures { OnOk result (
        text.new.items ≡ text.old.items ++ end_line stop status (option_copied unmet.entry)) }
{
    let value = end_value(*text.allocator(), stop, status, unmet)?;
    push_line(text, &value)
}

fn end_value(
    alloc: Global,
    stop: Option<Stop>,
    status: u8,
    unmet: Option<&[u8]>,
) -> Result<Value, AllocError>
    ensures { IfOk result (λ value.
        view value ≡ end_value stop status (option_copied unmet.entry)) }
{
    let unmet = unmet_value(alloc, unmet)?;
    json!(in alloc; {
        "end": end_words(stop),
        "thread": thread_stopped(stop),
        "outcome": outcome_stopped(stop),
        "status": status,
        "unmet": unmet
    })
}

/// Puts in how a run ended, with the thread and the outcome that this is about.
pub fn put_end(
    members: &mut Map<String, Value>,
    alloc: Global,
    stop: Option<Stop>,
) -> Result<(), AllocError>
    ensures { OnOk result (
        members_view members.new.entries
        ≡ with_members (members_view members.old.entries) (end_members stop)) }
{
    put(members, alloc, "end", json!(in alloc; end_words(stop))?)?;
    put(
        members,
        alloc,
        "thread",
        json!(in alloc; thread_stopped(stop))?,
    )?;
    put(
        members,
        alloc,
        "outcome",
        json!(in alloc; outcome_stopped(stop))?,
    )
}

/// What is printed, without its line feed, of the first reply that is not as expected; null, where
/// there is none.
pub fn unmet_value(alloc: Global, unmet: Option<&[u8]>) -> Result<Value, AllocError>
    ensures { IfOk result (λ value. view value ≡ unmet_value (option_copied unmet.entry)) }
{
    match unmet {
        Some(line) => text_value(alloc, line),
        None => Ok(Value::Null),
    }
}

pub(crate) fn end_words(stop: Option<Stop>) -> &'static str
    ensures { result.now ≡ end_words stop }
{
    match stop {
        None => "end",
        Some(Stop::Memory) => "stop memory",
        Some(Stop::Sink) => "stop sink",
        Some(Stop::ClockFull) => "stop clock full",
        Some(Stop::Strayed) => "stop strayed",
        Some(Stop::EndOfLog(_)) => "stop end of log",
        Some(Stop::Diverged(_, _)) => "stop diverged",
    }
}

pub(crate) fn thread_stopped(stop: Option<Stop>) -> Option<usize>
    ensures { result ≡ thread_stopped stop }
{
    match stop {
        Some(Stop::EndOfLog(thread) | Stop::Diverged(thread, _)) => Some(thread),
        _ => None,
    }
}

pub(crate) fn outcome_stopped(stop: Option<Stop>) -> Option<u32>
    ensures { result ≡ outcome_stopped stop }
{
    match stop {
        Some(Stop::Diverged(_, outcome)) => Some(outcome),
        _ => None,
    }
}
