// A run as a text of events, for viewers of traces.
ghost use Rattle.std.specs.Prelude.{◌≡◌, ◌<◌, IfOk, map, string_bytes};
ghost use Rattle.run_views.specs.Calls.{asked_text};
ghost use Rattle.command_texts.specs.Transcripts.{reply_text};
ghost use Rattle.serde_json.specs.View.{view};
ghost use Rattle.run_pictures.specs.Drawn.{calls_of};
ghost use Rattle.run_pictures.specs.Trace.{IsTrace, arguments_data, calls_of_timed, event_data};
ghost use Rattle.run_pictures.specs.Trace.{outcome_data, shown, shown_byte, trace_data};

use crate::drawn::DrawnCall;
use crate::kinds::kind_of_row;
use answered_calls::AnsweredCall;
use command_texts::push_reply;
use run_views::push_asked;
use serde_json::{Value, json};
use std::alloc::{AllocError, Global};

/// A call, and for how many clocks it is shown.
#[derive(Clone, Copy, Debug)]
pub(crate) struct TimedCall<'a> {
    pub call: AnsweredCall<'a>,
    pub length: u64,
}

/// The calls as a text in the trace event format, which is JSON: an event for each call, in which a
/// clock counts as a microsecond. It is as long as the call's box in a page.
#[tactic(auto, using(crate::proofs::Depths::trace_depth))]
pub fn trace(alloc: Global, calls: &[DrawnCall<'_>]) -> Result<Vec<u8>, AllocError>
    ensures { IfOk result (λ text. IsTrace (calls_of calls.now) text.items) }
{
    let timed = timed_calls(alloc, calls)?;
    let trace = trace_value(alloc, &timed)?;
    trace.to_vec(alloc)
}

fn timed_calls<'a>(alloc: Global, calls: &[DrawnCall<'a>]) -> Result<Vec<TimedCall<'a>>, AllocError>
    ensures { IfOk result (λ timed. calls_of_timed timed.items ≡ calls_of calls.now) }
{
    let mut timed = Vec::new(alloc);
    for drawn in calls {
        let call = drawn.call;
        let length = drawn.clocks.answered.saturating_sub(call.granted);
        timed.push(TimedCall { call, length })?;
    }
    Ok(timed)
}

fn trace_value(alloc: Global, timed: &[TimedCall<'_>]) -> Result<Value, AllocError>
    ensures { IfOk result (λ trace. view trace ≡ trace_data timed.now) }
{
    let events = events(alloc, timed)?;
    json!(in alloc; {"traceEvents": events})
}

fn events(alloc: Global, timed: &[TimedCall<'_>]) -> Result<Vec<Value>, AllocError>
    ensures { IfOk result (λ events. map view events.items ≡ map event_data timed.now) }
{
    let mut events = Vec::new(alloc);
    for it in timed {
        events.push(event(alloc, it)?)?;
    }
    Ok(events)
}

#[tactic(auto, unfolding(crate::specs::Trace::event_data))]
fn event(alloc: Global, timed: &TimedCall<'_>) -> Result<Value, AllocError>
    ensures { IfOk result (λ event. view event ≡ event_data timed.now) }
{
    let word = timed.call.row.call.kind().word();
    let kind = kind_of_row(&timed.call).word();
    let arguments = arguments(alloc, &timed.call)?;
    json!(in alloc; {
        "name": word,
        "cat": kind,
        "ph": "X",
        "ts": timed.call.granted,
        "dur": timed.length,
        "pid": 1u64,
        "tid": timed.call.thread,
        "args": arguments
    })
}

// What a viewer shows of a call that is chosen.
#[tactic(auto, unfolding(crate::specs::Trace::arguments_data))]
fn arguments(alloc: Global, call: &AnsweredCall<'_>) -> Result<Value, AllocError>
    ensures { IfOk result (λ arguments. view arguments ≡ arguments_data call.now) }
{
    let asked = asked(alloc, call)?;
    let reply = reply(alloc, call)?;
    json!(in alloc; {
        "row": call.number,
        "line": call.line,
        "call": asked,
        "reply": reply,
        "turn": call.row.turn.clock,
        "blocked": call.blocked,
        "outcome": outcome_value(call.outcome)
    })
}

fn outcome_value(outcome: Option<usize>) -> Value
    ensures { view result ≡ outcome_data outcome }
{
    match outcome {
        Some(number) => Value::from(number),
        None => Value::Null,
    }
}

fn asked(alloc: Global, call: &AnsweredCall<'_>) -> Result<String, AllocError>
    ensures { IfOk result (λ text.
        string_bytes text ≡ shown (asked_text call.now.row.now.call)) }
{
    let mut text = Vec::new(alloc);
    push_asked(&mut text, &call.row.call)?;
    printable(alloc, &text)
}

fn reply(alloc: Global, call: &AnsweredCall<'_>) -> Result<String, AllocError>
    ensures { IfOk result (λ text.
        string_bytes text ≡ shown (reply_text call.now.row.now.reply)) }
{
    let mut text = Vec::new(alloc);
    push_reply(&mut text, &call.row.reply)?;
    printable(alloc, &text)
}

// A text as one of ASCII. What is not printable there is `?`; no text of a call has such a byte.
fn printable(alloc: Global, bytes: &[u8]) -> Result<String, AllocError>
    ensures { IfOk result (λ text. string_bytes text ≡ shown bytes.now) }
{
    let mut text = String::new(alloc);
    for byte in bytes {
        text.push(char::from(shown_byte(*byte)))?;
    }
    Ok(text)
}

fn shown_byte(byte: u8) -> u8
    ensures value { result ≡ shown_byte byte }
    ensures ascii { result < 128 }
{
    if b' ' <= byte && byte <= b'~' {
        byte
    } else {
        b'?'
    }
}
