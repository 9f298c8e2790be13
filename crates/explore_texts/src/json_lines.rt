// What is found of runs, in JSON, an object a line.
ghost use Rattle.std.specs.Prelude.{◌≡◌, ◌++◌, ◌<◌, ◌^◌, false, IfOk, OnOk, map, option_copied};
ghost use Rattle.std.specs.Prelude.{option_map};
ghost use Rattle.serde_json.specs.Data.{array, put as with_member};
ghost use Rattle.serde_json.specs.View.{items_of, members_view, view};
ghost use Rattle.serde_json.specs.Written.{has_float};
ghost use Rattle.command_inputs.specs.Expects.{without_feed};
ghost use Rattle.explorer.specs.Lists.{delays_in};
ghost use Rattle.json_views.specs.Ends.{unmet_value};
ghost use Rattle.json_views.specs.Objects.{count_value, with_members};
ghost use Rattle.explore_texts.specs.Found.{tallied};
ghost use Rattle.explore_texts.specs.FoundJson.{blocked_value, case_sums_json, case_value};
ghost use Rattle.explore_texts.specs.FoundJson.{counts_members, delay_value, differs_value};
ghost use Rattle.explore_texts.specs.FoundJson.{fail_value, fault_value, found_json, found_members};
ghost use Rattle.explore_texts.specs.FoundJson.{found_value};
ghost use Rattle.explore_texts.specs.FoundJson.{judgement_word, left_value, request_value};
ghost use Rattle.explore_texts.specs.FoundJson.{short_value, sums_json};
ghost use Rattle.explore_texts.specs.declared.judgement.Tally.{Tally};

use crate::case_text::outcome_of;
use crate::explored_text::{row_at, tallied};
use crate::finding::{Difference, Finding, SeenRun};
use crate::judgement::{Judgement, Tally};
use crate::schedule::Schedule;
use answered_calls::BlockedLine;
use command_inputs::UnmetLine;
use command_texts::request_word;
use comparator::Verdict;
use explorer::{Delay, DelayList};
use fault_injection::{FaultCase, Injected};
use json_views::{push_line, put_end, seen_value, unmet_value, values_are_exact};
use posix_terms::{Given, Outcomes, Transcripts, errno_name};
use serde_json::{Map, Value, json, push, put};
use std::alloc::{AllocError, Global};

// ---- which runs

/// The first case of runs with delays: a seed, or a list with its delays.
#[tactic(auto, using(crate::proofs::ExactFound::case_exact))]
pub(crate) fn case_value(alloc: Global, schedule: &Schedule, case: u64) -> Result<Value, AllocError>
    ensures value { IfOk result (λ value. view value ≡ case_value schedule.now case) }
    ensures exact { IfOk result (λ value. has_float (view value) ≡ false) }
{
    values_are_exact();
    match schedule {
        Schedule::Seeds(_) => json!(in alloc; {"seed": case}),
        Schedule::Lists(lists) => {
            let delays = delays_value(alloc, lists.of_case(case))?;
            json!(in alloc; {"list": case, "delays": delays})
        }
    }
}

// The delays of a list.
fn delays_value(alloc: Global, list: DelayList) -> Result<Value, AllocError>
    ensures { IfOk result (λ value.
        view value ≡ array (items_of (map delay_value (delays_in list)))) }
{
    let mut delays = Vec::new(alloc);
    if let Some(delay) = list.first {
        push(&mut delays, delay_value(alloc, delay)?)?;
    }
    if let Some(delay) = list.second {
        push(&mut delays, delay_value(alloc, delay)?)?;
    }
    Ok(Value::Array(delays))
}

fn delay_value(alloc: Global, delay: Delay) -> Result<Value, AllocError>
    ensures { IfOk result (λ value. view value ≡ delay_value delay) }
{
    json!(in alloc; {
        "thread": delay.place.thread,
        "line": delay.place.line,
        "units": delay.units
    })
}

/// The outcome that a case replaces, and what comes in its place.
#[tactic(auto, using(crate::proofs::ExactFound::fault_exact))]
pub fn fault_value(
    alloc: Global,
    outcomes: &[Outcomes],
    case: FaultCase,
) -> Result<Value, AllocError>
    ensures value { IfOk result (λ value. view value ≡ fault_value outcomes.now case) }
    ensures exact { IfOk result (λ value. has_float (view value) ≡ false) }
{
    values_are_exact();
    let value = replaced_value(alloc, outcomes, case)?;
    Ok(value)
}

fn replaced_value(
    alloc: Global,
    outcomes: &[Outcomes],
    case: FaultCase,
) -> Result<Value, AllocError>
    ensures { IfOk result (λ value. view value ≡ fault_value outcomes.now case) }
{
    let request = request_value(alloc, outcome_of(outcomes, case))?;
    let error = fail_value(alloc, case.injected)?;
    json!(in alloc; {
        "thread": case.thread,
        "record": case.number,
        "request": request,
        "fail": error,
        "short": short_value(case.injected)
    })
}

// The kind of request of an outcome.
fn request_value(alloc: Global, given: Option<&Given>) -> Result<Value, AllocError>
    ensures { IfOk result (λ value. view value ≡ request_value (option_copied given.entry)) }
{
    match given {
        Some(given) => Value::try_from_str(alloc, request_word(given.kind)),
        None => Ok(Value::Null),
    }
}

fn fail_value(alloc: Global, injected: Injected) -> Result<Value, AllocError>
    ensures { IfOk result (λ value. view value ≡ fail_value injected) }
{
    match injected {
        Injected::Fail(error) => Value::try_from_str(alloc, errno_name(error)),
        Injected::Short(_) => Ok(Value::Null),
    }
}

fn short_value(injected: Injected) -> Value
    ensures { view result ≡ short_value injected }
{
    match injected {
        Injected::Fail(_) => Value::Null,
        Injected::Short(count) => Value::from(count),
    }
}

// ---- what is found

/// Adds the line of so many runs of this case, by the first of them.
pub(crate) fn push_found_json(
    text: &mut Vec<u8>,
    case: Value,
    runs: u64,
    before: SeenRun<'_>,
    now: SeenRun<'_>,
    cut: &[usize],
    waits: &[BlockedLine],
    difference: Difference,
) -> Result<(), AllocError>
    requires { has_float (view case) ≡ false }
    ensures { OnOk result (
        text.new.items
        ≡ text.old.items
        ++ found_json (view case) runs before.entry.observation.now now.entry.observation.now now.entry.looked.now
        cut.now waits.now difference.verdict difference.ends_alike) }
{
    values_are_exact();
    let alloc = *text.allocator();
    let value = found_value(alloc, case, runs, before, now, cut, waits, difference)?;
    push_line(text, &value)
}

fn found_value(
    alloc: Global,
    case: Value,
    runs: u64,
    before: SeenRun<'_>,
    now: SeenRun<'_>,
    cut: &[usize],
    waits: &[BlockedLine],
    difference: Difference,
) -> Result<Value, AllocError>
    ensures { IfOk result (λ value.
        view value
        ≡ found_value (view case) runs before.entry.observation.now now.entry.observation.now
        now.entry.looked.now cut.now waits.now difference.verdict difference.ends_alike) }
{
    let mut members = Map::new(alloc);
    put_end(&mut members, alloc, now.observation.stop)?;
    put_found(
        &mut members,
        alloc,
        case,
        runs,
        before,
        now,
        cut,
        waits,
        difference,
    )?;
    Ok(Value::Object(members))
}

// Puts in all but how the runs ended.
fn put_found(
    members: &mut Map<String, Value>,
    alloc: Global,
    case: Value,
    runs: u64,
    before: SeenRun<'_>,
    now: SeenRun<'_>,
    cut: &[usize],
    waits: &[BlockedLine],
    difference: Difference,
) -> Result<(), AllocError>
    ensures { OnOk result (
        members_view members.new.entries
        ≡ with_members (members_view members.old.entries)
        (found_members (view case) runs before.entry.observation.now now.entry.observation.now now.entry.looked.now
        cut.now waits.now difference.verdict difference.ends_alike)) }
{
    let (seen_before, seen_now) = (&before.observation.seen, &now.observation.seen);
    let differs = differs_value(alloc, seen_before, seen_now, difference.verdict)?;
    let came_to = judgement_word(now.looked.judgement);
    put(members, alloc, "case", case)?;
    put(members, alloc, "runs", Value::from(runs))?;
    put(members, alloc, "cut_off", threads_value(alloc, cut)?)?;
    put(members, alloc, "blocked", waits_value(alloc, waits)?)?;
    put(members, alloc, "differs", differs)?;
    put(
        members,
        alloc,
        "ends_alike",
        Value::Bool(difference.ends_alike),
    )?;
    put(
        members,
        alloc,
        "unmet",
        unmet_line_value(alloc, &now.looked.unmet)?,
    )?;
    put(
        members,
        alloc,
        "came_to",
        Value::try_from_str(alloc, came_to)?,
    )
}

// The numbers of threads.
fn threads_value(alloc: Global, threads: &[usize]) -> Result<Value, AllocError>
    ensures { IfOk result (λ value.
        view value ≡ array (items_of (map count_value threads.now))) }
{
    let mut values = Vec::new(alloc);
    for thread in threads {
        push(&mut values, Value::from(*thread))?;
    }
    Ok(Value::Array(values))
}

// The lines at which calls were blocked for good.
fn waits_value(alloc: Global, waits: &[BlockedLine]) -> Result<Value, AllocError>
    ensures { IfOk result (λ value.
        view value ≡ array (items_of (map blocked_value waits.now))) }
{
    let mut values = Vec::new(alloc);
    for line in waits {
        push(&mut values, blocked_value(alloc, *line)?)?;
    }
    Ok(Value::Array(values))
}

fn blocked_value(alloc: Global, line: BlockedLine) -> Result<Value, AllocError>
    ensures { IfOk result (λ value. view value ≡ blocked_value line) }
{
    json!(in alloc; {"thread": line.thread, "line": line.line})
}

// The first row that differs, before and now.
fn differs_value(
    alloc: Global,
    before: &Transcripts,
    now: &Transcripts,
    verdict: Verdict,
) -> Result<Value, AllocError>
    ensures { IfOk result (λ value. view value ≡ differs_value before.now now.now verdict) }
{
    let Verdict::Differs { thread, row } = verdict else {
        return Ok(Value::Null);
    };
    let was = seen_value(alloc, row_at(before, thread, row))?;
    let is = seen_value(alloc, row_at(now, thread, row))?;
    json!(in alloc; {"thread": thread, "row": row, "before": was, "now": is})
}

fn unmet_line_value(alloc: Global, unmet: &Option<UnmetLine>) -> Result<Value, AllocError>
    ensures { IfOk result (λ value.
        view value ≡ unmet_value (option_map without_feed unmet.now)) }
{
    match unmet {
        Some(line) => unmet_value(alloc, Some(line.without_feed())),
        None => unmet_value(alloc, None),
    }
}

fn judgement_word(judgement: Judgement) -> &'static str
    ensures { result.now ≡ judgement_word judgement }
{
    match judgement {
        Judgement::Passed => "passed",
        Judgement::Failed => "failed",
        Judgement::Blocked => "blocked",
        Judgement::Stopped(_) => "stopped",
    }
}

// ---- the sums

/// Adds the last line of so many runs with delays.
#[tactic(auto, using(crate::proofs::ExactFound::sums_exact))]
pub(crate) fn push_sums_json(
    text: &mut Vec<u8>,
    schedule: &Schedule,
    runs: u64,
    status: u8,
    findings: &[Finding],
) -> Result<(), AllocError>
    requires { (tally : Tally) → tallied tally findings.now < 2 ^ 64 }
    ensures { OnOk result (
        text.new.items
        ≡ text.old.items ++ sums_json schedule.now runs status findings.now) }
{
    values_are_exact();
    let alloc = *text.allocator();
    let mut members = Map::new(alloc);
    put_counts(&mut members, alloc, status, findings)?;
    put(&mut members, alloc, "runs", Value::from(runs))?;
    put(&mut members, alloc, "groups", Value::from(findings.len()))?;
    put(&mut members, alloc, "left_out", left_value(schedule, runs))?;
    push_line(text, &Value::Object(members))
}

/// Adds the last line of cases.
#[tactic(auto, using(crate::proofs::ExactFound::case_sums_exact))]
pub(crate) fn push_case_sums_json(
    text: &mut Vec<u8>,
    status: u8,
    findings: &[Finding],
) -> Result<(), AllocError>
    requires { (tally : Tally) → tallied tally findings.now < 2 ^ 64 }
    ensures { OnOk result (
        text.new.items ≡ text.old.items ++ case_sums_json status findings.now) }
{
    values_are_exact();
    let alloc = *text.allocator();
    let mut members = Map::new(alloc);
    put_counts(&mut members, alloc, status, findings)?;
    put(&mut members, alloc, "cases", Value::from(findings.len()))?;
    push_line(text, &Value::Object(members))
}

// Puts in what the runs came to, and the exit status.
fn put_counts(
    members: &mut Map<String, Value>,
    alloc: Global,
    status: u8,
    findings: &[Finding],
) -> Result<(), AllocError>
    requires { (tally : Tally) → tallied tally findings.now < 2 ^ 64 }
    ensures { OnOk result (
        members_view members.new.entries
        ≡ with_members (members_view members.old.entries) (counts_members status findings.now)) }
{
    put_count(members, alloc, "failed", Tally::Failed, findings)?;
    put_count(members, alloc, "stopped", Tally::Stopped, findings)?;
    put_count(members, alloc, "clock_full", Tally::ClockFull, findings)?;
    put_count(members, alloc, "end_of_log", Tally::EndOfLog, findings)?;
    put_count(members, alloc, "diverged", Tally::Diverged, findings)?;
    put_count(members, alloc, "blocked", Tally::Blocked, findings)?;
    put(members, alloc, "status", Value::from(status))
}

// Puts in how many runs are counted here.
fn put_count(
    members: &mut Map<String, Value>,
    alloc: Global,
    name: &str,
    tally: Tally,
    findings: &[Finding],
) -> Result<(), AllocError>
    requires { tallied tally findings.now < 2 ^ 64 }
    ensures { OnOk result (
        members_view members.new.entries
        ≡ with_member name.now (count_value (tallied tally findings.now))
        (members_view members.old.entries)) }
{
    put(members, alloc, name, Value::from(tallied(tally, findings)))
}

// How many lists were not run; of seeds there is no such number.
fn left_value(schedule: &Schedule, runs: u64) -> Value
    ensures { view result ≡ left_value schedule.now runs }
{
    match schedule {
        Schedule::Seeds(_) => Value::Null,
        Schedule::Lists(lists) => Value::from(lists.count().saturating_sub(runs)),
    }
}
