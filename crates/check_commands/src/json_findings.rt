// What is found of a script, in JSON.
ghost use Rattle.std.specs.Prelude.{◌≡◌, ◌++◌, IfOk, OnOk, slice_get, string_bytes};
ghost use Rattle.serde_json.specs.Data.{string};
ghost use Rattle.serde_json.specs.View.{members_view, view};
ghost use Rattle.json_views.specs.Objects.{line_of, text_value, with_members};
ghost use Rattle.check_commands.specs.Findings.{concern_word, concern_words, if_there};
ghost use Rattle.check_commands.specs.Json.{bad_line_value, bad_lines_json, checked_json};
ghost use Rattle.check_commands.specs.Json.{error_json, left_out_json, left_out_words};
ghost use Rattle.check_commands.specs.Json.{message_value, place_members, warning_json};
ghost use Rattle.check_commands.specs.Json.{warning_place, warnings_json};
ghost use Rattle.check_commands.specs.Mistakes.{expected_text, found_text};

use crate::concern_words::{concern_word, push_concern};
use crate::expected_text::{push_expected, push_found};
use crate::warning_lines::column_of;
use json_views::{push_line, text_value, values_are_exact};
use script_checks::{ActingLine, BadLine, Checked, Concern, Expected, Found, Warning};
use serde_json::{Map, Value, json, put};
use std::alloc::{AllocError, Global};

/// Where a finding stands: the path of the script and, but where it is of the whole script, the line
/// and the column.
#[derive(Clone, Copy, Debug)]
pub(crate) struct FindingPlace<'a> {
    pub kind: &'static str,
    pub path: &'a str,
    pub line: Option<usize>,
    pub column: Option<usize>,
}

/// Adds what was found of the text at this path, an object a line.
pub(crate) fn push_check_json(
    text: &mut Vec<u8>,
    path: &str,
    check: &Checked,
) -> Result<(), AllocError>
    ensures { OnOk result (text.new.items ≡ text.old.items ++ checked_json path.now check.now) }
{
    match check {
        Checked::TooLong => push_error(text, path, "more than 1,000 lines"),
        Checked::Bad { shown, left_out } => push_bad_json(text, path, shown, *left_out),
        Checked::Good {
            lines,
            warnings,
            ..
        } => push_warnings_json(text, path, lines, warnings),
    }
}

fn push_bad_json(
    text: &mut Vec<u8>,
    path: &str,
    shown: &[BadLine],
    left_out: usize,
) -> Result<(), AllocError>
    ensures { OnOk result (
        text.new.items
        ≡ text.old.items
        ++ (bad_lines_json path.now shown.now ++ left_out_json path.now left_out)) }
{
    push_bad_lines_json(text, path, shown)?;
    push_left_out_json(text, path, left_out)
}

fn push_bad_lines_json(text: &mut Vec<u8>, path: &str, shown: &[BadLine]) -> Result<(), AllocError>
    ensures { OnOk result (
        text.new.items ≡ text.old.items ++ bad_lines_json path.now shown.now) }
{
    for i in 0..shown.len() {
        push_bad_line_json(text, path, &shown[i])?;
    }
    Ok(())
}

#[tactic(auto, using(crate::proofs::ExactFindings::bad_line_exact))]
fn push_bad_line_json(text: &mut Vec<u8>, path: &str, bad: &BadLine) -> Result<(), AllocError>
    ensures { OnOk result (
        text.new.items ≡ text.old.items ++ line_of (bad_line_value path.now bad.now)) }
{
    let value = bad_line_value(*text.allocator(), path, bad)?;
    values_are_exact();
    push_line(text, &value)
}

fn bad_line_value(alloc: Global, path: &str, bad: &BadLine) -> Result<Value, AllocError>
    ensures { IfOk result (λ value. view value ≡ bad_line_value path.now bad.now) }
{
    let place = FindingPlace {
        kind: "error",
        path,
        line: Some(bad.number),
        column: Some(bad.mistake.column),
    };
    let mut members = Map::new(alloc);
    put_place(&mut members, alloc, place)?;
    let expected = expected_value(alloc, bad.mistake.expected)?;
    put(&mut members, alloc, "expected", expected)?;
    let found = found_value(alloc, &bad.mistake.found)?;
    put(&mut members, alloc, "found", found)?;
    Ok(Value::Object(members))
}

// Puts in where a finding stands.
fn put_place(
    members: &mut Map<String, Value>,
    alloc: Global,
    place: FindingPlace<'_>,
) -> Result<(), AllocError>
    ensures { OnOk result (
        members_view members.new.entries
        ≡ with_members (members_view members.old.entries)
        (place_members place.entry.kind.now place.entry.path.now place.entry.line
        place.entry.column)) }
{
    put(members, alloc, "kind", json!(in alloc; place.kind)?)?;
    put(members, alloc, "path", json!(in alloc; place.path)?)?;
    put(members, alloc, "line", json!(in alloc; place.line)?)?;
    put(members, alloc, "column", json!(in alloc; place.column)?)
}

fn expected_value(alloc: Global, expected: Expected) -> Result<Value, AllocError>
    ensures { IfOk result (λ value. view value ≡ text_value (expected_text expected)) }
{
    let mut text = Vec::new(alloc);
    push_expected(&mut text, expected)?;
    text_value(alloc, &text)
}

fn found_value(alloc: Global, found: &Found) -> Result<Value, AllocError>
    ensures { IfOk result (λ value. view value ≡ text_value (found_text found.now)) }
{
    let mut text = Vec::new(alloc);
    push_found(&mut text, found)?;
    text_value(alloc, &text)
}

// Adds how many bad lines of the script at this path are left out, if any are.
fn push_left_out_json(text: &mut Vec<u8>, path: &str, count: usize) -> Result<(), AllocError>
    ensures { OnOk result (text.new.items ≡ text.old.items ++ left_out_json path.now count) }
{
    if count == 0 {
        return Ok(());
    }
    let words = left_out_words(*text.allocator(), count)?;
    push_error(text, path, words.as_str())
}

#[tactic(auto, unfolding(crate::specs::Json::left_out_words))]
fn left_out_words(alloc: Global, count: usize) -> Result<String, AllocError>
    ensures { IfOk result (λ words. string_bytes words ≡ left_out_words count) }
{
    if count == 1 {
        String::from_str(alloc, "1 more bad line")
    } else {
        format!(in alloc; "{count} more bad lines")
    }
}

// Adds an error of the whole script at this path.
fn push_error(text: &mut Vec<u8>, path: &str, message: &str) -> Result<(), AllocError>
    ensures { OnOk result (text.new.items ≡ text.old.items ++ error_json path.now message.now) }
{
    let place = FindingPlace {
        kind: "error",
        path,
        line: None,
        column: None,
    };
    push_message(text, place, message)
}

/// Adds a finding in words.
#[tactic(auto, using(crate::proofs::ExactFindings::message_exact))]
pub(crate) fn push_message(
    text: &mut Vec<u8>,
    place: FindingPlace<'_>,
    message: &str,
) -> Result<(), AllocError>
    ensures { OnOk result (
        text.new.items
        ≡ text.old.items
        ++ line_of (message_value
        (place_members place.entry.kind.now place.entry.path.now place.entry.line
        place.entry.column)
        (string message.now))) }
{
    let value = message_value(*text.allocator(), place, message)?;
    values_are_exact();
    push_line(text, &value)
}

fn message_value(alloc: Global, place: FindingPlace<'_>, message: &str) -> Result<Value, AllocError>
    ensures { IfOk result (λ value.
        view value
        ≡ message_value (place_members place.entry.kind.now place.entry.path.now place.entry.line
        place.entry.column)
        (string message.now)) }
{
    let mut members = Map::new(alloc);
    put_place(&mut members, alloc, place)?;
    put(&mut members, alloc, "message", json!(in alloc; message)?)?;
    Ok(Value::Object(members))
}

fn push_warnings_json(
    text: &mut Vec<u8>,
    path: &str,
    lines: &[ActingLine],
    warnings: &[Warning],
) -> Result<(), AllocError>
    ensures { OnOk result (
        text.new.items ≡ text.old.items ++ warnings_json path.now lines.now warnings.now) }
{
    for i in 0..warnings.len() {
        push_at_place_json(text, path, lines, warnings[i])?;
    }
    Ok(())
}

// Adds a warning, if its line is there.
fn push_at_place_json(
    text: &mut Vec<u8>,
    path: &str,
    lines: &[ActingLine],
    warning: Warning,
) -> Result<(), AllocError>
    ensures { OnOk result (
        text.new.items
        ≡ text.old.items
        ++ if_there (warning_json path.now warning.concern) (slice_get lines.now warning.place)) }
{
    match lines.get(warning.place) {
        Some(line) => push_warning_json(text, path, line, warning.concern),
        None => Ok(()),
    }
}

#[tactic(auto, using(crate::proofs::ExactFindings::words_exact))]
fn push_warning_json(
    text: &mut Vec<u8>,
    path: &str,
    line: &ActingLine,
    concern: Concern,
) -> Result<(), AllocError>
    ensures { OnOk result (
        text.new.items ≡ text.old.items ++ warning_json path.now concern line.now) }
{
    let value = warning_value(*text.allocator(), path, line, concern)?;
    values_are_exact();
    push_line(text, &value)
}

fn warning_value(
    alloc: Global,
    path: &str,
    line: &ActingLine,
    concern: Concern,
) -> Result<Value, AllocError>
    ensures { IfOk result (λ value.
        view value
        ≡ message_value (warning_place path.now line.now (concern_word concern))
        (text_value (concern_words concern line.now.words.items))) }
{
    let mut words = Vec::new(alloc);
    push_concern(&mut words, concern, &line.words)?;
    let mut members = Map::new(alloc);
    put_place(
        &mut members,
        alloc,
        warning_place(path, line, concern_word(concern)),
    )?;
    put(&mut members, alloc, "message", text_value(alloc, &words)?)?;
    Ok(Value::Object(members))
}

/// The place of a warning at this word of a line.
pub(crate) fn warning_place<'a>(path: &'a str, line: &ActingLine, word: usize) -> FindingPlace<'a>
    ensures { place_members result.kind.now result.path.now result.line result.column
        ≡ warning_place path.now line.now word }
{
    FindingPlace {
        kind: "warning",
        path,
        line: Some(line.number),
        column: Some(column_of(&line.words, word)),
    }
}
