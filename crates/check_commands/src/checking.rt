ghost use Rattle.std.specs.Prelude.{◌≡◌, ◌&&◌, ◌++◌, IfOk, OnOk, if◌then◌else◌, length, map};
ghost use Rattle.command_texts.specs.Printing.{Prints};
ghost use Rattle.check_commands.specs.Checking.{AddsFindings, CheckPrints, TextsPrint};
ghost use Rattle.check_commands.specs.Checking.{checked_by, is_script_text};
ghost use Rattle.check_commands.specs.Findings.{bad_lines_text, checked_text, is_good};
ghost use Rattle.check_commands.specs.Findings.{left_out_text, script_in};
ghost use Rattle.std.specs.Prelude.{option_to_list};
ghost use Rattle.std.specs.Result.{result_ok};
ghost use Rattle.thread_scripts.specs.Grammar.{script_of};

use crate::bad_lines::{push_bad_lines, push_left_out, push_too_long};
use crate::json_findings::push_check_json;
use crate::scripts::Scripts;
use crate::shared_texts::shared_lines;
use crate::warning_lines::push_warnings;
use command_inputs::{SourceTexts, source_texts};
use command_texts::{Printed, Source, TextReader, no_memory, print};
use posix_terms::Bytes;
use script_checks::{BadLine, Checked, check_text};
use std::alloc::{AllocError, Global};
use std::io;
use std::io::Write;

/// What is asked of a check. By default what is found is printed in words.
#[derive(Clone, Copy, Debug, Default, PartialEq, Eq)]
pub struct CheckOptions {
    /// Whether each line that is printed is an object of JSON.
    pub json: bool,
}

/// `detio check`: prints which lines of the scripts are bad, and why, and what may be wrong with
/// those that are scripts; or one line for the first fault: another number of scripts than 1 to 16,
/// or one that cannot be read. Nothing is run. It returns the exit status. Where there is no memory
/// or the output cannot be written, that is the fault. An error is one of the writer `errors`.
pub fn check_over<R: TextReader + Drop, W: Write, E: Write>(
    alloc: Global,
    options: CheckOptions,
    sources: Vec<Source<'_, R>>,
    output: &mut W,
    errors: &mut E,
) -> io::Result<u8>
    ensures { IfOk result (λ status.
        Prints
        (CheckPrints options (map (λ s. (s.path.now, R.remaining s.reader)) sources.entry.items))
        status (W.contents output.old) (W.contents output.new)
        (E.contents errors.old) (E.contents errors.new)) }
{
    match check_printed(alloc, options, sources) {
        Ok(printed) => print(&printed, output, errors),
        Err(AllocError) => no_memory(errors),
    }
}

// What is to be printed.
fn check_printed<R: TextReader + Drop>(
    alloc: Global,
    options: CheckOptions,
    sources: Vec<Source<'_, R>>,
) -> Result<Printed, AllocError>
    ensures { IfOk result (
        CheckPrints options (map (λ s. (s.path.now, R.remaining s.reader)) sources.entry.items)) }
{
    let paths = paths_of(alloc, &sources)?;
    match source_texts(alloc, sources)? {
        SourceTexts::Read(texts) => texts_checked(alloc, options.json, &paths, &texts),
        SourceTexts::Fault(printed) => Ok(printed),
    }
}

fn paths_of<'a, R: TextReader + Drop>(
    alloc: Global,
    sources: &[Source<'a, R>],
) -> Result<Vec<&'a str>, AllocError>
    ensures { IfOk result (λ paths.
        map (λ p. p.now) paths.items ≡ map (λ s. s.path.now) sources.now) }
{
    let mut paths = Vec::new(alloc);
    for i in 0..sources.len() {
        paths.push(sources[i].path)?;
    }
    Ok(paths)
}

// What is to be printed for texts that were read at these paths.
fn texts_checked(
    alloc: Global,
    json: bool,
    paths: &[&str],
    texts: &[Bytes],
) -> Result<Printed, AllocError>
    requires { length paths.now ≡ length texts.now }
    ensures { IfOk result (TextsPrint json (map (λ p. p.now) paths.now) texts.now) }
{
    let mut output = Vec::new(alloc);
    let mut scripts = Scripts::new(alloc);
    let mut all = true;
    for i in 0..texts.len() {
        let path = paths[i];
        let text = texts[i].as_slice();
        let good = push_checked(alloc, json, &mut output, &mut scripts, path, text)?;
        all = both(all, good);
    }
    let shared = shared_lines(alloc, json, &scripts)?;
    output.extend_from_slice(&shared)?;
    Ok(Printed {
        status: status_of(all),
        output: Bytes::from_vec(output),
        errors: Bytes::from_vec(Vec::new(alloc)),
    })
}

fn both(first: bool, second: bool) -> bool
    ensures { result ≡ (first && second) }
{
    first && second
}

// The status where all texts are scripts, or not all are.
fn status_of(all: bool) -> u8
    ensures { result ≡ (if all then 0 else 3) }
{
    if all { 0 } else { 3 }
}

// Adds what is wrong with a text, or may be, and keeps its script, if it is one. It returns whether
// it is.
fn push_checked<'a>(
    alloc: Global,
    json: bool,
    output: &mut Vec<u8>,
    scripts: &mut Scripts<'a>,
    path: &'a str,
    text: &'a [u8],
) -> Result<bool, AllocError>
    ensures good { IfOk result (λ good. good ≡ is_script_text text.now) }
    ensures adds { OnOk result (
        AddsFindings json path.now text.now output.old.items output.new.items) }
    ensures kept { OnOk result (
        scripts.new.scripts.items
        ≡ scripts.old.scripts.items ++ option_to_list (result_ok (script_of text.now))) }
{
    match check_text(alloc, text) {
        Ok(check) => push_and_keep(json, output, scripts, path, check),
        Err(error) => Err(error),
    }
}

// Adds what was found of the text at this path, and keeps its script, if it is one.
fn push_and_keep<'a>(
    json: bool,
    output: &mut Vec<u8>,
    scripts: &mut Scripts<'a>,
    path: &'a str,
    check: Checked<'a>,
) -> Result<bool, AllocError>
    ensures good { IfOk result (λ good. good ≡ is_good check.entry) }
    ensures adds { OnOk result (
        output.new.items ≡ output.old.items ++ checked_by json path.now check.entry) }
    ensures kept { OnOk result (
        scripts.new.scripts.items ≡ scripts.old.scripts.items ++ script_in check.entry) }
{
    push_check(json, output, path, &check)?;
    keep_script(scripts, path, check)
}

// Adds what was found of the text at this path.
fn push_check(
    json: bool,
    output: &mut Vec<u8>,
    path: &str,
    check: &Checked,
) -> Result<(), AllocError>
    ensures { OnOk result (
        output.new.items ≡ output.old.items ++ checked_by json path.now check.now) }
{
    if json {
        push_check_json(output, path, check)
    } else {
        push_check_text(output, path, check)
    }
}

fn push_check_text(output: &mut Vec<u8>, path: &str, check: &Checked) -> Result<(), AllocError>
    ensures { OnOk result (
        output.new.items ≡ output.old.items ++ checked_text path.now check.now) }
{
    match check {
        Checked::TooLong => push_too_long(output, path),
        Checked::Bad { shown, left_out } => push_bad(output, path, shown, *left_out),
        Checked::Good {
            lines,
            warnings,
            ..
        } => push_warnings(output, path, lines, warnings),
    }
}

fn push_bad(
    output: &mut Vec<u8>,
    path: &str,
    shown: &[BadLine],
    left_out: usize,
) -> Result<(), AllocError>
    ensures { OnOk result (
        output.new.items
        ≡ output.old.items
        ++ (bad_lines_text path.now shown.now ++ left_out_text path.now left_out)) }
{
    push_bad_lines(output, path, shown)?;
    push_left_out(output, path, left_out)
}

// Keeps the script of a text, if it is one, and returns whether it is.
fn keep_script<'a>(
    scripts: &mut Scripts<'a>,
    path: &'a str,
    check: Checked<'a>,
) -> Result<bool, AllocError>
    ensures good { IfOk result (λ good. good ≡ is_good check.entry) }
    ensures kept { OnOk result (
        scripts.new.scripts.items ≡ scripts.old.scripts.items ++ script_in check.entry) }
{
    match check {
        Checked::TooLong => Ok(false),
        Checked::Bad { .. } => Ok(false),
        Checked::Good { script, lines, .. } => {
            scripts.push(script, path, lines)?;
            Ok(true)
        }
    }
}
