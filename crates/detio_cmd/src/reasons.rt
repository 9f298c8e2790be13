// What more is said of a fault in the inputs of a command: where it stands, and what is wrong there.
use crate::heard::Role;
use crate::output::Errors;
use crate::refusals::Host;
use check_commands::{CheckOptions, bad_expectation_line, check_over};
use clap::ArgMatches;
use commands::Source;
use input_log::{LogFault, decode, is_other_version};
use std::alloc::{AllocError, Global};
use std::io::{IsTerminal, Write};

// Whether more is said than the lines that a script may read: where that is asked for, and to people.
pub(crate) fn are_said(rt: &HostRuntime, matches: &ArgMatches<'_>) -> bool {
    matches.get_flag("why") || rt.stderr().is_terminal()
}

// Says more of the first fault of the inputs: of a script, else of an expectation, else of a log.
pub(crate) fn say_input(
    host: Host<'_>,
    command: &str,
    matches: &ArgMatches<'_>,
) -> Result<(), AllocError> {
    let alloc = host.rt.alloc();
    let scripts = matches.get_strs("script").unwrap_or(&[]);
    for (number, path) in scripts.iter().enumerate() {
        if let Some(text) = host.heard.text(Role::Script(number))
            && let Some(line) = bad_script(alloc, path, text.as_slice())?
        {
            return say(host, line.as_slice());
        }
    }
    if has_expectations(command, matches) {
        for (number, path) in scripts.iter().enumerate() {
            if let Some(text) = host.heard.text(Role::Script(number)) {
                let line = bad_expectation_line(alloc, path, text.as_slice())?;
                if !line.is_empty() {
                    return say(host, first_line(&line));
                }
            }
        }
    }
    for (role, id) in [(Role::Log, "log"), (Role::OtherLog, "with")] {
        if let (Some(text), Some(path)) = (host.heard.text(role), matches.get_str(id))
            && let Some(words) = bad_log(alloc, command, text.as_slice())
        {
            let line = format!(in alloc; "{path}: {words}")?;
            return say(host, line.as_bytes());
        }
    }
    Ok(())
}

fn say(host: Host<'_>, line: &[u8]) -> Result<(), AllocError> {
    let mut errors = Errors::new(host.rt);
    let _ = errors
        .write_all(line)
        .and_then(|()| errors.write_all(b"\n"));
    Ok(())
}

// Whether the command holds replies to what the scripts expect.
fn has_expectations(command: &str, matches: &ArgMatches<'_>) -> bool {
    match command {
        "explore" | "faults" | "minimise" => true,
        "plain" | "record" | "replay" => matches.get_flag("expect"),
        _ => false,
    }
}

// The first line that `detio check` prints of a text that is not a script.
fn bad_script(alloc: Global, path: &str, text: &[u8]) -> Result<Option<Vec<u8>>, AllocError> {
    let mut sources = Vec::new(alloc);
    sources.push(Source { path, reader: text })?;
    let mut output: Vec<u8> = Vec::new(alloc);
    let mut errors: Vec<u8> = Vec::new(alloc);
    let options = CheckOptions { json: false };
    match check_over(alloc, options, sources, &mut output, &mut errors) {
        Ok(3) => Ok(Some(Vec::from_slice(alloc, first_line(&output))?)),
        _ => Ok(None),
    }
}

fn first_line(text: &[u8]) -> &[u8] {
    match text.iter().position(|byte| *byte == b'\n') {
        Some(end) => &text[..end],
        None => text,
    }
}

// What is wrong with a text that is not a log, or with one that is not upgraded.
fn bad_log(alloc: Global, command: &str, text: &[u8]) -> Option<&'static str> {
    if text.is_empty() {
        return Some("it is empty");
    }
    if command == "upgrade" && is_other_version(text, 1) && !is_other_version(text, 2) {
        return Some("it is of version 2 already");
    }
    match decode(alloc, text) {
        Err(LogFault::BadMagic) => Some("it does not begin with DIOL, as each log does"),
        Err(LogFault::BadVersion) => Some("its version is neither 1 nor 2"),
        Err(LogFault::BadRecord(_)) => Some("what stands there is no record that a run makes"),
        Err(LogFault::Torn(0, _)) => Some("it ends within its header"),
        Err(LogFault::Torn(_, _)) if command == "show" => {
            Some("it has no end: its run was cut off, or still goes on")
        }
        _ => None,
    }
}
