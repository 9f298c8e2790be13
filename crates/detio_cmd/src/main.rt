//! `detio`: deterministic record and replay of calls on one shared table of descriptors.
#![tactic(auto)]

mod draw;
mod explore;
mod faults;
mod heard;
mod input;
mod log_file;
mod new_files;
mod output;
mod progress;
mod reasons;
mod record;
mod refusals;
mod writing;

use check_commands::{CheckOptions, bad_expectation_line, check_over};
use clap::ArgMatches;
use clap::error::ErrorKind;
use command_line::command;
use commands::{
    LogTo, RunOptions, View, cannot_write, make_over, no_memory, plain_over, replay_over,
    replay_threads_over, settings_of, show_over, upgrade_over,
};
use compare_and_draw::{CompareOptions, compare_over};
use draw::run_draw;
use explore::{run_explore, run_minimise};
use faults::run_faults;
use heard::{Heard, Role};
use host_doors::Outside;
use input::{is_read_twice, open_scripts, open_source, read_twice};
use log_file::{LogFile, is_same_file, is_script, log_is_script};
use log_guard::LogPlace;
use output::{Errors, Output};
use progress::RunLine;
use reasons::{are_said, say_input};
use record::{HostOutsides, NewOutsides, run_record};
use refusals::{Host, Refusals};
use std::alloc::AllocError;
use std::fs::File;
use std::io::Write;
use std::process::ExitCode;
use std::sync::Wait;
use std::thread::Threads;
use std::{fs, io};

fn main(rt: HostRuntime) -> ExitCode {
    let held = places_held(&rt);
    let status = match run(&rt, &rt, HostOutsides { rt }) {
        Ok(status) => status,
        Err(AllocError) => no_memory(&mut Errors::new(&rt)).unwrap_or(4),
    };
    drop(held);
    ExitCode::from(status)
}

// What is opened first gets the lowest free descriptors: where a standard
// stream is closed, one of these takes its place, so that no log
// and no script does. From them nothing is read, and to them nothing can be written.
fn places_held(rt: &HostRuntime) -> [Option<File>; 3] {
    [null(rt), null(rt), null(rt)]
}

fn null(rt: &HostRuntime) -> Option<File> {
    fs::open(rt, "/dev/null").ok()
}

// Runs the command that the command line names, and answers the exit status.
fn run<O: Outside + Send + Drop, N: NewOutsides<O> + Drop, T: Threads + Wait + Sync>(
    rt: &HostRuntime,
    handles: &T,
    outsides: N,
) -> Result<u8, AllocError> {
    match words(rt) {
        Ok(words) => run_words(rt, handles, outsides, words.as_slice()),
        Err(error) if error.kind() == io::ErrorKind::OutOfMemory => Err(AllocError),
        Err(_) => Ok(not_text(rt)),
    }
}

fn run_words<O: Outside + Send + Drop, N: NewOutsides<O> + Drop, T: Threads + Wait + Sync>(
    rt: &HostRuntime,
    handles: &T,
    outsides: N,
    words: &[String],
) -> Result<u8, AllocError> {
    match command(rt.alloc())?.try_get_matches_from(words) {
        Ok(matches) => run_matches(rt, handles, outsides, &matches),
        Err(error) => other_usage(rt, error),
    }
}

fn run_matches<O: Outside + Send + Drop, N: NewOutsides<O> + Drop, T: Threads + Wait + Sync>(
    rt: &HostRuntime,
    handles: &T,
    outsides: N,
    matches: &ArgMatches<'_>,
) -> Result<u8, AllocError> {
    let Some((command, matches)) = matches.subcommand() else {
        return Ok(2);
    };
    if is_read_twice(rt.alloc(), command, matches)? {
        return Ok(read_twice(rt));
    }
    let says_more = are_said(rt, matches);
    let refusals = Refusals::new();
    let heard = Heard::new(rt.alloc(), says_more || matches.get_flag("expect"));
    let host = Host {
        rt,
        refusals: &refusals,
        heard: &heard,
    };
    let status = run_command(host, handles, outsides, command, matches)?;
    if says_more {
        refusals.say(rt);
    }
    if says_more && status == 3 && command != "check" {
        // Without memory no more is said.
        let _ = say_input(host, command, matches);
    }
    Ok(status)
}

// Runs the command of this name.
fn run_command<O: Outside + Send + Drop, N: NewOutsides<O> + Drop, T: Threads + Wait + Sync>(
    host: Host<'_>,
    handles: &T,
    outsides: N,
    command: &str,
    matches: &ArgMatches<'_>,
) -> Result<u8, AllocError> {
    match command {
        "check" => run_check(host, matches),
        "plain" => run_plain(host, matches),
        "explore" => run_explore(host, handles, matches),
        "faults" => run_faults(host, handles, matches),
        "minimise" => run_minimise(host, matches),
        "record" => run_record(host, handles, outsides, matches),
        "replay" => run_replay(host, handles, matches),
        "run" | "rerun" => Ok(launched(host.rt, command)),
        "compare" => run_compare(host, matches),
        "draw" => run_draw(host, matches),
        "show" => Ok(run_show(host, matches)),
        "make" => run_make(host, matches),
        "upgrade" => run_upgrade(host, matches),
        _ => Ok(2),
    }
}

// The words of the command line.
fn words(rt: &HostRuntime) -> io::Result<Vec<String>> {
    Ok(std::env::args(rt)?.collect(rt.alloc())?)
}

// A word of the command line is not text.
fn not_text(rt: &HostRuntime) -> u8 {
    let _ = eprintln!(rt; "error: the arguments are not UTF-8");
    2
}

// The help, the version, or wrong usage, in the words of `clap`. A pipe that nobody reads any more is
// no fault.
fn other_usage(rt: &HostRuntime, error: clap::Error) -> Result<u8, AllocError> {
    if error.kind() == ErrorKind::OutOfMemory {
        return Err(AllocError);
    }
    let printed = if error.use_stderr() {
        write!(Errors::new(rt), "{error}")
    } else {
        error.print(rt)
    };
    match printed {
        Err(failed) if failed.kind() != io::ErrorKind::BrokenPipe => {
            Ok(cannot_write(&mut Errors::new(rt)).unwrap_or(4))
        }
        _ => Ok(error.exit_code() as u8),
    }
}

// What is asked of any run of scripts.
pub(crate) fn run_options(matches: &ArgMatches<'_>) -> RunOptions {
    RunOptions {
        view: View {
            turns: matches.get_flag("turns"),
            calls: matches.get_flag("calls"),
            by_turn: matches.get_flag("by-turn"),
            lanes: matches.get_flag("lanes"),
        },
        json: matches.get_flag("json"),
        why: matches.get_flag("why"),
        expect: matches.get_flag("expect"),
    }
}

// `detio check`, as the command line has it.
fn run_check(host: Host<'_>, matches: &ArgMatches<'_>) -> Result<u8, AllocError> {
    let rt = host.rt;
    let paths = matches.get_strs("script").unwrap_or(&[]);
    let sources = open_scripts(host, paths)?;
    let (mut output, mut errors) = (Output::new(host), Errors::new(rt));
    let options = CheckOptions {
        json: matches.get_flag("json"),
    };
    let status = check_over(rt.alloc(), options, sources, &mut output, &mut errors).unwrap_or(4);
    if status == 0 && matches.get_flag("expect") {
        return check_expectations(host, paths);
    }
    Ok(status)
}

// Looks at what the scripts at these paths expect, which were read.
fn check_expectations(host: Host<'_>, paths: &[&str]) -> Result<u8, AllocError> {
    let mut output = Output::new(host);
    let mut status = 0;
    for (number, path) in paths.iter().enumerate() {
        let Some(text) = host.heard.text(Role::Script(number)) else {
            return Err(AllocError);
        };
        let line = bad_expectation_line(host.rt.alloc(), path, text.as_slice())?;
        if !line.is_empty() {
            status = 3;
        }
        if output.write_all(&line).is_err() {
            return Ok(cannot_write(&mut Errors::new(host.rt)).unwrap_or(4));
        }
    }
    Ok(status)
}

// `detio plain`, as the command line has it.
fn run_plain(host: Host<'_>, matches: &ArgMatches<'_>) -> Result<u8, AllocError> {
    let rt = host.rt;
    let settings = settings_of(
        matches.get_one::<u32>("patience"),
        matches.get_one::<u32>("door-cost"),
        None,
    );
    let sources = open_scripts(host, matches.get_strs("script").unwrap_or(&[]))?;
    let status = plain_over(
        rt.alloc(),
        settings,
        run_options(matches),
        sources,
        &mut RunLine::new(rt),
        &mut Output::new(host),
        &mut Errors::new(rt),
    );
    Ok(status.unwrap_or(4))
}

// `detio replay`, as the command line has it.
fn run_replay<T: Threads + Wait + Sync>(
    host: Host<'_>,
    handles: &T,
    matches: &ArgMatches<'_>,
) -> Result<u8, AllocError> {
    let rt = host.rt;
    let Some(path) = matches.get_str("log") else {
        return Ok(2);
    };
    let options = run_options(matches);
    let log = open_source(host, path, Role::Log);
    let sources = open_scripts(host, matches.get_strs("script").unwrap_or(&[]))?;
    let alloc = rt.alloc();
    let (mut output, mut errors) = (Output::new(host), Errors::new(rt));
    let status = if matches.get_flag("threads") {
        replay_threads_over(
            handles,
            alloc,
            options,
            log,
            sources,
            &mut output,
            &mut errors,
        )
    } else {
        let mut line = RunLine::new(rt);
        replay_over(
            alloc,
            options,
            log,
            sources,
            &mut line,
            &mut output,
            &mut errors,
        )
    };
    Ok(status.unwrap_or(4))
}

// `detio run` and `detio rerun`, which run programs: where this program is called in the launcher's place.
fn launched(rt: &HostRuntime, command: &str) -> u8 {
    let _ = eprintln!(rt;
        "detio: {command} is done by the launcher beside this program: call bin/detio, or ./detio in a checkout"
    );
    2
}

// `detio compare`, as the command line has it.
fn run_compare(host: Host<'_>, matches: &ArgMatches<'_>) -> Result<u8, AllocError> {
    let rt = host.rt;
    let (Some(log), Some(other)) = (matches.get_str("log"), matches.get_str("with")) else {
        return Ok(2);
    };
    let log = open_source(host, log, Role::Log);
    let other = open_source(host, other, Role::OtherLog);
    let sources = open_scripts(host, matches.get_strs("script").unwrap_or(&[]))?;
    let options = CompareOptions {
        rows: matches.get_flag("rows"),
        turns: !matches.get_flag("no-turns"),
        json: matches.get_flag("json"),
    };
    let status = compare_over(
        rt.alloc(),
        options,
        log,
        other,
        sources,
        &mut Output::new(host),
        &mut Errors::new(rt),
    );
    Ok(status.unwrap_or(4))
}

// `detio show`, as the command line has it.
fn run_show(host: Host<'_>, matches: &ArgMatches<'_>) -> u8 {
    let rt = host.rt;
    let Some(path) = matches.get_str("log") else {
        return 2;
    };
    let source = open_source(host, path, Role::Log);
    let json = matches.get_flag("json");
    show_over(
        rt.alloc(),
        json,
        source,
        &mut Output::new(host),
        &mut Errors::new(rt),
    )
    .unwrap_or(4)
}

// `detio make`, as the command line has it.
fn run_make(host: Host<'_>, matches: &ArgMatches<'_>) -> Result<u8, AllocError> {
    let rt = host.rt;
    let (Some(text), Some(path)) = (matches.get_str("text"), matches.get_str("out")) else {
        return Ok(2);
    };
    let place = LogPlace::new(rt.alloc())?;
    let text = open_source(host, text, Role::Text);
    let out = LogTo {
        path,
        log: LogFile {
            host,
            path,
            force: matches.get_flag("force"),
            was_read: false,
            place: &place,
        },
    };
    let made = make_over(
        rt.alloc(),
        text,
        out,
        &mut Output::new(host),
        &mut Errors::new(rt),
    );
    Ok(made.map(|it| it.status).unwrap_or(4))
}

// `detio upgrade`, as the command line has it.
fn run_upgrade(host: Host<'_>, matches: &ArgMatches<'_>) -> Result<u8, AllocError> {
    let rt = host.rt;
    let (Some(log), Some(path)) = (matches.get_str("log"), matches.get_str("out")) else {
        return Ok(2);
    };
    let scripts = matches.get_strs("script").unwrap_or(&[]);
    if is_script(rt, path, scripts) {
        return Ok(log_is_script(rt, path));
    }
    let place = LogPlace::new(rt.alloc())?;
    let source = open_source(host, log, Role::Log);
    let sources = open_scripts(host, scripts)?;
    let out = LogTo {
        path,
        log: LogFile {
            host,
            path,
            force: matches.get_flag("force"),
            was_read: is_same_file(rt, path, log),
            place: &place,
        },
    };
    let upgraded = upgrade_over(
        rt.alloc(),
        matches.get_flag("why"),
        source,
        out,
        sources,
        &mut Output::new(host),
        &mut Errors::new(rt),
    );
    Ok(upgraded.map(|it| it.status).unwrap_or(4))
}
