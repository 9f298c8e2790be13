use crate::explore::{jobs, keep_memory, shown};
use crate::heard::Role;
use crate::input::{open_scripts, open_source};
use crate::output::{Errors, Output};
use crate::progress::ProgressLine;
use crate::refusals::Host;
use crate::writing::{Destination, write_log};
use clap::ArgMatches;
use expectations::error_named;
use explore_commands::{FaultOptions, Workers, faults_over, to_write_case};
use fault_injection::{Choice, FaultCase, Filling, Injected};
use posix_terms::Errno;
use std::alloc::{AllocError, Global};
use std::thread::Threads;

// `detio faults`, as the command line has it.
pub(crate) fn run_faults<T: Threads + Sync>(
    host: Host<'_>,
    threads: &T,
    matches: &ArgMatches<'_>,
) -> Result<u8, AllocError> {
    let rt = host.rt;
    let Some(path) = matches.get_str("log") else {
        return Ok(2);
    };
    if let Some(out) = matches.get_str("out") {
        return write_case(host, matches, path, out);
    }
    let errors = match matches.get_str("errors") {
        Some(names) => match errors_named(rt.alloc(), names)? {
            Some(errors) => Some(errors),
            None => return Ok(not_errors(rt)),
        },
        None => None,
    };
    let options = FaultOptions {
        choice: Choice {
            errors: errors.as_ref().map(|errors| errors.as_slice()),
            short: matches.get_flag("short"),
        },
        filling: filling_of(matches),
        shown: shown(matches),
    };
    let log = open_source(host, path, Role::Log);
    let sources = open_scripts(host, matches.get_strs("script").unwrap_or(&[]))?;
    keep_memory(rt.alloc());
    let mut progress = ProgressLine::new(rt);
    let workers = Workers {
        threads,
        jobs: jobs(matches),
    };
    let status = faults_over(
        &workers,
        rt.alloc(),
        options,
        log,
        sources,
        &mut progress,
        &mut Output::new(host),
        &mut Errors::new(rt),
    );
    Ok(status.unwrap_or(4))
}

// Writes the log of the one case that is asked for.
fn write_case(
    host: Host<'_>,
    matches: &ArgMatches<'_>,
    path: &str,
    out: &str,
) -> Result<u8, AllocError> {
    let rt = host.rt;
    let Some(case) = case_of(matches.get_strs("only").unwrap_or(&[])) else {
        return Ok(not_a_case(rt));
    };
    let log = open_source(host, path, Role::Log);
    let scripts = matches.get_strs("script").unwrap_or(&[]);
    let sources = open_scripts(host, scripts)?;
    let to_write = to_write_case(rt.alloc(), case, filling_of(matches), log, sources)?;
    let to = Destination {
        host,
        force: matches.get_flag("force"),
        scripts,
    };
    write_log(to, to_write, out)
}

// The case of these words: a thread, the number of one of its records, and an error or a count.
fn case_of(words: &[&str]) -> Option<FaultCase> {
    Some(FaultCase {
        thread: words.first()?.parse::<usize>().ok()?,
        number: words.get(1)?.parse::<usize>().ok()?,
        injected: injected_of(words.get(2)?)?,
    })
}

fn injected_of(word: &str) -> Option<Injected> {
    match error_named(word.as_bytes()) {
        Some(error) => Some(Injected::Fail(error)),
        None => Some(Injected::Short(word.parse::<u64>().ok()?)),
    }
}

fn not_a_case(rt: &HostRuntime) -> u8 {
    let _ = eprintln!(rt;
        "error: --only is a thread, the number of its record, and an error or a count, as 0 1 EIO"
    );
    2
}

// The errors of these names, which stand between commas, if they are names of errors.
fn errors_named(alloc: Global, names: &str) -> Result<Option<Vec<Errno>>, AllocError> {
    let mut errors = Vec::new(alloc);
    for name in names.split(',') {
        let Some(error) = error_named(name.as_bytes()) else {
            return Ok(None);
        };
        if !errors.contains(&error) {
            errors.push(error)?;
        }
    }
    Ok(Some(errors))
}

fn not_errors(rt: &HostRuntime) -> u8 {
    let _ = eprintln!(rt; "error: --errors are names with commas between them, as EIO,ENOENT");
    2
}

fn filling_of(matches: &ArgMatches<'_>) -> Option<Filling> {
    match matches.get_str("then")? {
        "fail" => Some(Filling::Fail),
        "well" => Some(Filling::Well),
        _ => None,
    }
}
