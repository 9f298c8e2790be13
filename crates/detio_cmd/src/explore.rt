use crate::heard::Role;
use crate::input::{open_scripts, open_source};
use crate::output::{Errors, Output};
use crate::progress::{MinimiseLine, ProgressLine};
use crate::refusals::Host;
use crate::writing::{Destination, write_scripts};
use clap::ArgMatches;
use command_line::seeds_of;
use commands::{cannot_write, settings_of};
use explore_commands::{
    Allowed, ExploreOptions, MinimiseOptions, Sameness, Schedules, Scope, Shown, Workers,
    explore_over, to_minimise, to_write,
};
use posix_terms::Bytes;
use std::alloc::{AllocError, Global};
use std::io::Write;
use std::thread::Threads;

// `detio explore`, as the command line has it.
pub(crate) fn run_explore<T: Threads + Sync>(
    host: Host<'_>,
    threads: &T,
    matches: &ArgMatches<'_>,
) -> Result<u8, AllocError> {
    let rt = host.rt;
    let Some(options) = options(matches) else {
        return Ok(not_seeds(rt));
    };
    let settings = settings_of(
        matches.get_one::<u32>("patience"),
        matches.get_one::<u32>("door-cost"),
        None,
    );
    let alloc = rt.alloc();
    let log = matches
        .get_str("log")
        .map(|path| open_source(host, path, Role::Log));
    let scripts = matches.get_strs("script").unwrap_or(&[]);
    let sources = open_scripts(host, scripts)?;
    if let Some(folder) = matches.get_str("write") {
        let by_log = log.is_some();
        let to_write = to_write(alloc, settings, options, log, sources)?;
        let to = Destination {
            host,
            force: matches.get_flag("force"),
            scripts,
        };
        return write_scripts(to, to_write, folder, by_log);
    }
    keep_memory(alloc);
    let mut progress = ProgressLine::new(rt);
    let (mut output, mut errors) = (Output::new(host), Errors::new(rt));
    let workers = Workers {
        threads,
        jobs: jobs(matches),
    };
    let status = explore_over(
        &workers,
        alloc,
        settings,
        options,
        log,
        sources,
        &mut progress,
        &mut output,
        &mut errors,
    );
    Ok(status.unwrap_or(4))
}

// `detio minimise`, as the command line has it.
pub(crate) fn run_minimise(host: Host<'_>, matches: &ArgMatches<'_>) -> Result<u8, AllocError> {
    let rt = host.rt;
    let Some(folder) = matches.get_str("write") else {
        return Ok(2);
    };
    let settings = settings_of(
        matches.get_one::<u32>("patience"),
        matches.get_one::<u32>("door-cost"),
        None,
    );
    let log = matches
        .get_str("log")
        .map(|path| open_source(host, path, Role::Log));
    let by_log = log.is_some();
    let scripts = matches.get_strs("script").unwrap_or(&[]);
    let sources = open_scripts(host, scripts)?;
    keep_memory(rt.alloc());
    let options = minimise_options(matches);
    let mut watch = MinimiseLine::new(rt);
    let minimised = to_minimise(rt.alloc(), settings, options, log, sources, &mut watch)?;
    let to = Destination {
        host,
        force: matches.get_flag("force"),
        scripts,
    };
    match write_scripts(to, minimised.to_write, folder, by_log)? {
        0 => Ok(taken_printed(host, &minimised.taken)),
        status => Ok(status),
    }
}

// Prints the line that says how much was taken away.
fn taken_printed(host: Host<'_>, taken: &Bytes) -> u8 {
    match Output::new(host).write_all(taken.as_slice()) {
        Ok(()) => 0,
        Err(_) => cannot_write(&mut Errors::new(host.rt)).unwrap_or(4),
    }
}

fn minimise_options(matches: &ArgMatches<'_>) -> MinimiseOptions {
    let scope = match matches.get_flag("schedule") {
        true => Scope::Schedule,
        false => Scope::Everything,
    };
    let sameness = match matches.get_flag("same") {
        true => Sameness::Reply,
        false => Sameness::Error,
    };
    MinimiseOptions { scope, sameness }
}

// Has the allocator keep what a run gives back, for the next run. That of glibc gives memory back to
// the system where more is free than twice the largest block that was, and a run costs some forty
// calls of the system for that. Without memory nothing is changed.
pub(crate) fn keep_memory(alloc: Global) {
    let _ = Vec::<u8>::with_capacity(alloc, 16 << 20);
}

// Which lines are printed, and what is a fault.
pub(crate) fn shown(matches: &ArgMatches<'_>) -> Shown {
    Shown {
        allowed: Allowed {
            stops: matches.get_flag("allow-stops"),
            blocked: matches.get_flag("allow-blocked"),
        },
        failed_only: matches.get_flag("failed"),
        json: matches.get_flag("json"),
    }
}

// In how many threads runs are made.
pub(crate) fn jobs(matches: &ArgMatches<'_>) -> usize {
    matches.get_one::<usize>("jobs").unwrap_or(1)
}

fn options(matches: &ArgMatches<'_>) -> Option<ExploreOptions> {
    let schedules = match matches.get_one::<u32>("delays") {
        Some(delays) => Schedules::Lists { two: delays > 1 },
        None => Schedules::Seeds,
    };
    let (first, end) = match (matches.get_one::<u64>("only"), schedules) {
        (Some(case), _) => (case, case.checked_add(1)?),
        (None, Schedules::Lists { .. }) => (0, matches.get_one::<u64>("most")?),
        (None, Schedules::Seeds) => seeds_of(matches.get_str("seeds")?)?,
    };
    Some(ExploreOptions {
        schedules,
        first,
        end,
        reach: matches.get_one::<u32>("reach")?,
        raw: matches.get_flag("raw"),
        shown: shown(matches),
    })
}

fn not_seeds(rt: &HostRuntime) -> u8 {
    let _ = eprintln!(rt;
        "error: --seeds is the first seed and the one after the last, as 0..1000"
    );
    2
}
