use crate::heard::Role;
use crate::input::{open_scripts, open_source};
use crate::output::{Errors, Output};
use crate::refusals::Host;
use crate::writing::{Destination, to_file, write_printed};
use clap::ArgMatches;
use commands::{print, settings_of};
use compare_and_draw::{DrawOptions, Drawn, draw_log, draw_logs, draw_plain};
use posix_terms::Bytes;
use std::alloc::AllocError;

// `detio draw`, as the command line has it.
pub(crate) fn run_draw(host: Host<'_>, matches: &ArgMatches<'_>) -> Result<u8, AllocError> {
    let (page_path, trace_path) = (matches.get_str("out"), matches.get_str("trace"));
    let options = DrawOptions {
        page: page_path.is_some(),
        trace: trace_path.is_some(),
    };
    match drawn(host, options, matches)? {
        Drawn::Pictures { page, trace } => {
            let pictures = [(page_path, page.as_ref()), (trace_path, trace.as_ref())];
            write_pictures(host, matches, &pictures)
        }
        Drawn::Fault(printed) => {
            Ok(print(&printed, &mut Output::new(host), &mut Errors::new(host.rt)).unwrap_or(4))
        }
    }
}

// What is drawn: of two logs, of one, or of the plain run.
fn drawn(
    host: Host<'_>,
    options: DrawOptions,
    matches: &ArgMatches<'_>,
) -> Result<Drawn, AllocError> {
    let alloc = host.rt.alloc();
    let log = matches
        .get_str("log")
        .map(|path| open_source(host, path, Role::Log));
    let other = matches
        .get_str("with")
        .map(|path| open_source(host, path, Role::OtherLog));
    let sources = open_scripts(host, matches.get_strs("script").unwrap_or(&[]))?;
    match (log, other) {
        (Some(log), Some(other)) => draw_logs(alloc, options, log, other, sources),
        (Some(log), None) => draw_log(alloc, options, log, sources),
        (None, _) => {
            let settings = settings_of(
                matches.get_one::<u32>("patience"),
                matches.get_one::<u32>("door-cost"),
                None,
            );
            draw_plain(alloc, settings, options, sources)
        }
    }
}

// Writes the pictures that are there to their files.
fn write_pictures(
    host: Host<'_>,
    matches: &ArgMatches<'_>,
    pictures: &[(Option<&str>, Option<&Bytes>)],
) -> Result<u8, AllocError> {
    let mut files = Vec::new(host.rt.alloc());
    for picture in pictures {
        if let (Some(path), Some(bytes)) = *picture {
            files.push(to_file(path, bytes))?;
        }
    }
    let to = Destination {
        host,
        force: matches.get_flag("force"),
        scripts: matches.get_strs("script").unwrap_or(&[]),
    };
    write_printed(to, None, files.as_slice())
}
