use crate::log_file::is_script;
use crate::new_files::{NotWritten, ToFile, write_files};
use crate::output::{Errors, Output};
use crate::refusals::Host;
use commands::{cannot_write, print};
use explore_commands::ScriptsToWrite;
use posix_terms::Bytes;
use std::alloc::AllocError;
use std::io::{ErrorKind, Write};

// Where a command writes files.
#[derive(Clone, Copy)]
pub(crate) struct Destination<'a> {
    pub host: Host<'a>,
    // Whether files that are there are replaced.
    pub force: bool,
    // The paths of the scripts, which no file takes the place of.
    pub scripts: &'a [&'a str],
}

// Writes scripts to files of this directory, which is made where it is not there, and prints their
// paths; with them the log of their run, where outcomes came from a log.
pub(crate) fn write_scripts(
    to: Destination<'_>,
    to_write: ScriptsToWrite,
    folder: &str,
    by_log: bool,
) -> Result<u8, AllocError> {
    let host = to.host;
    let alloc = host.rt.alloc();
    let (texts, log) = match to_write {
        ScriptsToWrite::Texts(texts, log) => (texts, log),
        ScriptsToWrite::Fault(printed) => {
            return Ok(print(&printed, &mut Output::new(host), &mut Errors::new(host.rt)).unwrap_or(
                4,
            ));
        }
    };
    let mut paths = Vec::new(alloc);
    for thread in 0..texts.len() {
        paths.push(format!(in alloc; "{folder}/{thread}.script")?)?;
    }
    if by_log {
        paths.push(format!(in alloc; "{folder}/run.log")?)?;
    }
    let mut files = Vec::new(alloc);
    for (path, bytes) in paths.iter().zip(texts.iter().chain(std::iter::once(&log))) {
        files.push(to_file(path.as_str(), bytes))?;
    }
    write_printed(to, Some(folder), files.as_slice())
}

// Writes the log of a run to a file.
pub(crate) fn write_log(
    to: Destination<'_>,
    to_write: ScriptsToWrite,
    path: &str,
) -> Result<u8, AllocError> {
    let host = to.host;
    match to_write {
        ScriptsToWrite::Texts(_, log) => write_printed(to, None, &[to_file(path, &log)]),
        ScriptsToWrite::Fault(printed) => {
            Ok(print(&printed, &mut Output::new(host), &mut Errors::new(host.rt)).unwrap_or(4))
        }
    }
}

pub(crate) fn to_file<'a>(path: &'a str, bytes: &'a Bytes) -> ToFile<'a> {
    ToFile {
        path,
        bytes: bytes.as_slice(),
    }
}

// Writes these files, and then prints their paths; or a line that says which one it cannot write.
pub(crate) fn write_printed(
    to: Destination<'_>,
    folder: Option<&str>,
    files: &[ToFile<'_>],
) -> Result<u8, AllocError> {
    let host = to.host;
    for file in files {
        if to.force && is_script(host.rt, file.path, to.scripts) {
            let path = file.path;
            let _ = writeln!(Errors::new(host.rt), "error: {path} is one of the scripts");
            return Ok(2);
        }
    }
    match write_files(host.rt, folder, files, to.force) {
        Ok(()) => Ok(paths_printed(host, files)),
        Err(NotWritten { error, .. }) if error.kind() == ErrorKind::OutOfMemory => Err(AllocError),
        Err(NotWritten { path, error }) => {
            host.refusals.note(error);
            let _ = writeln!(Errors::new(host.rt), "cannot write {path}");
            Ok(4)
        }
    }
}

fn paths_printed(host: Host<'_>, files: &[ToFile<'_>]) -> u8 {
    let mut output = Output::new(host);
    for file in files {
        let path = file.path;
        if writeln!(output, "{path}").is_err() {
            return cannot_write(&mut Errors::new(host.rt)).unwrap_or(4);
        }
    }
    0
}
