ghost use Rattle.std.specs.Prelude.{None};

use crate::heard::Role;
use crate::refusals::{Host, NotedReads};
use clap::ArgMatches;
use commands::{LARGEST_FILE, Source, SourceFault, TextReader, read_once};
use std::alloc::{AllocError, Global};
use std::fs::{self, File};
use std::io::{self, Stdin};

// Standard input, as the command line has it in place of a path.
const STDIN: &str = "-";

// Where the host has standard input.
const STDIN_PATH: &str = "/dev/stdin";

// Where the host has what the command line gives as the path of an input.
pub(crate) fn path_of(path: &str) -> &str {
    if path == STDIN { STDIN_PATH } else { path }
}

// Where a text comes from.
#[derive(Drop)]
pub(crate) struct Input<'h> {
    place: Origin,
    host: Host<'h>,
    role: Role,
    // How many bytes of it were read.
    read: usize,
}

// A text that could not be opened fails when it is read, so that the faults of all scripts are found in
// one order.
#[derive(Drop)]
enum Origin {
    Stdin(Stdin),
    File(File),
    Unreadable(io::Error),
}

impl TextReader for Input<'_> {
    ghost remaining = { λ _. None };

    fn next_bytes(&mut self, buffer: &mut [u8]) -> Result<usize, SourceFault> {
        let refusals = self.host.refusals;
        let count = match &mut self.place {
            Origin::Stdin(reader) => read_once(&mut NotedReads { reader, refusals }, buffer)?,
            Origin::File(reader) => read_once(&mut NotedReads { reader, refusals }, buffer)?,
            Origin::Unreadable(error) => {
                refusals.note(*error);
                return Err(SourceFault);
            }
        };
        self.note(&buffer[..count]);
        Ok(count)
    }
}

impl Input<'_> {
    // These bytes were read.
    fn note(&mut self, bytes: &[u8]) {
        self.host.heard.add(self.role, bytes);
        self.read = self.read.saturating_add(bytes.len());
        if self.read > LARGEST_FILE {
            self.host.refusals.note_size();
        }
    }
}

// The scripts at these paths.
pub(crate) fn open_scripts<'a, 'h>(
    host: Host<'h>,
    paths: &[&'a str],
) -> Result<Vec<Source<'a, Input<'h>>>, AllocError> {
    let mut sources = Vec::new(host.rt.alloc());
    for (number, path) in paths.iter().enumerate() {
        sources.push(open_source(host, path, Role::Script(number)))?;
    }
    Ok(sources)
}

// The text at this path. Standard input is read as such, since opening its path again is refused where
// another user made the pipe after it.
pub(crate) fn open_source<'a, 'h>(
    host: Host<'h>,
    path: &'a str,
    role: Role,
) -> Source<'a, Input<'h>> {
    let place = if path_of(path) == STDIN_PATH {
        Origin::Stdin(host.rt.stdin())
    } else {
        match fs::open(host.rt, path) {
            Ok(file) => Origin::File(file),
            Err(error) => Origin::Unreadable(error),
        }
    };
    Source {
        path,
        reader: Input {
            place,
            host,
            role,
            read: 0,
        },
    }
}

// Whether standard input, given as `-`, is to be read a second time.
pub(crate) fn is_read_twice(
    alloc: Global,
    command: &str,
    matches: &ArgMatches<'_>,
) -> Result<bool, AllocError> {
    let mut given = Vec::new(alloc);
    for path in inputs(alloc, command, matches)? {
        if path_of(path) == STDIN_PATH {
            given.push(path)?;
        }
    }
    Ok(given.len() > 1 && given.iter().any(|path| *path == STDIN))
}

// The paths of what a command reads. The log of `record` is written.
fn inputs<'a>(
    alloc: Global,
    command: &str,
    matches: &ArgMatches<'a>,
) -> Result<Vec<&'a str>, AllocError> {
    let mut paths = Vec::new(alloc);
    paths.extend_from_slice(matches.get_strs("script").unwrap_or(&[]))?;
    for id in ["log", "with", "text"] {
        let is_written = id == "log" && command == "record";
        match matches.get_str(id) {
            Some(path) if !is_written => paths.push(path)?,
            _ => {}
        }
    }
    Ok(paths)
}

// Standard input can be read once: wrong usage.
pub(crate) fn read_twice(rt: &HostRuntime) -> u8 {
    let _ = eprintln!(rt; "error: standard input, -, can be read only once");
    2
}
