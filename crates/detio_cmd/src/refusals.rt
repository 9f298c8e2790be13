// Why the host refused what a command asked of it, for `--why`.
use crate::heard::Heard;
use commands::LARGEST_FILE;
use std::cell::Cell;
use std::io::{self, Read};

// Why something was refused.
#[derive(Clone, Copy)]
enum Refusal {
    // The host answered so.
    Host(io::Error),
    // The file that was to be written is a log.
    IsALog,
    // The text has more bytes than are read.
    TooLarge,
}

// The first refusal: the one for which the command ends.
#[derive(Drop)]
pub(crate) struct Refusals {
    first: Cell<Option<Refusal>>,
}

impl Refusals {
    pub(crate) fn new() -> Refusals {
        Refusals {
            first: Cell::new(None),
        }
    }

    pub(crate) fn note(&self, error: io::Error) {
        self.note_first(Refusal::Host(error));
    }

    pub(crate) fn note_log(&self) {
        self.note_first(Refusal::IsALog);
    }

    pub(crate) fn note_size(&self) {
        self.note_first(Refusal::TooLarge);
    }

    fn note_first(&self, refusal: Refusal) {
        if self.first.get().is_none() {
            self.first.set(Some(refusal));
        }
    }

    // Says on standard error why the first refusal was, if there was one.
    pub(crate) fn say(&self, rt: &HostRuntime) {
        let _ = match self.first.get() {
            Some(Refusal::Host(error)) => eprintln!(rt; "the host: {error}"),
            Some(Refusal::IsALog) => eprintln!(rt; "the file there is a log: --force replaces it"),
            Some(Refusal::TooLarge) => {
                eprintln!(rt; "it has more than {LARGEST_FILE} bytes, and no more are read")
            }
            None => Ok(()),
        };
    }
}

// The host, what it refused so far, and what was read of it.
#[derive(Clone, Copy)]
pub(crate) struct Host<'h> {
    pub rt: &'h HostRuntime,
    pub refusals: &'h Refusals,
    pub heard: &'h Heard,
}

// A reader whose failures are noted. An interrupted read is none.
#[derive(Drop)]
pub(crate) struct NotedReads<'a, R> {
    pub reader: &'a mut R,
    pub refusals: &'a Refusals,
}

impl<R: Read> Read for NotedReads<'_, R> {
    fn read(&mut self, buffer: &mut [u8]) -> io::Result<usize> {
        let read = self.reader.read(buffer);
        match &read {
            Err(error) if error.kind() != io::ErrorKind::Interrupted => self.refusals.note(*error),
            _ => {}
        }
        read
    }
}
