ghost use Rattle.std.specs.Prelude.{IfOk, map};
ghost use Rattle.command_inputs.specs.LogTexts.{IsToReplay, LogIsRead};

use crate::faults::needs_scripts;
use command_texts::{
    Printed, ReadFault, Source, TextReader, Unread, cannot_read, fits, read_all, read_text,
};
use posix_terms::Bytes;
use std::alloc::{AllocError, Global};

/// What was read of the sources of a log and of scripts.
#[derive(Drop)]
pub enum ToReplay {
    /// The texts of the log and of the scripts.
    Texts(Bytes, Vec<Bytes>),
    /// Nothing: this is printed for the first fault.
    Fault(Printed),
}

/// Reads the source of a log and then those of scripts. There must be 1 to 16 scripts.
pub fn to_replay<R: TextReader + Drop>(
    alloc: Global,
    log: Source<'_, R>,
    sources: Vec<Source<'_, R>>,
) -> Result<ToReplay, AllocError>
    ensures { IfOk result (
        IsToReplay
        (log.entry.path.now, R.remaining log.entry.reader)
        (map (λ s. (s.path.now, R.remaining s.reader)) sources.entry.items)) }
{
    if !fits(sources.len()) {
        return Ok(ToReplay::Fault(needs_scripts(alloc)?));
    }
    match read_text(alloc, log.reader) {
        Ok(text) => log_read(alloc, text, sources),
        Err(ReadFault::Failed) => Ok(ToReplay::Fault(cannot_read(alloc, log.path)?)),
        Err(ReadFault::Memory) => Err(AllocError),
    }
}

// Reads the scripts, once the log was read.
fn log_read<R: TextReader + Drop>(
    alloc: Global,
    log: Bytes,
    sources: Vec<Source<'_, R>>,
) -> Result<ToReplay, AllocError>
    ensures { IfOk result (LogIsRead log
        (map (λ s. (s.path.now, R.remaining s.reader)) sources.entry.items)) }
{
    match read_all(alloc, sources) {
        Ok(texts) => Ok(ToReplay::Texts(log, texts)),
        Err(Unread::Script(path)) => Ok(ToReplay::Fault(cannot_read(alloc, path)?)),
        Err(Unread::Memory) => Err(AllocError),
    }
}
