ghost use Rattle.std.specs.Prelude.{IfOk, length, map};
ghost use Rattle.command_inputs.specs.Sources.{HasEach, IsRead};

use crate::faults::needs_scripts;
use command_texts::{Printed, Source, TextReader, Unread, cannot_read, fits, read_all};
use posix_terms::Bytes;
use std::alloc::{AllocError, Global};

/// What was read of the sources of scripts.
#[derive(Drop)]
pub enum SourceTexts {
    /// 1 to 16 texts.
    Read(Vec<Bytes>),
    /// Nothing: this is printed for the first fault.
    Fault(Printed),
}

/// Reads the sources of scripts: one text of each.
pub fn source_texts<R: TextReader + Drop>(
    alloc: Global,
    sources: Vec<Source<'_, R>>,
) -> Result<SourceTexts, AllocError>
    ensures read { IfOk result (
        IsRead (map (λ s. (s.path.now, R.remaining s.reader)) sources.entry.items)) }
    ensures each { IfOk result (HasEach (length sources.entry.items)) }
{
    if !fits(sources.len()) {
        return Ok(SourceTexts::Fault(needs_scripts(alloc)?));
    }
    match read_all(alloc, sources) {
        Ok(texts) => Ok(SourceTexts::Read(texts)),
        Err(Unread::Script(path)) => Ok(SourceTexts::Fault(cannot_read(alloc, path)?)),
        Err(Unread::Memory) => Err(AllocError),
    }
}
