ghost use Rattle.std.specs.Prelude.{◌≡◌, length, map, IfOk, true};
ghost use Rattle.call_machine.specs.Plain.{counts_fit};
ghost use Rattle.commands.specs.Ran.{RunRan};
ghost use Rattle.compare_and_draw.specs.Draws.{LogDraws, LogsDraw, OtherDraws, PlainDraws};
ghost use Rattle.compare_and_draw.specs.Draws.{RanDraws, SecondDraws, TextsDraw, TwoDraw};
ghost use Rattle.compare_and_draw.specs.Draws.{plain_name};
ghost use Rattle.compare_and_draw.specs.Runs.{PlainComes};

use crate::pictures::{DrawOptions, Drawn, NamedRun, one_drawn, two_drawn};
use crate::running::{Watched, log_ran, plain_ran};
use crate::titles::title_of;
use command_inputs::{SourceTexts, ToReplay, source_texts, to_replay};
use command_texts::{ReadFault, Source, TextReader, cannot_read, read_text};
use commands::Ran;
use posix_terms::{Bytes, Settings};
use std::alloc::{AllocError, Global};

/// What is drawn of the plain run of scripts under these settings. The first fault counts: the
/// number of scripts, one that cannot be read, one that is not a script, the settings. An error
/// means out of memory.
pub fn draw_plain<R: TextReader + Drop>(
    alloc: Global,
    settings: Settings,
    options: DrawOptions,
    sources: Vec<Source<'_, R>>,
) -> Result<Drawn, AllocError>
    ensures { IfOk result (
        PlainDraws settings options
        (map (λ s. (s.path.now, R.remaining s.reader)) sources.entry.items)) }
{
    let title = title_of(alloc, &sources)?;
    match source_texts(alloc, sources)? {
        SourceTexts::Read(texts) => plain_drawn(alloc, settings, options, &title, &texts),
        SourceTexts::Fault(printed) => Ok(Drawn::Fault(printed)),
    }
}

// What is drawn of the plain run of the scripts of texts that were read.
fn plain_drawn(
    alloc: Global,
    settings: Settings,
    options: DrawOptions,
    title: &[u8],
    texts: &[Bytes],
) -> Result<Drawn, AllocError>
    requires { counts_fit (length texts.now) (length texts.now) ≡ true }
    ensures { IfOk result (
        TextsDraw (PlainComes settings) options title.now texts.now plain_name) }
{
    let watched = plain_ran(alloc, settings, texts)?;
    ran_drawn(alloc, options, title, texts, "the plain run", watched)
}

/// What is drawn of the replay of a log with scripts. The first fault counts: the number of
/// scripts, the log if it cannot be read, a script that cannot be read, one that is not a script,
/// the log's, another number of threads. An error means out of memory.
pub fn draw_log<R: TextReader + Drop>(
    alloc: Global,
    options: DrawOptions,
    log: Source<'_, R>,
    sources: Vec<Source<'_, R>>,
) -> Result<Drawn, AllocError>
    ensures { IfOk result (
        LogDraws options
        (log.entry.path.now, R.remaining log.entry.reader)
        (map (λ s. (s.path.now, R.remaining s.reader)) sources.entry.items)) }
{
    let title = title_of(alloc, &sources)?;
    let path = log.path;
    match to_replay(alloc, log, sources)? {
        ToReplay::Texts(text, texts) => log_drawn(alloc, options, &title, &texts, path, &text),
        ToReplay::Fault(printed) => Ok(Drawn::Fault(printed)),
    }
}

// What is drawn of the replay of a log that was read, with the scripts of these texts.
fn log_drawn(
    alloc: Global,
    options: DrawOptions,
    title: &[u8],
    texts: &[Bytes],
    path: &str,
    log: &Bytes,
) -> Result<Drawn, AllocError>
    ensures { IfOk result (TextsDraw (RunRan log.now) options title.now texts.now path.now) }
{
    let watched = log_ran(alloc, log.as_slice(), texts)?;
    ran_drawn(alloc, options, title, texts, path, watched)
}

// What is drawn of what came of a run, under this name.
fn ran_drawn(
    alloc: Global,
    options: DrawOptions,
    title: &[u8],
    texts: &[Bytes],
    name: &str,
    watched: Watched,
) -> Result<Drawn, AllocError>
    ensures { IfOk result (RanDraws options title.now texts.now name.now watched.ran) }
{
    let Watched { ran, clocks } = watched;
    match ran {
        Ran::Run(run) => {
            let named = NamedRun {
                name,
                run: &run,
                clocks: &clocks,
            };
            one_drawn(alloc, options, title, texts, named)
        }
        Ran::Fault(printed) => Ok(Drawn::Fault(printed)),
    }
}

// A log that was read: its path, and its bytes.
#[derive(Clone, Copy)]
struct LogRead<'a> {
    path: &'a str,
    text: &'a [u8],
}

/// What is drawn of the replays of two logs with the same scripts. The first fault counts: the
/// number of scripts, the first log if it cannot be read, a script that cannot be read, the second
/// log if it cannot be read, a script that is not one, the first log's, the second's. An error
/// means out of memory.
pub fn draw_logs<R: TextReader + Drop>(
    alloc: Global,
    options: DrawOptions,
    log: Source<'_, R>,
    other: Source<'_, R>,
    sources: Vec<Source<'_, R>>,
) -> Result<Drawn, AllocError>
    ensures { IfOk result (
        LogsDraw options
        (log.entry.path.now, R.remaining log.entry.reader)
        (other.entry.path.now, R.remaining other.entry.reader)
        (map (λ s. (s.path.now, R.remaining s.reader)) sources.entry.items)) }
{
    let title = title_of(alloc, &sources)?;
    let path = log.path;
    match to_replay(alloc, log, sources)? {
        ToReplay::Texts(text, texts) => {
            let text = text.as_slice();
            other_drawn(
                alloc,
                options,
                &title,
                &texts,
                LogRead { path, text },
                other,
            )
        }
        ToReplay::Fault(printed) => Ok(Drawn::Fault(printed)),
    }
}

// What is drawn once the first log and the scripts were read.
fn other_drawn<R: TextReader + Drop>(
    alloc: Global,
    options: DrawOptions,
    title: &[u8],
    texts: &[Bytes],
    log: LogRead<'_>,
    other: Source<'_, R>,
) -> Result<Drawn, AllocError>
    ensures { IfOk result (
        OtherDraws options title.now texts.now
        (log.entry.path.now, log.entry.text.now)
        (other.entry.path.now, R.remaining other.entry.reader)) }
{
    let path = other.path;
    match read_text(alloc, other.reader) {
        Ok(text) => {
            let text = text.as_slice();
            logs_drawn(alloc, options, title, texts, log, LogRead { path, text })
        }
        Err(ReadFault::Failed) => Ok(Drawn::Fault(cannot_read(alloc, path)?)),
        Err(ReadFault::Memory) => Err(AllocError),
    }
}

// What is drawn once all was read.
fn logs_drawn(
    alloc: Global,
    options: DrawOptions,
    title: &[u8],
    texts: &[Bytes],
    log: LogRead<'_>,
    other: LogRead<'_>,
) -> Result<Drawn, AllocError>
    ensures { IfOk result (
        TwoDraw options title.now texts.now
        (log.entry.path.now, log.entry.text.now)
        (other.entry.path.now, other.entry.text.now)) }
{
    let Watched { ran, clocks } = log_ran(alloc, log.text, texts)?;
    match ran {
        Ran::Run(run) => {
            let first = NamedRun {
                name: log.path,
                run: &run,
                clocks: &clocks,
            };
            second_drawn(alloc, options, title, texts, first, other)
        }
        Ran::Fault(printed) => Ok(Drawn::Fault(printed)),
    }
}

// What is drawn of this run, and of the replay of a second log.
fn second_drawn(
    alloc: Global,
    options: DrawOptions,
    title: &[u8],
    texts: &[Bytes],
    first: NamedRun<'_>,
    other: LogRead<'_>,
) -> Result<Drawn, AllocError>
    ensures { IfOk result (
        SecondDraws options title.now texts.now
        (first.entry.name.now, first.entry.run.now)
        (other.entry.path.now, other.entry.text.now)) }
{
    let Watched { ran, clocks } = log_ran(alloc, other.text, texts)?;
    match ran {
        Ran::Run(run) => {
            let second = NamedRun {
                name: other.path,
                run: &run,
                clocks: &clocks,
            };
            two_drawn(alloc, options, title, texts, first, second)
        }
        Ran::Fault(printed) => Ok(Drawn::Fault(printed)),
    }
}
