// The pictures of one run, and of two.
ghost use Rattle.std.specs.Prelude.{◌≡◌, IfOk};
ghost use Rattle.compare_and_draw.specs.Pictures.{ArePictures, IsDrawn, IsPageIf, IsTraceIf};
ghost use Rattle.compare_and_draw.specs.Pictures.{OneDraws, TwoRunsDraw, place_of};

use crate::clocks::{NotedClocks, drawn_calls};
use answered_calls::{answered_calls, lines_blocked};
use command_texts::Printed;
use commands::Run;
use comparator::{Verdict, compare_by};
use posix_terms::Bytes;
use run_pictures::{DrawnRun, page, trace};
use std::alloc::{AllocError, Global};

/// What is asked of a drawing.
#[derive(Clone, Copy, Debug, PartialEq, Eq)]
pub struct DrawOptions {
    /// Whether a page of all runs is made.
    pub page: bool,
    /// Whether the trace of the first run is made.
    pub trace: bool,
}

/// What is drawn.
#[derive(Drop)]
pub enum Drawn {
    /// The page and the trace, each where it was asked for.
    Pictures {
        page: Option<Bytes>,
        trace: Option<Bytes>,
    },
    /// Nothing: this is printed for the first fault.
    Fault(Printed),
}

/// A run, what it is called, and the clocks of its calls.
#[derive(Clone, Copy)]
pub struct NamedRun<'a> {
    pub name: &'a str,
    pub run: &'a Run,
    pub clocks: &'a NotedClocks,
}

/// What is drawn of a run of the scripts of these texts.
pub fn one_drawn(
    alloc: Global,
    options: DrawOptions,
    title: &[u8],
    texts: &[Bytes],
    one: NamedRun<'_>,
) -> Result<Drawn, AllocError>
    ensures { IfOk result (
        OneDraws options title.now texts.now one.entry.name.now one.entry.run.now) }
{
    let run = drawn_run(alloc, texts, one)?;
    let runs = [run];
    pictures(alloc, options, title, &runs, None)
}

/// What is drawn of two runs of them.
pub fn two_drawn<'a>(
    alloc: Global,
    options: DrawOptions,
    title: &[u8],
    texts: &[Bytes],
    one: NamedRun<'a>,
    other: NamedRun<'a>,
) -> Result<Drawn, AllocError>
    ensures { IfOk result (
        TwoRunsDraw options title.now texts.now
        (one.entry.name.now, one.entry.run.now) (other.entry.name.now, other.entry.run.now)) }
{
    let verdict = compare_by(true, &one.run.transcripts, &other.run.transcripts);
    let first = drawn_run(alloc, texts, one)?;
    let second = drawn_run(alloc, texts, other)?;
    let runs = [first, second];
    pictures(alloc, options, title, &runs, place_of(verdict))
}

// A run of the scripts of these texts, as it is drawn.
fn drawn_run<'a>(
    alloc: Global,
    texts: &[Bytes],
    named: NamedRun<'a>,
) -> Result<DrawnRun<'a>, AllocError>
    ensures { IfOk result (IsDrawn texts.now named.entry.name.now named.entry.run.now) }
{
    let run = named.run;
    let rows = run.history.rows();
    let answered = answered_calls(alloc, texts, &run.transcripts, rows)?;
    Ok(DrawnRun {
        name: named.name.as_bytes(),
        threads: run.transcripts.threads().len(),
        calls: drawn_calls(alloc, &answered, named.clocks)?,
        stop: run.stop,
        blocked: lines_blocked(alloc, texts, &run.transcripts, rows)?,
    })
}

// The first row that differs, by its thread and its number.
fn place_of(verdict: Verdict) -> Option<(usize, usize)>
    ensures { result ≡ place_of verdict }
{
    match verdict {
        Verdict::Same => None,
        Verdict::Differs { thread, row } => Some((thread, row)),
    }
}

// What is asked for of these runs.
fn pictures(
    alloc: Global,
    options: DrawOptions,
    title: &[u8],
    runs: &[DrawnRun<'_>],
    differs: Option<(usize, usize)>,
) -> Result<Drawn, AllocError>
    ensures { IfOk result (ArePictures options title.now runs.now differs) }
{
    let page = page_if(alloc, options.page, title, runs, differs)?;
    let trace = trace_if(alloc, options.trace, runs)?;
    Ok(Drawn::Pictures { page, trace })
}

fn page_if(
    alloc: Global,
    asked: bool,
    title: &[u8],
    runs: &[DrawnRun<'_>],
    differs: Option<(usize, usize)>,
) -> Result<Option<Bytes>, AllocError>
    ensures { IfOk result (IsPageIf asked title.now runs.now differs) }
{
    if asked {
        Ok(Some(Bytes::from_vec(page(alloc, title, runs, differs)?)))
    } else {
        Ok(None)
    }
}

fn trace_if(alloc: Global, asked: bool, runs: &[DrawnRun<'_>]) -> Result<Option<Bytes>, AllocError>
    ensures { IfOk result (IsTraceIf asked runs.now) }
{
    match runs.first() {
        Some(run) if asked => Ok(Some(Bytes::from_vec(trace(alloc, &run.calls)?))),
        _ => Ok(None),
    }
}
