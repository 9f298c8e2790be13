ghost use Rattle.std.specs.Prelude.{◌≡◌, ◌<◌, ℕ, ◌++◌, List, [], length, count_by, filter_map, map};
ghost use Rattle.std.specs.Prelude.{true, false, Contains, slice_index_or};
ghost use Rattle.std.specs.Prelude.{IfOk, OnOk, OnSome, Option, is_some, option_map, unwrap_or};
ghost use Rattle.std.specs.Bool.{OnTrue};
ghost use Rattle.thread_scripts.specs.Words.{lines_of};
ghost use Rattle.minimiser.specs.Parts.{is_there, kept_line, part_of};
ghost use Rattle.minimiser.specs.Reductions.{after, after_all, count_kept, half_of, is_kept};
ghost use Rattle.minimiser.specs.Reductions.{kept_lines, kept_of, kept_outcomes, kept_texts};
ghost use Rattle.minimiser.specs.Reductions.{line_now, part_at, place_now, with_part, without};
ghost use Rattle.minimiser.specs.Rounds.{all_of};
ghost use Rattle.minimiser.specs.Scopes.{IsTaking};
ghost use Rattle.minimiser.specs.declared.part.Part.{Part};
ghost use Rattle.minimiser.specs.declared.part.Part.TheVariants as part;
ghost use Rattle.minimiser.specs.declared.step.Removal.{Removal};
ghost use Rattle.minimiser.specs.declared.step.Removal.TheVariants as step;

use crate::part::Part;
use crate::step::Removal;
use crate::target::Place;
use explorer::given_copied;
use posix_terms::{Bytes, Outcomes};
use std::alloc::{AllocError, Global};
use std::marker::Model;
use thread_scripts::text_lines;

// What is kept of the lines of a thread. Contracts see the list.
#[derive(Debug, Drop)]
pub struct KeptLines {
    kept: Vec<Part>,
}

impl Model for KeptLines {
    ghost Value = { List Part };

    ghost view = { λ l. l.kept.items };
}

/// What is kept of scripts: some of their lines, some of the threads, and delays of fewer units.
/// Contracts see for each thread that was given, what is kept of each of its lines; or `None` where
/// the thread is not.
#[derive(Debug, Drop)]
pub struct Reduction {
    threads: Vec<Option<KeptLines>>,
}

impl Model for Reduction {
    ghost Value = { List (Option (List Part)) };

    ghost view = { λ r. r.threads.items };
}

impl Reduction {
    // All lines of these texts.
    pub(crate) fn all(alloc: Global, texts: &[Bytes]) -> Result<Reduction, AllocError>
        ensures { IfOk result (λ all. all ≡ all_of texts.now) }
    {
        let mut threads = Vec::with_capacity(alloc, texts.len())?;
        for text in texts {
            threads.push(Some(all_lines(alloc, text.as_slice())?))?;
        }
        Ok(Reduction { threads })
    }

    /// The texts of the threads that are kept, each with the lines that are. `texts` are those that
    /// were given.
    pub fn texts(&self, alloc: Global, texts: &[Bytes]) -> Result<Vec<Bytes>, AllocError>
        ensures { IfOk result (λ kept. kept.items ≡ kept_texts self.now texts.now) }
    {
        let mut kept = Vec::new(alloc);
        for (thread, text) in texts.iter().enumerate() {
            if let Some(lines) = self.lines(thread) {
                kept.push(text_kept(alloc, lines, text.as_slice())?)?;
            }
        }
        Ok(kept)
    }

    /// What comes from outside for the threads that are kept. `outcomes` are those that were given.
    pub fn outcomes(
        &self,
        alloc: Global,
        outcomes: &[Outcomes],
    ) -> Result<Vec<Outcomes>, AllocError>
        ensures { IfOk result (λ kept. kept.items ≡ kept_outcomes self.now outcomes.now) }
    {
        let mut kept = Vec::new(alloc);
        for (thread, given) in outcomes.iter().enumerate() {
            if self.lines(thread).is_some() {
                kept.push(Outcomes::from_vec(given_copied(alloc, given.as_slice())?))?;
            }
        }
        Ok(kept)
    }

    // How many lines are kept.
    pub(crate) fn line_count(&self) -> usize {
        let mut count = 0_usize;
        for thread in &self.threads {
            if let Some(lines) = thread {
                count = count.saturating_add(lines_kept(&lines.kept));
            }
        }
        count
    }

    /// The place with the numbers that its thread and lines have in what is kept, if they are.
    pub fn place(&self, place: Place) -> Option<Place>
        ensures { result ≡ place_now self.now place }
    {
        let lines = self.lines(place.thread)?;
        Some(Place {
            thread: threads_kept(&self.threads[..place.thread]),
            call: line_kept(lines, place.call)?,
            line: line_kept(lines, place.line)?,
        })
    }

    // What is kept of a thread, if it is.
    fn lines(&self, thread: usize) -> Option<&[Part]>
        ensures value { option_map (λ lines. lines.now) result ≡ kept_of self.now thread }
        ensures within { OnSome result (thread < length self.now) }
    {
        match self.threads.get(thread) {
            Some(Some(lines)) => Some(lines.kept.as_slice()),
            _ => None,
        }
    }

    // Whether what this step takes away is kept.
    pub(crate) fn has(&self, step: Removal) -> bool
        ensures { result ≡ is_kept self.now step }
    {
        match step {
            Removal::Line { thread, line } => match self.lines(thread) {
                Some(lines) => is_line_kept(lines, line),
                None => false,
            },
            Removal::Thread { thread } => self.lines(thread).is_some(),
            Removal::Shorten {
                thread,
                line,
                units,
            } => match self.part(thread, line).units() {
                Some(now) => units < now,
                None => false,
            },
        }
    }

    // What is kept of a line.
    fn part(&self, thread: usize, line: usize) -> Part
        ensures { result ≡ part_at self.now thread line }
    {
        match self.lines(thread) {
            Some(lines) => part_among(lines, line),
            None => Part::Gone,
        }
    }

    // The step that leaves half of the units of this line, if it is a delay.
    fn half(&self, delay: Removal) -> Option<Removal>
        ensures { result ≡ half_of self.now delay }
    {
        let Removal::Line { thread, line } = delay else {
            return None;
        };
        let units = self.part(thread, line).units()?;
        Some(Removal::Shorten {
            thread,
            line,
            units: units / 2,
        })
    }

    // The steps that leave half of the units of each of these delays that is kept.
    pub(crate) fn halves(
        &self,
        alloc: Global,
        delays: &[Removal],
    ) -> Result<Vec<Removal>, AllocError>
        ensures { IfOk result (λ halves.
            halves.items ≡ filter_map (half_of self.now) delays.now) }
    {
        let mut halves = Vec::new(alloc);
        for delay in delays {
            if let Some(half) = self.half(*delay) {
                halves.push(half)?;
            }
        }
        Ok(halves)
    }

    // The units of a delay that is kept.
    pub(crate) fn units(&self, delay: Removal) -> Option<u64> {
        match delay {
            Removal::Line { thread, line } => self.part(thread, line).units(),
            _ => None,
        }
    }

    // What is kept after a step.
    pub(crate) fn without(&self, alloc: Global, step: Removal) -> Result<Reduction, AllocError>
        requires { is_kept self.now step ≡ true }
        ensures { IfOk result (λ rest. rest ≡ without self.now step) }
    {
        let mut rest = self.copied(alloc)?;
        rest.take_away(step);
        Ok(rest)
    }

    // What is kept after each of these steps that takes something away.
    pub(crate) fn after_all(
        &self,
        alloc: Global,
        steps: &[Removal],
    ) -> Result<Reduction, AllocError>
        ensures { IfOk result (λ rest. rest ≡ after_all self.now steps.now) }
    {
        let mut rest = self.copied(alloc)?;
        for step in steps {
            rest.take_away(*step);
        }
        Ok(rest)
    }

    fn copied(&self, alloc: Global) -> Result<Reduction, AllocError>
        ensures { IfOk result (λ copied. copied ≡ self.now) }
    {
        let threads = copied(alloc, &self.threads)?;
        Ok(Reduction { threads })
    }

    // Makes a step, if that takes something away.
    fn take_away(&mut self, step: Removal)
        ensures { self.new ≡ after self.old step }
    {
        if !self.has(step) {
            return;
        }
        match step {
            Removal::Line { thread, line } => self.set(thread, line, Part::Gone),
            Removal::Thread { thread } => self.threads[thread] = None,
            Removal::Shorten {
                thread,
                line,
                units,
            } => self.set(thread, line, Part::Shorter(units)),
        }
    }

    // Sets what is kept of a line.
    fn set(&mut self, thread: usize, line: usize, part: Part)
        requires thread { thread < length self.old }
        requires line { line < length (unwrap_or (kept_of self.old thread) []) }
        ensures { self.new ≡ with_part self.old thread line part }
    {
        if let Some(lines) = &mut self.threads[thread] {
            lines.kept[line] = part;
        }
    }

    // Each step that takes something away, in the order in which they are tried: the lines of each
    // thread from the last to the first, then the threads.
    pub(crate) fn steps(&self, alloc: Global) -> Result<Vec<Removal>, AllocError>
        ensures { IfOk result (λ steps.
            (step : Removal) → IsTaking step → is_kept self.now step ≡ true
            → Contains steps.items step) }
    {
        let mut steps = self.line_steps(alloc)?;
        for thread in 0..self.threads.len() {
            steps.push(Removal::Thread { thread })?;
        }
        Ok(steps)
    }

    // Those that take away a line.
    pub(crate) fn line_steps(&self, alloc: Global) -> Result<Vec<Removal>, AllocError>
        ensures { IfOk result (λ steps. (thread line : ℕ)
            → is_kept self.now (step.Line thread line) ≡ true
            → Contains steps.items (step.Line thread line)) }
    {
        let mut steps = Vec::new(alloc);
        for thread in 0..self.threads.len() {
            push_lines(&mut steps, thread, self.count_of(thread))?;
        }
        Ok(steps)
    }

    // Those that take away a thread.
    pub(crate) fn thread_steps(&self, alloc: Global) -> Result<Vec<Removal>, AllocError> {
        let mut steps = Vec::new(alloc);
        for thread in 0..self.threads.len() {
            steps.push(Removal::Thread { thread })?;
        }
        Ok(steps)
    }

    // How many lines were given of a thread, if it is kept.
    fn count_of(&self, thread: usize) -> usize
        ensures { result ≡ length (unwrap_or (kept_of self.now thread) []) }
    {
        match self.lines(thread) {
            Some(lines) => lines.len(),
            None => 0,
        }
    }
}

// All lines of a text.
fn all_lines(alloc: Global, text: &[u8]) -> Result<KeptLines, AllocError>
    ensures { IfOk result (λ all. all ≡ map part_of (lines_of text.now)) }
{
    let lines = text_lines(alloc, text)?;
    let mut kept = Vec::with_capacity(alloc, lines.len())?;
    for line in &lines {
        kept.push(Part::of(alloc, line)?)?;
    }
    Ok(KeptLines { kept })
}

// The lines of a text that are kept.
fn text_kept(alloc: Global, kept: &[Part], text: &[u8]) -> Result<Bytes, AllocError>
    ensures { IfOk result (λ text_kept. text_kept ≡ kept_lines kept.now (lines_of text.now)) }
{
    let lines = text_lines(alloc, text)?;
    let mut rest = Vec::new(alloc);
    for (i, line) in lines.iter().enumerate() {
        push_kept(&mut rest, part_among(kept, i), line)?;
    }
    Ok(Bytes::from_vec(rest))
}

// Adds what is kept of a line, with its line feed.
fn push_kept(text: &mut Vec<u8>, part: Part, line: &[u8]) -> Result<(), AllocError>
    ensures { OnOk result (text.new.items ≡ text.old.items ++ kept_line part line.now) }
{
    match part {
        Part::Gone => {}
        Part::Shorter(units) => {
            let work = format!(in *text.allocator(); "work {units}\n")?;
            text.extend_from_slice(work.as_bytes())?;
        }
        _ => {
            text.extend_from_slice(line)?;
            text.push(b'\n')?;
        }
    }
    Ok(())
}

// What is kept of a line: nothing where there is none.
fn part_among(lines: &[Part], line: usize) -> Part
    ensures { result ≡ slice_index_or lines.now line part.Gone }
{
    match lines.get(line) {
        Some(part) => *part,
        None => Part::Gone,
    }
}

fn is_line_kept(lines: &[Part], line: usize) -> bool
    ensures value { result ≡ is_there (slice_index_or lines.now line part.Gone) }
    ensures within { OnTrue result (line < length lines.now) }
{
    line < lines.len() && lines[line].is_there()
}

// The number that this line has among those that are kept, if it is one; both from 1.
fn line_kept(lines: &[Part], line: usize) -> Option<usize>
    ensures { result ≡ line_now lines.now line }
{
    if !is_line_kept(lines, line.saturating_sub(1)) {
        return None;
    }
    Some(lines_kept(&lines[..line]))
}

fn lines_kept(lines: &[Part]) -> usize
    ensures { result ≡ count_kept lines.now }
{
    lines.iter().filter(|part| part.is_there()).count()
}

fn threads_kept(threads: &[Option<KeptLines>]) -> usize
    ensures { result ≡ count_by is_some threads.now }
{
    threads.iter().filter(|thread| thread.is_some()).count()
}

fn copied(
    alloc: Global,
    threads: &[Option<KeptLines>],
) -> Result<Vec<Option<KeptLines>>, AllocError>
    ensures { IfOk result (λ copied. copied.items ≡ threads.now) }
{
    let mut copied = Vec::with_capacity(alloc, threads.len())?;
    for lines in threads {
        copied.push(match lines {
            Some(lines) => Some(KeptLines {
                kept: Vec::from_slice(alloc, &lines.kept)?,
            }),
            None => None,
        })?;
    }
    Ok(copied)
}

// The steps that take away a line of a thread, from the last to the first.
fn push_lines(steps: &mut Vec<Removal>, thread: usize, lines: usize) -> Result<(), AllocError>
    ensures before { OnOk result (
        (step : Removal) → Contains steps.old.items step → Contains steps.new.items step) }
    ensures lines { OnOk result (
        (line : ℕ) → line < lines → Contains steps.new.items (step.Line thread line)) }
{
    for line in (0..lines).rev() {
        steps.push(Removal::Line { thread, line })?;
    }
    Ok(())
}
