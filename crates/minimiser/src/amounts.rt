ghost use Rattle.std.specs.Prelude.{◌≡◌, IfOk};
ghost use Rattle.thread_scripts.specs.Words.{lines_of};
ghost use Rattle.minimiser.specs.Amounts.{amounts_in, amounts_of, part_amounts, plus};
ghost use Rattle.minimiser.specs.Parts.{part_of};

use crate::part::Part;
use posix_terms::Bytes;
use std::alloc::{AllocError, Global};
use thread_scripts::text_lines;

/// How much there is of scripts.
#[derive(Clone, Copy, Debug, PartialEq, Eq)]
pub struct Amounts {
    pub threads: usize,
    /// All lines, also those that do nothing.
    pub lines: usize,
    /// The lines that are delays.
    pub delays: usize,
    /// The units of these.
    pub units: u64,
}

/// How much there is of the scripts with these texts. An error means out of memory, or more than can
/// be counted.
pub fn measure(alloc: Global, texts: &[Bytes]) -> Result<Amounts, AllocError>
    ensures { IfOk result (λ amounts. amounts ≡ amounts_of texts.now) }
{
    let mut all = Amounts {
        threads: 0,
        lines: 0,
        delays: 0,
        units: 0,
    };
    for i in 0..texts.len() {
        let lines = thread_amounts(alloc, texts[i].as_slice())?;
        all = plus(all, lines)?;
    }
    Ok(all)
}

// How much one thread with this text is.
fn thread_amounts(alloc: Global, text: &[u8]) -> Result<Amounts, AllocError>
    ensures { IfOk result (λ amounts. amounts ≡ amounts_in (lines_of text.now)) }
{
    let lines = text_lines(alloc, text)?;
    let mut all = Amounts {
        threads: 1,
        lines: 0,
        delays: 0,
        units: 0,
    };
    for i in 0..lines.len() {
        let part = Part::of(alloc, lines[i])?;
        all = plus(all, part_amounts(part))?;
    }
    Ok(all)
}

// How much a line is of which this is all.
fn part_amounts(part: Part) -> Amounts
    ensures { result ≡ part_amounts part }
{
    let (delays, units) = match part.units() {
        Some(units) => (1, units),
        None => (0, 0),
    };
    Amounts {
        threads: 0,
        lines: 1,
        delays,
        units,
    }
}

fn plus(first: Amounts, more: Amounts) -> Result<Amounts, AllocError>
    ensures { IfOk result (λ sum. sum ≡ plus first more) }
{
    Ok(Amounts {
        threads: first.threads.checked_add(more.threads).ok_or(AllocError)?,
        lines: first.lines.checked_add(more.lines).ok_or(AllocError)?,
        delays: first.delays.checked_add(more.delays).ok_or(AllocError)?,
        units: first.units.checked_add(more.units).ok_or(AllocError)?,
    })
}
