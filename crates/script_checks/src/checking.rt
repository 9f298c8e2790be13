ghost use Rattle.std.specs.Prelude.{◌≡◌, ◌≤◌, ℕ, All, IfOk, Ok, Err, length, map};
ghost use Rattle.thread_scripts.specs.Faults.{bad_line};
ghost use Rattle.thread_scripts.specs.Grammar.{script_of};
ghost use Rattle.thread_scripts.specs.Readings.{said};
ghost use Rattle.script_checks.specs.Checks.{IsChecked, StandsInLine, acting_from, bad_from};

use crate::concerns::{Warning, warnings};
use crate::diagnosis::mistake_in;
use crate::expected::Mistake;
use crate::labels::labels_of;
use crate::words::{PlacedWord, placed_words};
use posix_terms::Limits;
use std::alloc::{AllocError, Global};
use thread_scripts::{LineReading, Script, ScriptFault, parse, text_lines, text_readings};

/// How many bad lines of a text are shown at most.
pub const SHOWN: usize = 20;

/// A bad line, by its number in the text, from 1.
#[derive(Clone, Copy, Debug)]
pub struct BadLine<'a> {
    pub number: usize,
    pub mistake: Mistake<'a>,
}

/// A line of a text that does something: its number, from 1, and its words.
#[derive(Debug, Drop)]
pub struct ActingLine<'a> {
    pub number: usize,
    pub words: Vec<PlacedWord<'a>>,
}

/// What was found of a text.
#[derive(Debug, Drop)]
pub enum Checked<'a> {
    /// It has more than 1,000 lines.
    TooLong,
    /// It has bad lines.
    Bad {
        /// The first of them, at most [`SHOWN`].
        shown: Vec<BadLine<'a>>,
        /// How many more there are.
        left_out: usize,
    },
    /// It is a script.
    Good {
        script: Script,
        /// Its lines that do something, by their places.
        lines: Vec<ActingLine<'a>>,
        warnings: Vec<Warning>,
    },
}

// The numbers of the lines that are bad, from 1.
fn bad_numbers(alloc: Global, readings: &[LineReading]) -> Result<Vec<usize>, AllocError>
    ensures { IfOk result (λ bad. bad.items ≡ bad_from 1 (map said readings.now)) }
{
    let mut bad = Vec::new(alloc);
    for i in 0..readings.len() {
        if matches!(readings[i], LineReading::Bad) {
            bad.push(i + 1)?;
        }
    }
    Ok(bad)
}

// Why the lines of these numbers are bad.
fn mistakes<'a>(
    alloc: Global,
    texts: &[&'a [u8]],
    numbers: &[usize],
) -> Result<Vec<BadLine<'a>>, AllocError>
    requires { All (λ n. (1 ≤ n) × (n ≤ length texts.now)) numbers.now }
    ensures numbers { IfOk result (λ shown. map (λ bad. bad.number) shown.items ≡ numbers.now) }
    ensures columns { IfOk result (λ shown.
        All (StandsInLine (map (λ t. t.now) texts.now)) shown.items) }
{
    let labels = labels_of(alloc, texts)?;
    let mut shown = Vec::new(alloc);
    for i in 0..numbers.len() {
        let number = numbers[i];
        let mistake = mistake_in(alloc, &labels, number, texts[number - 1])?;
        shown.push(BadLine { number, mistake })?;
    }
    Ok(shown)
}

// The lines that do something, by what the lines of these texts say.
fn acting_lines<'a>(
    alloc: Global,
    texts: &[&'a [u8]],
    readings: &[LineReading],
) -> Result<Vec<ActingLine<'a>>, AllocError>
    requires { length readings.now ≡ length texts.now }
    ensures { IfOk result (λ lines.
        map (λ l. l.number) lines.items ≡ acting_from 1 (map said readings.now)) }
{
    let mut lines = Vec::new(alloc);
    for i in 0..readings.len() {
        if matches!(readings[i], LineReading::Line(_)) {
            let number = i + 1;
            let words = placed_words(alloc, texts[i])?;
            lines.push(ActingLine { number, words })?;
        }
    }
    Ok(lines)
}

/// What is wrong with a text, or may be: its bad lines or, where it is a script, the warnings.
pub fn check_text<'a>(alloc: Global, text: &'a [u8]) -> Result<Checked<'a>, AllocError>
    ensures { IfOk result (IsChecked text.now) }
{
    match parse(alloc, text) {
        Ok(script) => check_script(alloc, text, script),
        Err(ScriptFault::TooLong) => Ok(Checked::TooLong),
        Err(ScriptFault::BadLine(_)) => check_bad(alloc, text),
        Err(ScriptFault::Memory) => Err(AllocError),
    }
}

// The warnings of a text that is this script.
fn check_script<'a>(
    alloc: Global,
    text: &'a [u8],
    script: Script,
) -> Result<Checked<'a>, AllocError>
    requires { script_of text.now ≡ Ok script }
    ensures { IfOk result (IsChecked text.now) }
{
    let texts = text_lines(alloc, text)?;
    let readings = text_readings(alloc, text)?;
    let lines = acting_lines(alloc, &texts, &readings)?;
    let warnings = warnings(alloc, script.lines())?;
    Ok(Checked::Good {
        script,
        lines,
        warnings,
    })
}

// The bad lines of a text.
fn check_bad<'a>(alloc: Global, text: &'a [u8]) -> Result<Checked<'a>, AllocError>
    requires { (n : ℕ) × (script_of text.now ≡ Err (bad_line n)) }
    ensures { IfOk result (IsChecked text.now) }
{
    let texts = text_lines(alloc, text)?;
    let readings = text_readings(alloc, text)?;
    let bad = bad_numbers(alloc, &readings)?;
    let count = bad.len().min(SHOWN);
    Ok(Checked::Bad {
        shown: mistakes(alloc, &texts, &bad[..count])?,
        left_out: bad.len() - count,
    })
}
