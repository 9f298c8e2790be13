ghost use Rattle.std.specs.Prelude.{◌≡◌, IfOk, map, option_and_then, option_map};
ghost use Rattle.thread_scripts.specs.Grammar.{readings_from, readings_of};
ghost use Rattle.thread_scripts.specs.Lines.{words_say};
ghost use Rattle.thread_scripts.specs.Readings.{said};
ghost use Rattle.thread_scripts.specs.Words.{lines_of};

use crate::fault::LineFault;
use crate::labels::{Label, labels, place_after};
use crate::line::Line;
use crate::lines::read_line;
use crate::words::{SplitLine, split_lines, text_lines};
use std::alloc::{AllocError, Global};

/// What a line of a text says.
#[derive(Debug, PartialEq, Eq, Drop)]
pub enum LineReading {
    /// The line is bad.
    Bad,
    /// A comment, an empty line or a line of spaces.
    Nothing,
    Line(Line),
}

/// What the words of a line say.
fn read_one(
    alloc: Global,
    labels: &[Label],
    place: usize,
    words: &Option<Vec<&[u8]>>,
) -> Result<LineReading, AllocError>
    ensures { IfOk result (λ reading.
        said reading
        ≡ option_and_then (words_say (map (λ l. (l.name.now, l.place)) labels.now) place)
        (option_map (λ v. map (λ w. w.now) v.items) words.now)) }
{
    match read_line(alloc, labels, place, words) {
        Ok(Some(line)) => Ok(LineReading::Line(line)),
        Ok(None) => Ok(LineReading::Nothing),
        Err(LineFault::Bad) => Ok(LineReading::Bad),
        Err(LineFault::Memory) => Err(AllocError),
    }
}

/// What each of these lines says.
fn read_each(
    alloc: Global,
    labels: &[Label],
    split: &[SplitLine],
) -> Result<Vec<LineReading>, AllocError>
    ensures { IfOk result (λ readings.
        map said readings.items
        ≡ readings_from (map (λ l. (l.name.now, l.place)) labels.now) 0
        (map (λ l. l.text.now) split.now)) }
{
    let mut readings = Vec::new(alloc);
    let mut place = 0;
    for i in 0..split.len() {
        let words = &split[i].words;
        readings.push(read_one(alloc, labels, place, words)?)?;
        place = place_after(place, words);
    }
    Ok(readings)
}

/// What each line of a text says, however many there are, with the bad ones among them. Where no
/// line is bad, and there are not too many, the script is what they say.
pub fn text_readings(alloc: Global, text: &[u8]) -> Result<Vec<LineReading>, AllocError>
    ensures { IfOk result (λ readings.
        map said readings.items ≡ readings_of (lines_of text.now)) }
{
    let texts = text_lines(alloc, text)?;
    let split = split_lines(alloc, &texts)?;
    let labels = labels(alloc, &split)?;
    read_each(alloc, &labels, &split)
}
