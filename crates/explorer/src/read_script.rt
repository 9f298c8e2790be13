ghost use Rattle.std.specs.Prelude.{◌≡◌, ◌++◌, ◌+◌, ◌<◌, ◌^◌, ◌∷◌, ℕ, List, IfOk, IfSome, OnOk};
ghost use Rattle.std.specs.Prelude.{Some, count_by, map, take};
ghost use Rattle.std.specs.Option.{is_some};
ghost use Rattle.thread_scripts.specs.Grammar.{script_of};
ghost use Rattle.explorer.specs.Delayed.{delayed, moved, redirected, works_from};
ghost use Rattle.explorer.specs.ReadScripts.{AreDelays, IsRead, call_numbers};
ghost use Rattle.explorer.specs.Varied.{varied_text};

use crate::delays::Delays;
use expectations::is_call_line;
use posix_terms::Limits;
use std::alloc::{AllocError, Global};
use std::marker::Model;
use thread_scripts::{Line, Script, line_words, parse, read_scripts_keep_rules, text_lines};

// A script that was read of a text, for many cases of delays. Contracts see the text.
#[derive(Drop)]
pub(crate) struct ReadScript<'a> {
    text: &'a [u8],
    script: Script,
    // The number of the line of each call in the text, by the lines of the script.
    numbers: Vec<Option<usize>>,
    // How many lines the text has.
    lines: usize,
}

impl<'a> Model for ReadScript<'a> {
    ghost Value = { List ℕ };

    ghost view = { λ r. r.text.now };

    ghost invariant = { λ r. IsRead r.text.now r.script r.numbers.items r.lines };
}

impl<'a> ReadScript<'a> {
    // The script of a text. There is none where the text is not a script, or its script could not be read for want of
    // memory.
    pub fn of(alloc: Global, text: &'a [u8]) -> Result<Option<ReadScript<'a>>, AllocError>
        ensures { IfOk result (λ read. IfSome read (λ read. read ≡ text.now)) }
    {
        let Ok(script) = parse(alloc, text) else {
            return Ok(None);
        };
        let lines = text_lines(alloc, text)?;
        Ok(Some(ReadScript {
            text,
            script,
            numbers: call_numbers(alloc, &lines)?,
            lines: lines.len(),
        }))
    }

    // A copy of the script, which shares the bytes of its texts with it.
    pub fn copied(&self, alloc: Global) -> Result<Script, AllocError>
        ensures { IfOk result (λ script. script_of self.now ≡ Ok script) }
    {
        let lines = lines_copied(alloc, self.script.lines())?;
        read_scripts_keep_rules();
        Ok(Script::of(lines))
    }

    // The script of the text with the delays of a thread in this case. There is none where the text with them is too
    // long, or one of them is longer than a work may be.
    pub fn delayed<D: Delays>(
        &self,
        alloc: Global,
        delays: &D,
        case: u64,
        thread: usize,
    ) -> Result<Option<Script>, AllocError>
        ensures { IfOk result (λ found. IfSome found (λ script.
            script_of (varied_text (D.delays_of delays.now case thread) self.now) ≡ Ok script)) }
    {
        let Some(works) = delays_at(alloc, &self.numbers, delays, case, thread)? else {
            return Ok(None);
        };
        match self.lines.checked_add(count_of(&works)) {
            Some(lines) if lines <= Limits::SCRIPT_LINES => {}
            _ => return Ok(None),
        }
        let Some(lines) = delayed(alloc, self.script.lines(), &works)? else {
            return Ok(None);
        };
        read_scripts_keep_rules();
        Ok(Some(Script::of(lines)))
    }
}

// A copy of these lines.
fn lines_copied(alloc: Global, lines: &[Line]) -> Result<Vec<Line>, AllocError>
    ensures { IfOk result (λ copied. copied.items ≡ lines.now) }
{
    let mut copied = Vec::with_capacity(alloc, lines.len())?;
    for line in lines {
        copied.push(line.try_clone()?)?;
    }
    Ok(copied)
}

// The number of each of these lines that makes a call, by those that say something.
fn call_numbers(alloc: Global, lines: &[&[u8]]) -> Result<Vec<Option<usize>>, AllocError>
    ensures { IfOk result (λ numbers.
        numbers.items ≡ works_from Some 0 (map (λ line. line.now) lines.now)) }
{
    let mut numbers = Vec::with_capacity(alloc, lines.len())?;
    for (above, line) in lines.iter().enumerate() {
        push_number(&mut numbers, above, line)?;
    }
    Ok(numbers)
}

// Adds that of a line with so many lines above it, if it says something.
fn push_number(
    numbers: &mut Vec<Option<usize>>,
    above: usize,
    line: &[u8],
) -> Result<(), AllocError>
    requires { above + 1 < 2 ^ 64 }
    ensures { OnOk result ((later : List (List ℕ))
        → numbers.new.items ++ works_from Some (above + 1) later
        ≡ numbers.old.items ++ works_from Some above (line.now ∷ later)) }
{
    let alloc = *numbers.allocator();
    let words = line_words(alloc, line)?;
    if !matches!(&words, Some(words) if words.is_empty()) {
        let is_call = is_call_line(alloc, line)?;
        numbers.push(is_call.then_some(above + 1))?;
    }
    Ok(())
}

// The delays of the calls with these numbers, if none is longer than a work may be.
fn delays_at<D: Delays>(
    alloc: Global,
    numbers: &[Option<usize>],
    delays: &D,
    case: u64,
    thread: usize,
) -> Result<Option<Vec<Option<u64>>>, AllocError>
    ensures { IfOk result (λ found. IfSome found (λ works.
        AreDelays (D.delays_of delays.now case thread) numbers.now works.items)) }
{
    let mut works = Vec::with_capacity(alloc, numbers.len())?;
    for number in numbers {
        let work = match number {
            Some(line) => delays.delay(case, thread, *line),
            None => None,
        };
        if let Some(units) = work
            && Limits::WORK < units
        {
            return Ok(None);
        }
        works.push(work)?;
    }
    Ok(Some(works))
}

// Lines with these works before them, and jumps that lead to where their labels are then; there are none where a
// `usize` does not hold such a place.
fn delayed(
    alloc: Global,
    lines: &[Line],
    works: &[Option<u64>],
) -> Result<Option<Vec<Line>>, AllocError>
    ensures { IfOk result (λ found. IfSome found (λ all. all.items ≡ delayed works.now lines.now)) }
{
    let mut all = Vec::with_capacity(alloc, lines.len().saturating_add(works.len()))?;
    for (place, line) in lines.iter().enumerate() {
        if let Some(Some(units)) = works.get(place) {
            all.push(Line::Work(*units))?;
        }
        let Some(line) = redirected(line, works)? else {
            return Ok(None);
        };
        all.push(line)?;
    }
    Ok(Some(all))
}

// A line, which jumps to where the line to which it jumped stands among these works.
fn redirected(line: &Line, works: &[Option<u64>]) -> Result<Option<Line>, AllocError>
    ensures { IfOk result (λ found. IfSome found (λ l. l ≡ redirected (moved works.now) line.now)) }
{
    let line = match line {
        Line::Jump { place } => moved(works, *place).map(|place| Line::Jump { place }),
        Line::JumpIfZero { register, place } => moved(works, *place).map(
            |place| Line::JumpIfZero {
                register: *register,
                place,
            },
        ),
        Line::JumpIfFailed { place } => {
            moved(works, *place).map(|place| Line::JumpIfFailed { place })
        }
        line => Some(line.try_clone()?),
    };
    Ok(line)
}

// Where the line at this place stands among works, if a `usize` holds that.
#[tactic(auto, using(crate::proofs::ReadOnce::moved_counts))]
fn moved(works: &[Option<u64>], place: usize) -> Option<usize>
    ensures { IfSome result (λ to. to ≡ moved works.now place) }
{
    place.checked_add(count_up_to(works, place))
}

// How many works there are up to that of the line at this place.
#[tactic(auto, using(crate::proofs::ReadOnce::counts_all))]
fn count_up_to(works: &[Option<u64>], place: usize) -> usize
    ensures { result ≡ count_by is_some (take (place + 1) works.now) }
{
    if place < works.len() {
        return count_of(&works[..place + 1]);
    }
    count_of(works)
}

// How many works these are.
fn count_of(works: &[Option<u64>]) -> usize
    ensures { result ≡ count_by is_some works.now }
{
    works.iter().filter(|work| work.is_some()).count()
}
