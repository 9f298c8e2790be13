ghost use Rattle.std.specs.Prelude.{◌≡◌, IfOk, map, option_map};
ghost use Rattle.minimiser.specs.Parts.{is_there, operand_of, part_of, units_among, units_of};
ghost use Rattle.minimiser.specs.Parts.{work_first};

use std::alloc::{AllocError, Global};
use thread_scripts::{line_words, natural};

/// What is kept of a line.
#[derive(Clone, Copy, Debug, PartialEq, Eq)]
pub enum Part {
    /// Nothing.
    Gone,
    /// The line as it was given. It is not a delay.
    Line,
    /// The line as it was given, a delay of so many units.
    Delay(u64),
    /// A delay of so many units in place of a longer one.
    Shorter(u64),
}

impl Part {
    // All of a line.
    pub(crate) fn of(alloc: Global, line: &[u8]) -> Result<Part, AllocError>
        ensures { IfOk result (λ part. part ≡ part_of line.now) }
    {
        let words = line_words(alloc, line)?;
        if !work_first(&words) {
            return Ok(Part::Line);
        }
        Ok(Part::Delay(units_among(&words)))
    }

    // Whether something is kept.
    pub(crate) fn is_there(self) -> bool
        ensures { result ≡ is_there self }
    {
        match self {
            Part::Gone => false,
            _ => true,
        }
    }

    // The units of a delay that is kept.
    pub(crate) fn units(self) -> Option<u64>
        ensures { result ≡ units_of self }
    {
        match self {
            Part::Delay(units) => Some(units),
            Part::Shorter(units) => Some(units),
            _ => None,
        }
    }
}

// Whether the first word is that of a work.
pub(crate) fn work_first(words: &Option<Vec<&[u8]>>) -> bool
    ensures { result ≡ work_first (option_map (λ v. map (λ w. w.now) v.items) words.now) }
{
    match words {
        Some(words) => match words.first() {
            Some(word) => *word == b"work".as_slice(),
            None => false,
        },
        None => false,
    }
}

// The units of a work, by its words.
fn units_among(words: &Option<Vec<&[u8]>>) -> u64
    ensures { result ≡ units_among (option_map (λ v. map (λ w. w.now) v.items) words.now) }
{
    match words {
        Some(words) => operand_of(words),
        None => 0,
    }
}

// The operand of these words, if there is one and it is a number.
fn operand_of(words: &[&[u8]]) -> u64
    ensures { result ≡ operand_of (map (λ w. w.now) words.now) }
{
    let [_, units] = words else {
        return 0;
    };
    natural(units, u64::MAX).unwrap_or(0)
}
