ghost use Rattle.std.specs.Prelude.{◌≡◌, ◌+◌, ◌<◌, ◌≤◌, ◌^◌, IfOk, IfErr, map, option_map};
ghost use Rattle.expectations.specs.Expected.{IsFaultBelow, call_first, expectation_below};
ghost use Rattle.expectations.specs.Expected.{is_call};
ghost use Rattle.expectations.specs.Expected.{expected_below, with_line, words_expected};

use crate::expected::Expectation;
use crate::fault::{ExpectationFault, Reason};
use crate::reading::wanted_of;
use crate::wanted::Wanted;
use posix_terms::pieces;
use std::alloc::{AllocError, Global};
use thread_scripts::{kind_named, line_words};

// What an expectation sees of the lines above it.
#[derive(Clone, Copy)]
pub struct Above {
    // How many they are.
    pub lines: usize,
    // The number, from 1, of the last that is counted, and 0 where none is.
    pub last: usize,
    // Whether that is a call's.
    pub is_call: bool,
    // How many are counted.
    pub place: usize,
}

// The words after `#=`, if the line begins with it.
fn words_expected<'a>(alloc: Global, line: &'a [u8]) -> Result<Option<Vec<&'a [u8]>>, AllocError>
    ensures { IfOk result (λ words.
        option_map (λ v. map (λ w. w.now) v.items) words ≡ words_expected line.now) }
{
    match line {
        [b'#', b'=', words @ ..] => Ok(Some(pieces(alloc, words, b' ')?)),
        _ => Ok(None),
    }
}

// Whether the first word names a call.
fn call_first(words: &Option<Vec<&[u8]>>) -> bool
    ensures { result ≡ call_first (option_map (λ v. map (λ w. w.now) v.items) words.now) }
{
    match words {
        Some(words) => match words.first() {
            Some(word) => kind_named(word).is_some(),
            None => false,
        },
        None => false,
    }
}

/// Whether a line of a script is that of a call: its first word names one.
pub fn is_call_line(alloc: Global, line: &[u8]) -> Result<bool, AllocError>
    ensures { IfOk result (λ is. is ≡ is_call line.now) }
{
    Ok(call_first(&line_words(alloc, line)?))
}

impl Above {
    // The lines above with one more below them.
    pub fn with_line(self, alloc: Global, line: &[u8]) -> Result<Above, AllocError>
        requires lines { self.lines + 1 < 2 ^ 64 }
        requires place { self.place ≤ self.lines }
        ensures { IfOk result (λ above. above ≡ with_line self line.now) }
    {
        let words = line_words(alloc, line)?;
        let lines = self.lines + 1;
        match &words {
            Some(words) if words.is_empty() => Ok(Above { lines, ..self }),
            words => Ok(Above {
                lines,
                last: lines,
                is_call: call_first(words),
                place: self.place + 1,
            }),
        }
    }

    // The expectation below these lines.
    fn expectation(self, wanted: Option<Wanted>) -> Result<Expectation, Reason>
        requires { self.lines + 1 < 2 ^ 64 }
        ensures { result ≡ expectation_below self wanted }
    {
        let wanted = wanted.ok_or(Reason::Words)?;
        if self.last == 0 {
            return Err(Reason::NothingAbove);
        }
        if !self.is_call {
            return Err(Reason::NotACall);
        }
        Ok(Expectation {
            line: self.lines + 1,
            call: self.last,
            place: self.place,
            wanted,
        })
    }

    // What is expected on a line below these, if it has an expectation.
    pub fn expected(
        self,
        alloc: Global,
        line: &[u8],
    ) -> Result<Option<Expectation>, ExpectationFault>
        requires { self.lines + 1 < 2 ^ 64 }
        ensures ok { IfOk result (λ expectation.
            expected_below self (words_expected line.now)
            ≡ option_map (λ e. Ok e) expectation) }
        ensures err { IfErr result (λ fault.
            IsFaultBelow self (expected_below self (words_expected line.now)) fault) }
    {
        let Some(words) = words_expected(alloc, line)? else {
            return Ok(None);
        };
        let wanted = wanted_of(alloc, &words)?;
        match self.expectation(wanted) {
            Ok(expectation) => Ok(Some(expectation)),
            Err(reason) => Err(ExpectationFault::Bad {
                line: self.lines + 1,
                reason,
            }),
        }
    }
}
