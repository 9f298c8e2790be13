ghost use Rattle.std.specs.Prelude.{◌≡◌, All, IfOk, MatchOption, string_bytes};
ghost use Rattle.thread_scripts.specs.Words.{lines_of};
ghost use Rattle.expectations.specs.Expected.{IsFault};
ghost use Rattle.expectations.specs.declared.fault.ExpectationFault.TheVariants as fault;
ghost use Rattle.command_texts.specs.Expecting.{IsFirstBad, IsGood, expectation_fault};
ghost use Rattle.command_texts.specs.Expecting.{expectation_line, reason_text, unmet_line};
ghost use Rattle.command_texts.specs.Expecting.{with_unmet};

use crate::printed::{Printed, fault};
use crate::text_parts::{push_place, push_word};
use crate::transcripts::push_reply;
use expectations::{Expectation, ExpectationFault, Reason, expectations_of};
use posix_terms::{Bytes, Reply};
use std::alloc::{AllocError, Global};

/// A bad expectation in the text of a script.
#[derive(Clone, Copy, Debug, PartialEq, Eq)]
pub struct BadExpectation {
    /// The number of the script, from 0.
    pub script: usize,
    /// The number of its line in the text, from 1.
    pub line: usize,
    pub reason: Reason,
}

/// The first bad expectation of texts, if they have one.
pub fn first_bad_expectation(
    alloc: Global,
    texts: &[Bytes],
) -> Result<Option<BadExpectation>, AllocError>
    ensures { IfOk result (λ bad. MatchOption bad (All IsGood texts.now) (IsFirstBad texts.now)) }
{
    for (script, text) in texts.iter().enumerate() {
        if let Some((line, reason)) = first_bad_line(alloc, text.as_slice())? {
            return Ok(Some(BadExpectation {
                script,
                line,
                reason,
            }));
        }
    }
    Ok(None)
}

// The line of the first bad expectation of a text, and what is wrong with it.
fn first_bad_line(alloc: Global, text: &[u8]) -> Result<Option<(usize, Reason)>, AllocError>
    ensures { IfOk result (λ bad.
        MatchOption bad
        (IsGood text.now)
        (λ bad. IsFault (lines_of text.now) (fault.Bad bad.0 bad.1))) }
{
    match expectations_of(alloc, text) {
        Ok(_) => Ok(None),
        Err(ExpectationFault::Bad { line, reason }) => Ok(Some((line, reason))),
        Err(ExpectationFault::Memory) => Err(AllocError),
    }
}

/// This expectation is bad.
pub fn bad_expectation(alloc: Global, bad: BadExpectation) -> Result<Printed, AllocError>
    ensures { IfOk result (λ printed. printed ≡ expectation_fault bad) }
{
    let line = bad_expectation_line(alloc, bad)?;
    fault(alloc, 3, line.as_str())
}

fn bad_expectation_line(alloc: Global, bad: BadExpectation) -> Result<String, AllocError>
    ensures { IfOk result (λ line. string_bytes line ≡ expectation_line bad) }
{
    let BadExpectation {
        script,
        line,
        reason,
    } = bad;
    let reason = reason_text(reason);
    format!(in alloc; "script {script}: bad expectation on line {line}: {reason}\n")
}

fn reason_text(reason: Reason) -> &'static str
    ensures { result.now ≡ reason_text reason }
{
    match reason {
        Reason::Words => "not the words of a reply",
        Reason::NothingAbove => "no call above",
        Reason::NotACall => "the line above is not a call",
    }
}

/// The line of a reply of this thread that does not meet this expectation.
#[tactic(auto, unfolding(crate::specs::Expecting::unmet_line))]
pub fn unmet_line(
    alloc: Global,
    thread: usize,
    expectation: &Expectation,
    reply: &Reply,
) -> Result<Bytes, AllocError>
    ensures { IfOk result (λ line. line ≡ unmet_line thread expectation.now reply.now) }
{
    let wanted = expectation.wanted.text(alloc)?;
    let mut line = Vec::new(alloc);
    push_word(&mut line, "expected ")?;
    push_place(&mut line, thread as u64, expectation.call as u64)?;
    push_word(&mut line, wanted.as_str())?;
    push_word(&mut line, " ")?;
    push_reply(&mut line, reply)?;
    push_word(&mut line, "\n")?;
    Ok(Bytes::from_vec(line))
}

/// What is printed for a run, with the line of its unmet expectation after its own last line.
pub fn with_unmet(run: Printed, line: &Bytes) -> Result<Printed, AllocError>
    ensures { IfOk result (λ printed. printed ≡ with_unmet run line.now) }
{
    let Printed {
        status,
        output,
        errors,
    } = run;
    let mut output = output.into_vec();
    output.extend_from_slice(line.as_slice())?;
    Ok(Printed {
        status: if status == 0 { 1 } else { status },
        output: Bytes::from_vec(output),
        errors,
    })
}
