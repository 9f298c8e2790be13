// What is printed of the cases of a log's outcomes.
ghost use Rattle.std.specs.Prelude.{◌≡◌, ◌++◌, ◌<◌, ◌^◌, [], IfOk, OnOk, slice_index_or};
ghost use Rattle.std.specs.Prelude.{option_copied, slice_get};
ghost use Rattle.explore_texts.specs.CaseTexts.{case_sums, case_text, injected_text, kind_text};
ghost use Rattle.explore_texts.specs.Explored.{cases_printed};
ghost use Rattle.explore_texts.specs.Found.{tallied};
ghost use Rattle.explore_texts.specs.declared.judgement.Tally.{Tally};

use crate::explored_text::{Shown, found_lines, printed_so, push_counts, status_of};
use crate::finding::Finding;
use crate::json_lines::push_case_sums_json;
use command_texts::{Printed, push_number, push_word, request_word};
use fault_injection::{FaultCase, Injected};
use posix_terms::{Given, Outcomes, errno_name};
use std::alloc::{AllocError, Global};

/// What is printed of what was found of cases, and of the run by the outcomes as they are.
pub fn cases_printed(
    alloc: Global,
    shown: Shown,
    as_is: &Finding,
    findings: &[Finding],
) -> Result<Printed, AllocError>
    requires { (tally : Tally) → tallied tally findings.now < 2 ^ 64 }
    ensures { IfOk result (λ printed.
        printed ≡ cases_printed shown as_is.now findings.now) }
{
    let status = status_of(shown.allowed, as_is, findings);
    let mut output = found_lines(alloc, shown, as_is, findings)?;
    if shown.json {
        push_case_sums_json(&mut output, status, findings)?;
    } else {
        push_sums(&mut output, findings)?;
    }
    Ok(printed_so(status, output))
}

// Adds the last line.
#[tactic(auto, unfolding(crate::specs::CaseTexts::case_sums))]
fn push_sums(text: &mut Vec<u8>, findings: &[Finding]) -> Result<(), AllocError>
    requires { (tally : Tally) → tallied tally findings.now < 2 ^ 64 }
    ensures { OnOk result (text.new.items ≡ text.old.items ++ case_sums findings.now) }
{
    push_word(text, "cases ")?;
    push_number(text, findings.len() as u64)?;
    push_counts(text, findings)?;
    push_word(text, "\n")
}

/// Adds the place of the outcome that a case replaces, and what comes in its place.
#[tactic(auto, unfolding(crate::specs::CaseTexts::case_text))]
pub fn push_case(
    text: &mut Vec<u8>,
    outcomes: &[Outcomes],
    case: FaultCase,
) -> Result<(), AllocError>
    ensures { OnOk result (
        text.new.items ≡ text.old.items ++ case_text outcomes.now case) }
{
    push_number(text, case.thread as u64)?;
    push_word(text, " ")?;
    push_number(text, case.number as u64)?;
    push_word(text, " ")?;
    push_kind(text, outcome_of(outcomes, case))?;
    push_injected(text, case.injected)?;
    push_word(text, " ")
}

/// The outcome that a case replaces, if there is one.
pub fn outcome_of(outcomes: &[Outcomes], case: FaultCase) -> Option<&Given>
    ensures { option_copied result
        ≡ slice_get (slice_index_or outcomes.now case.thread []) case.number }
{
    outcomes.get(case.thread)?.as_slice().get(case.number)
}

// Adds the kind of request of an outcome.
fn push_kind(text: &mut Vec<u8>, given: Option<&Given>) -> Result<(), AllocError>
    ensures { OnOk result (
        text.new.items ≡ text.old.items ++ kind_text (option_copied given.entry)) }
{
    let Some(given) = given else {
        return Ok(());
    };
    push_word(text, request_word(given.kind))?;
    push_word(text, " ")
}

// Adds what comes in place of an outcome.
fn push_injected(text: &mut Vec<u8>, injected: Injected) -> Result<(), AllocError>
    ensures { OnOk result (text.new.items ≡ text.old.items ++ injected_text injected) }
{
    match injected {
        Injected::Fail(error) => {
            push_word(text, "fail ")?;
            push_word(text, errno_name(error))
        }
        Injected::Short(count) => {
            push_word(text, "short ")?;
            push_number(text, count)
        }
    }
}
