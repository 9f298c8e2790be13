// What is printed of runs that are compared with one.
ghost use Rattle.std.specs.Prelude.{◌≡◌, ◌++◌, ◌<◌, ◌^◌, [], IfOk, OnOk, option_copied};
ghost use Rattle.explore_texts.specs.Found.{all_pass, as_is_text, cause_text, causes_text};
ghost use Rattle.explore_texts.specs.Found.{change_text, count_text, counted};
ghost use Rattle.explore_texts.specs.Found.{counts_text, difference_text, differs_text};
ghost use Rattle.explore_texts.specs.Found.{ending_text};
ghost use Rattle.explore_texts.specs.Explored.{explored_printed};
ghost use Rattle.explore_texts.specs.Found.{found_lines, found_text};
ghost use Rattle.explore_texts.specs.Found.{line_shown, status_of};
ghost use Rattle.explore_texts.specs.Found.{lines_of, row_at, seen_text, sums_text, tallied};
ghost use Rattle.explore_texts.specs.Found.{unmet_text};

use crate::cut_off::push_cut;
use crate::finding::{Difference, Finding};
use crate::json_lines::push_sums_json;
use crate::judgement::{Allowed, Tally};
use crate::schedule::Schedule;
use crate::schedule_text::push_left;
use answered_calls::BlockedLine;
use command_inputs::UnmetLine;
use command_texts::{Printed, push_call, push_end, push_number, push_word};
use comparator::Verdict;
use explorer::Observation;
use posix_terms::{Bytes, Row, Transcripts};
use run_views::push_waits;
use std::alloc::{AllocError, Global};

/// Which lines are printed, and what is a fault.
#[derive(Clone, Copy, Debug, PartialEq, Eq)]
pub struct Shown {
    pub allowed: Allowed,
    /// Only the lines of what is a fault.
    pub failed_only: bool,
    /// In JSON, an object a line.
    pub json: bool,
}

/// What is printed of so many runs with delays, by what was found of those that are alike and of
/// the run without delays.
pub fn explored_printed(
    alloc: Global,
    shown: Shown,
    schedule: &Schedule,
    as_is: &Finding,
    runs: u64,
    findings: &[Finding],
) -> Result<Printed, AllocError>
    requires { (tally : Tally) → tallied tally findings.now < 2 ^ 64 }
    ensures { IfOk result (λ printed.
        printed ≡ explored_printed shown schedule.now as_is.now runs findings.now) }
{
    let status = status_of(shown.allowed, as_is, findings);
    let mut output = found_lines(alloc, shown, as_is, findings)?;
    if shown.json {
        push_sums_json(&mut output, schedule, runs, status, findings)?;
    } else {
        push_sums(&mut output, schedule, runs, findings)?;
    }
    Ok(printed_so(status, output))
}

// What is printed with this status.
pub(crate) fn printed_so(status: u8, output: Vec<u8>) -> Printed
    ensures { result ≡ record { status = status; output = output.items; errors = [] } }
{
    let errors = Bytes::from_vec(Vec::new(*output.allocator()));
    Printed {
        status,
        output: Bytes::from_vec(output),
        errors,
    }
}

// The exit status: 1 where the run as it is or another is a fault.
pub(crate) fn status_of(allowed: Allowed, as_is: &Finding, findings: &[Finding]) -> u8
    ensures { result ≡ status_of allowed as_is.now findings.now }
{
    if as_is.judgement.passes(allowed) && all_pass(allowed, findings) {
        0
    } else {
        1
    }
}

// The lines of what was found of runs, after that of the run as it is.
pub(crate) fn found_lines(
    alloc: Global,
    shown: Shown,
    as_is: &Finding,
    findings: &[Finding],
) -> Result<Vec<u8>, AllocError>
    ensures { IfOk result (λ lines.
        lines.items ≡ found_lines shown as_is.now findings.now) }
{
    let mut lines = Vec::new(alloc);
    lines.extend_from_slice(as_is.line.as_slice())?;
    push_lines(&mut lines, shown, findings)?;
    Ok(lines)
}

// Whether none of these is a fault.
fn all_pass(allowed: Allowed, findings: &[Finding]) -> bool
    ensures { result ≡ all_pass allowed findings.now }
{
    for finding in findings {
        if !finding.judgement.passes(allowed) {
            return false;
        }
    }
    true
}

// Adds the line of the run as it is.
pub(crate) fn push_as_is(
    text: &mut Vec<u8>,
    before: &Observation,
    cut: &[usize],
    waits: &[BlockedLine],
    unmet: &Option<UnmetLine>,
) -> Result<(), AllocError>
    ensures { OnOk result (
        text.new.items ≡ text.old.items ++ as_is_text before.now cut.now waits.now unmet.now) }
{
    push_word(text, "as they are ")?;
    push_ending(text, before, cut, waits)?;
    push_unmet(text, unmet)
}

// Adds how a run ended, which threads were cut off in it, and which calls were blocked for good.
fn push_ending(
    text: &mut Vec<u8>,
    observation: &Observation,
    cut: &[usize],
    waits: &[BlockedLine],
) -> Result<(), AllocError>
    ensures { OnOk result (
        text.new.items ≡ text.old.items ++ ending_text observation.now cut.now waits.now) }
{
    push_end(text, observation.stop)?;
    push_cut(text, cut)?;
    push_waits(text, waits)
}

// Adds the lines of what was found, all or those of what is a fault.
fn push_lines(text: &mut Vec<u8>, shown: Shown, findings: &[Finding]) -> Result<(), AllocError>
    ensures { OnOk result (text.new.items ≡ text.old.items ++ lines_of shown findings.now) }
{
    for finding in findings {
        push_if_shown(text, shown, finding)?;
    }
    Ok(())
}

fn push_if_shown(text: &mut Vec<u8>, shown: Shown, finding: &Finding) -> Result<(), AllocError>
    ensures { OnOk result (text.new.items ≡ text.old.items ++ line_shown shown finding.now) }
{
    if shown.failed_only && finding.judgement.passes(shown.allowed) {
        return Ok(());
    }
    text.extend_from_slice(finding.line.as_slice())
}

// Adds what is found of runs: how they ended, what differs in them, and the first reply that is not
// as expected.
pub(crate) fn push_found(
    text: &mut Vec<u8>,
    before: &Observation,
    now: &Observation,
    cut: &[usize],
    waits: &[BlockedLine],
    difference: Difference,
    unmet: &Option<UnmetLine>,
) -> Result<(), AllocError>
    ensures { OnOk result (
        text.new.items
        ≡ text.old.items
        ++ found_text before.now now.now cut.now waits.now difference.verdict
        difference.ends_alike unmet.now) }
{
    push_ending(text, now, cut, waits)?;
    push_word(text, " ")?;
    push_difference(text, &before.seen, &now.seen, difference)?;
    push_unmet(text, unmet)
}

fn push_difference(
    text: &mut Vec<u8>,
    before: &Transcripts,
    now: &Transcripts,
    difference: Difference,
) -> Result<(), AllocError>
    ensures { OnOk result (
        text.new.items
        ≡ text.old.items
        ++ difference_text before.now now.now difference.verdict difference.ends_alike) }
{
    match difference.verdict {
        Verdict::Differs { thread, row } => push_differs(text, before, now, thread, row),
        Verdict::Same if difference.ends_alike => push_word(text, "same"),
        Verdict::Same => push_word(text, "ends otherwise"),
    }
}

// Adds the first row that differs, as it was seen before and is seen now.
#[tactic(auto, unfolding(crate::specs::Found::differs_text))]
fn push_differs(
    text: &mut Vec<u8>,
    before: &Transcripts,
    now: &Transcripts,
    thread: usize,
    row: usize,
) -> Result<(), AllocError>
    ensures { OnOk result (
        text.new.items ≡ text.old.items ++ differs_text before.now now.now thread row) }
{
    push_word(text, "differs ")?;
    push_number(text, thread as u64)?;
    push_word(text, " ")?;
    push_number(text, row as u64)?;
    push_word(text, " ")?;
    push_change(text, row_at(before, thread, row), row_at(now, thread, row))
}

// Adds what was seen at a row before, and what is now.
fn push_change(
    text: &mut Vec<u8>,
    before: Option<&Row>,
    now: Option<&Row>,
) -> Result<(), AllocError>
    ensures { OnOk result (
        text.new.items
        ≡ text.old.items ++ change_text (option_copied before.entry) (option_copied now.entry)) }
{
    push_seen(text, before)?;
    push_word(text, " -> ")?;
    push_seen(text, now)
}

pub(crate) fn row_at(seen: &Transcripts, thread: usize, row: usize) -> Option<&Row>
    ensures { option_copied result ≡ row_at seen.now thread row }
{
    seen.threads().get(thread)?.rows().get(row)
}

// Adds what a thread saw at a row, if it saw so much.
fn push_seen(text: &mut Vec<u8>, row: Option<&Row>) -> Result<(), AllocError>
    ensures { OnOk result (
        text.new.items ≡ text.old.items ++ seen_text (option_copied row.entry)) }
{
    match row {
        Some(row) => push_call(text, row),
        None => push_word(text, "-"),
    }
}

// Ends a line.
fn push_unmet(text: &mut Vec<u8>, unmet: &Option<UnmetLine>) -> Result<(), AllocError>
    ensures { OnOk result (text.new.items ≡ text.old.items ++ unmet_text unmet.now) }
{
    let Some(line) = unmet else {
        return push_word(text, "\n");
    };
    push_word(text, " ")?;
    text.extend_from_slice(line.text.as_slice())
}

// Adds the last line.
#[tactic(auto, unfolding(crate::specs::Found::sums_text))]
fn push_sums(
    text: &mut Vec<u8>,
    schedule: &Schedule,
    runs: u64,
    findings: &[Finding],
) -> Result<(), AllocError>
    requires { (tally : Tally) → tallied tally findings.now < 2 ^ 64 }
    ensures { OnOk result (
        text.new.items ≡ text.old.items ++ sums_text schedule.now runs findings.now) }
{
    push_word(text, "runs ")?;
    push_number(text, runs)?;
    push_word(text, " groups ")?;
    push_number(text, findings.len() as u64)?;
    push_counts(text, findings)?;
    push_left(text, schedule, runs)?;
    push_word(text, "\n")
}

// Adds how many runs failed, how many stopped, by their reasons too, and in how many calls were
// blocked for good.
#[tactic(auto, unfolding(crate::specs::Found::counts_text))]
pub(crate) fn push_counts(text: &mut Vec<u8>, findings: &[Finding]) -> Result<(), AllocError>
    requires { (tally : Tally) → tallied tally findings.now < 2 ^ 64 }
    ensures { OnOk result (text.new.items ≡ text.old.items ++ counts_text findings.now) }
{
    push_count(text, " failed ", Tally::Failed, findings)?;
    push_count(text, " stopped ", Tally::Stopped, findings)?;
    push_causes(text, findings)?;
    push_count(text, " blocked ", Tally::Blocked, findings)
}

// Adds how many runs are counted here, after this word.
fn push_count(
    text: &mut Vec<u8>,
    word: &str,
    tally: Tally,
    findings: &[Finding],
) -> Result<(), AllocError>
    requires { tallied tally findings.now < 2 ^ 64 }
    ensures { OnOk result (
        text.new.items ≡ text.old.items ++ count_text word.now tally findings.now) }
{
    push_word(text, word)?;
    push_number(text, tallied(tally, findings))
}

// Adds how many runs stopped for each reason for which any did.
#[tactic(auto, unfolding(crate::specs::Found::causes_text))]
fn push_causes(text: &mut Vec<u8>, findings: &[Finding]) -> Result<(), AllocError>
    requires { (tally : Tally) → tallied tally findings.now < 2 ^ 64 }
    ensures { OnOk result (text.new.items ≡ text.old.items ++ causes_text findings.now) }
{
    push_cause(text, " clock full ", tallied(Tally::ClockFull, findings))?;
    push_cause(text, " end of log ", tallied(Tally::EndOfLog, findings))?;
    push_cause(text, " diverged ", tallied(Tally::Diverged, findings))
}

// Adds how many runs stopped for one reason, if any did.
fn push_cause(text: &mut Vec<u8>, word: &str, count: u64) -> Result<(), AllocError>
    ensures { OnOk result (text.new.items ≡ text.old.items ++ cause_text word.now count) }
{
    if count == 0 {
        return Ok(());
    }
    push_word(text, word)?;
    push_number(text, count)
}

// How many runs are counted here.
pub(crate) fn tallied(tally: Tally, findings: &[Finding]) -> u64
    requires { tallied tally findings.now < 2 ^ 64 }
    ensures { result ≡ tallied tally findings.now }
{
    let mut count = 0;
    for finding in findings {
        count += counted(tally, finding);
    }
    count
}

// How many of a finding's runs are.
fn counted(tally: Tally, finding: &Finding) -> u64
    ensures { result ≡ counted tally finding.now }
{
    if finding.judgement.is_counted(tally) {
        finding.runs
    } else {
        0
    }
}
