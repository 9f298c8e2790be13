ghost use Rattle.std.specs.Prelude.{◌≡◌, ◌↔◌, ◌≤◌, false, IfOk, IsTrue};
ghost use Rattle.std.specs.List.{AllZip};
ghost use Rattle.explorer.specs.Subject.{subject};
ghost use Rattle.explore_texts.specs.Alike.{runs_in};
ghost use Rattle.comparator.specs.Comparison.{IsVerdictOn};
ghost use Rattle.serde_json.specs.View.{view};
ghost use Rattle.serde_json.specs.Written.{has_float};
ghost use Rattle.explorer.specs.Observations.{EndAlike};
ghost use Rattle.explore_texts.specs.Findings.{IsFinding, IsFound, IsFoundAsIs, cut_in};
ghost use Rattle.explore_texts.specs.Findings.{said_in_json, said_so};
ghost use Rattle.explore_texts.specs.Found.{tallied};
ghost use Rattle.explore_texts.specs.Looked.{compared_in, waits_in};
ghost use Rattle.explore_texts.specs.declared.judgement.Tally.{Tally};
ghost use Rattle.explore_texts.specs.Schedules.{delays_by};

use crate::alike::AlikeRuns;
use crate::cut_off::cut_of;
use crate::explored_text::{push_as_is, push_found};
use crate::json_lines::{case_value, push_found_json};
use crate::judgement::Judgement;
use crate::looked::Looked;
use crate::schedule::Schedule;
use crate::schedule_text::push_front;
use answered_calls::{BlockedLine, blocked_lines};
use comparator::{Verdict, compare};
use explorer::{Group, Observation, Trial, varied_texts};
use posix_terms::Bytes;
use serde_json::Value;
use std::alloc::{AllocError, Global};

/// What is found of runs that are alike, or of one.
#[derive(Debug, Drop)]
pub struct Finding {
    /// Its line.
    pub line: Bytes,
    /// How many runs it is found of.
    pub runs: u64,
    /// What each of them came to.
    pub judgement: Judgement,
}

/// A run in which this was seen and looked at.
#[derive(Clone, Copy, Debug)]
pub struct SeenRun<'a> {
    pub observation: &'a Observation,
    pub looked: &'a Looked,
}

/// How runs differ from the run as it is: in the first row that does, and in how they ended.
#[derive(Clone, Copy, Debug)]
pub(crate) struct Difference {
    pub verdict: Verdict,
    pub ends_alike: bool,
}

impl Difference {
    fn between(before: SeenRun<'_>, now: SeenRun<'_>) -> Difference
        ensures differs { IsVerdictOn
            (compared_in before.entry.looked.now before.entry.observation.now)
            (compared_in now.entry.looked.now now.entry.observation.now) result.verdict }
        ensures ends { IsTrue result.ends_alike
            ↔ EndAlike before.entry.observation.now now.entry.observation.now }
    {
        Difference {
            verdict: compare(
                before.looked.compared(before.observation),
                now.looked.compared(now.observation),
            ),
            ends_alike: before.observation.ends_alike(now.observation),
        }
    }
}

/// What is found of runs that are alike, in order, where this was the run without delays; with
/// `json` in JSON.
pub fn findings(
    alloc: Global,
    json: bool,
    trial: Trial<'_>,
    schedule: &Schedule,
    before: SeenRun<'_>,
    all: &[AlikeRuns],
) -> Result<Vec<Finding>, AllocError>
    ensures found { IfOk result (λ findings.
        AllZip
        (IsFinding json (subject trial.entry) schedule.now before.entry.observation.now
        before.entry.looked.now)
        all.now findings.items) }
    ensures tallied { IfOk result (λ findings.
        (tally : Tally) → tallied tally findings.items ≤ runs_in all.now) }
{
    let mut findings = Vec::new(alloc);
    for alike in all {
        findings.push(found_in(alloc, json, trial, schedule, before, alike)?)?;
    }
    Ok(findings)
}

// What is found of runs that are alike.
fn found_in(
    alloc: Global,
    json: bool,
    trial: Trial<'_>,
    schedule: &Schedule,
    before: SeenRun<'_>,
    alike: &AlikeRuns,
) -> Result<Finding, AllocError>
    ensures { IfOk result (
        IsFinding json (subject trial.entry) schedule.now before.entry.observation.now before.entry.looked.now
        alike.now) }
{
    let group = &alike.group;
    let cut = cut_in(alloc, trial, schedule, group)?;
    let now = SeenRun {
        observation: &group.observation,
        looked: &alike.looked,
    };
    if json {
        let case = case_value(alloc, schedule, group.first)?;
        return found_json(alloc, case, trial.texts, before, group.runs, now, &cut);
    }
    let mut line = Vec::new(alloc);
    push_front(&mut line, schedule, group)?;
    found(line, trial.texts, before, group.runs, now, &cut)
}

/// What is found of the run of these texts as they are; with `json` in JSON.
pub fn found_as_is(
    alloc: Global,
    json: bool,
    texts: &[Bytes],
    run: SeenRun<'_>,
) -> Result<Finding, AllocError>
    ensures { IfOk result (
        IsFoundAsIs json texts.now run.entry.observation.now run.entry.looked.now) }
{
    let before = run.observation;
    let cut = cut_of(alloc, texts, before)?;
    let waits = waits_in(alloc, texts, before)?;
    let mut line = Vec::new(alloc);
    if json {
        let same = Difference {
            verdict: Verdict::Same,
            ends_alike: true,
        };
        push_found_json(&mut line, Value::Null, 1, run, run, &cut, &waits, same)?;
    } else {
        push_as_is(&mut line, before, &cut, &waits, &run.looked.unmet)?;
    }
    Ok(finding_of(line, 1, run.looked))
}

/// What is found of so many runs of these texts, by the first of them, in a line that begins so.
pub fn found(
    line: Vec<u8>,
    texts: &[Bytes],
    before: SeenRun<'_>,
    runs: u64,
    now: SeenRun<'_>,
    cut: &[usize],
) -> Result<Finding, AllocError>
    ensures { IfOk result (
        IsFound before.entry.observation.now before.entry.looked.now now.entry.observation.now now.entry.looked.now runs
        (said_so texts.now before.entry.observation.now line.items now.entry.observation.now now.entry.looked.now
        cut.now)) }
{
    let mut line = line;
    let waits = waits_in(*line.allocator(), texts, now.observation)?;
    let difference = Difference::between(before, now);
    push_found(
        &mut line,
        before.observation,
        now.observation,
        cut,
        &waits,
        difference,
        &now.looked.unmet,
    )?;
    Ok(finding_of(line, runs, now.looked))
}

/// What is found of so many runs of these texts, by the first of them, in JSON. The case has no
/// float.
pub fn found_json(
    alloc: Global,
    case: Value,
    texts: &[Bytes],
    before: SeenRun<'_>,
    runs: u64,
    now: SeenRun<'_>,
    cut: &[usize],
) -> Result<Finding, AllocError>
    requires { has_float (view case) ≡ false }
    ensures { IfOk result (
        IsFound before.entry.observation.now before.entry.looked.now now.entry.observation.now now.entry.looked.now runs
        (said_in_json texts.now before.entry.observation.now (view case) runs now.entry.observation.now
        now.entry.looked.now cut.now)) }
{
    let waits = waits_in(alloc, texts, now.observation)?;
    let difference = Difference::between(before, now);
    let mut line = Vec::new(alloc);
    push_found_json(&mut line, case, runs, before, now, cut, &waits, difference)?;
    Ok(finding_of(line, runs, now.looked))
}

// The finding of so many runs with this line, in which this was looked at.
fn finding_of(line: Vec<u8>, runs: u64, looked: &Looked) -> Finding
    ensures { result ≡ record {
      line = line.items;
      runs = runs;
      judgement = looked.now.judgement;
    } }
{
    Finding {
        line: Bytes::from_vec(line),
        runs,
        judgement: looked.judgement,
    }
}

// Where the calls stand that were blocked for good.
fn waits_in(
    alloc: Global,
    texts: &[Bytes],
    observation: &Observation,
) -> Result<Vec<BlockedLine>, AllocError>
    ensures { IfOk result (λ waits. waits.items ≡ waits_in texts.now observation.now) }
{
    blocked_lines(
        alloc,
        texts,
        &observation.seen,
        observation.blocked.as_slice(),
    )
}

// The threads that were cut off in the first run of a group.
fn cut_in(
    alloc: Global,
    trial: Trial<'_>,
    schedule: &Schedule,
    group: &Group,
) -> Result<Vec<usize>, AllocError>
    ensures { IfOk result (λ cut.
        cut.items ≡ cut_in (subject trial.entry) (delays_by schedule.now) group.now) }
{
    let texts = varied_texts(alloc, schedule, group.first, trial.texts)?;
    cut_of(alloc, &texts, &group.observation)
}
