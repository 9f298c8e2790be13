ghost use Rattle.std.specs.Prelude.{◌≡◌, ◌≢◌, ◌+◌, ◌<◌, ◌^◌, false, true, IfOk, MatchOption};
ghost use Rattle.std.specs.Prelude.{Some, length, slice_get};
ghost use Rattle.script_checks.specs.Marks.{AreClosed, IsNext, LeadsToMarks};
ghost use Rattle.script_checks.specs.Reaching.{AreReached, leads};

use std::alloc::{AllocError, Global};
use thread_scripts::Line;

// This place, if its line is there and has no mark.
fn unmarked(marks: &[bool], place: usize) -> Option<usize>
    ensures { MatchOption result
        (slice_get marks.now place ≢ Some false)
        (λ found. (found ≡ place) × (slice_get marks.now place ≡ Some false)) }
{
    match marks.get(place) {
        Some(false) => Some(place),
        _ => None,
    }
}

// A line without a mark to which this line leads.
fn next_of(marks: &[bool], place: usize, line: &Line) -> Option<usize>
    requires { place + 1 < 2 ^ 64 }
    ensures { MatchOption result
        (LeadsToMarks marks.now place line.now)
        (λ next. (leads place line.now next ≡ true) × (slice_get marks.now next ≡ Some false)) }
{
    match line {
        Line::End => None,
        Line::Jump { place: target } => unmarked(marks, *target),
        Line::JumpIfZero { place: target, .. } | Line::JumpIfFailed { place: target } => {
            match unmarked(marks, *target) {
                Some(next) => Some(next),
                None => unmarked(marks, place + 1),
            }
        }
        _ => unmarked(marks, place + 1),
    }
}

// A line without a mark to which a marked line leads.
fn next_to_mark(lines: &[Line], marks: &[bool]) -> Option<usize>
    requires { length marks.now ≡ length lines.now }
    ensures { MatchOption result
        (AreClosed lines.now marks.now)
        (IsNext lines.now marks.now) }
{
    for (place, line) in lines.iter().enumerate() {
        if marks[place] {
            if let Some(next) = next_of(marks, place, line) {
                return Some(next);
            }
        }
    }
    None
}

/// For each line of a script, whether it can be reached from the first one: a jump leads to its
/// label, one with a condition also to the line after it, `end` to none, every other line to the
/// next. What registers hold is not looked at.
pub(crate) fn reached(alloc: Global, lines: &[Line]) -> Result<Vec<bool>, AllocError>
    ensures { IfOk result (λ marks. AreReached lines.now marks.items) }
{
    let mut marks = vec![in alloc; false; lines.len()]?;
    if lines.is_empty() {
        return Ok(marks);
    }
    marks[0] = true;
    while let Some(next) = next_to_mark(lines, &marks) {
        marks[next] = true;
    }
    Ok(marks)
}
