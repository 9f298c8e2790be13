ghost use Rattle.std.specs.Prelude.{◌≡◌, ◌++◌, Bool, IfOk, List, OnOk, option_map};
ghost use Rattle.std.specs.List.{list_any};
ghost use Rattle.script_checks.specs.Concerns.{first_path, is_unused_label, jumps_to};
ghost use Rattle.script_checks.specs.Concerns.{path_warning, path_warnings, second_path};
ghost use Rattle.script_checks.specs.Concerns.{warnings_from};
ghost use Rattle.script_checks.specs.Reaching.{AreReached};

use crate::paths::path_fault;
use crate::reaching::reached;
use posix_terms::Call;
use std::alloc::{AllocError, Global};
use thread_scripts::Line;

/// What may be wrong with a line of a script, though it is good.
#[derive(Clone, Copy, Debug, PartialEq, Eq)]
pub enum Concern {
    /// It is a label, and no line jumps to it.
    UnusedLabel,
    /// No way through the script leads to it.
    NeverReached,
    /// It is a call that refuses the path in this word of it, whatever the tree in memory holds
    /// ([`path_fault`](crate::path_fault)). Words are numbered from 0.
    PathRefused { word: usize },
}

/// A line of a script that may be wrong, by its place: how many lines that do something lie before.
#[derive(Clone, Copy, Debug, PartialEq, Eq)]
pub struct Warning {
    pub place: usize,
    pub concern: Concern,
}

// Whether a line jumps to this place.
fn jumps_to(line: &Line, place: usize) -> bool
    ensures { result ≡ jumps_to place line.now }
{
    match line {
        Line::Jump { place: target }
        | Line::JumpIfZero { place: target, .. }
        | Line::JumpIfFailed { place: target } => *target == place,
        _ => false,
    }
}

// Whether a line of a script jumps to this place.
fn is_jumped_to(lines: &[Line], place: usize) -> bool
    ensures { result ≡ list_any (jumps_to place) lines.now }
{
    lines.iter().any(|line| jumps_to(line, place))
}

// Whether this line is a label to which no line of the script jumps.
fn is_unused_label(lines: &[Line], place: usize, line: &Line) -> bool
    ensures { result ≡ is_unused_label lines.now place line.now }
{
    match line {
        Line::Label => !is_jumped_to(lines, place),
        _ => false,
    }
}

// The path of the tree in memory that a line has in its word 1, if it has one.
fn first_path(line: &Line) -> Option<&[u8]>
    ensures { option_map (λ path. path.now) result ≡ first_path line.now }
{
    match line {
        Line::Call(Call::Open { path, .. })
        | Line::Call(Call::Unlink { path })
        | Line::Call(Call::Mkdir { path })
        | Line::Call(Call::Rmdir { path }) => Some(path.as_slice()),
        Line::Call(Call::Link { old_path, .. }) | Line::Call(Call::Rename { old_path, .. }) => {
            Some(old_path.as_slice())
        }
        _ => None,
    }
}

// That in its word 2.
fn second_path(line: &Line) -> Option<&[u8]>
    ensures { option_map (λ path. path.now) result ≡ second_path line.now }
{
    match line {
        Line::Call(Call::Link { new_path, .. }) | Line::Call(Call::Rename { new_path, .. }) => {
            Some(new_path.as_slice())
        }
        _ => None,
    }
}

// Adds the warning of the path in this word of a line, if it is refused.
fn push_path_warning(
    warnings: &mut Vec<Warning>,
    place: usize,
    word: usize,
    path: Option<&[u8]>,
) -> Result<(), AllocError>
    ensures { OnOk result (
        warnings.new.items
        ≡ warnings.old.items
        ++ path_warning place word (option_map (λ path. path.now) path.entry)) }
{
    let Some(path) = path else {
        return Ok(());
    };
    if path_fault(*warnings.allocator(), path)?.is_some() {
        let concern = Concern::PathRefused { word };
        warnings.push(Warning { place, concern })?;
    }
    Ok(())
}

// Adds those of the paths of a line.
fn push_path_warnings(
    warnings: &mut Vec<Warning>,
    place: usize,
    line: &Line,
) -> Result<(), AllocError>
    ensures { OnOk result (
        warnings.new.items ≡ warnings.old.items ++ path_warnings place line.now) }
{
    push_path_warning(warnings, place, 1, first_path(line))?;
    push_path_warning(warnings, place, 2, second_path(line))
}

/// The lines of a script that may be wrong, in order: the labels to which no line jumps, the lines
/// that are never reached ([`reached`]), and the calls that refuse a path. Of one line they come in
/// this order.
pub(crate) fn warnings(alloc: Global, lines: &[Line]) -> Result<Vec<Warning>, AllocError>
    ensures { IfOk result (λ warnings.
        (marks : List Bool) × AreReached lines.now marks
        × (warnings.items ≡ warnings_from lines.now 0 lines.now marks)) }
{
    let marks = reached(alloc, lines)?;
    let mut warnings = Vec::new(alloc);
    for place in 0..lines.len() {
        if is_unused_label(lines, place, &lines[place]) {
            let concern = Concern::UnusedLabel;
            warnings.push(Warning { place, concern })?;
        }
        if !marks[place] {
            let concern = Concern::NeverReached;
            warnings.push(Warning { place, concern })?;
        }
        push_path_warnings(&mut warnings, place, &lines[place])?;
    }
    Ok(warnings)
}
