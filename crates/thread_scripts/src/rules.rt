ghost use Rattle.std.specs.Prelude.{◌≡◌};
ghost use Rattle.std.specs.List.{list_all};
ghost use Rattle.thread_scripts.specs.Rules.{call_keeps, is_path, is_script, is_short, keeps_rules};
ghost use Rattle.thread_scripts.specs.Rules.{leads_to_label, line_keeps, target_of};

use crate::line::{CallLine, Data, Line};
use posix_terms::{Call, Limits, SharedBytes};

/// Where a line may jump to.
fn target(line: &Line) -> Option<usize>
    ensures { result ≡ target_of line.now }
{
    match line {
        Line::Jump { place } => Some(*place),
        Line::JumpIfZero { place, .. } => Some(*place),
        Line::JumpIfFailed { place } => Some(*place),
        _ => None,
    }
}

/// Whether the line jumps nowhere but to the line of a label.
fn leads_to_label(lines: &[Line], line: &Line) -> bool
    ensures { result ≡ leads_to_label lines.now (target_of line.now) }
{
    match target(line) {
        None => true,
        Some(place) => matches!(lines.get(place), Some(Line::Label)),
    }
}

fn is_short(value: &Data) -> bool
    ensures { result ≡ is_short value.now }
{
    match value {
        Data::Text(bytes) => bytes.as_slice().len() <= Limits::COUNT,
        Data::Register(_) => true,
    }
}

fn is_path(path: &SharedBytes) -> bool
    ensures { result ≡ is_path path.now }
{
    path.as_slice().iter().all(|byte| byte.is_ascii_graphic())
}

/// Whether the bytes, paths and flags of a call keep to their bounds.
fn call_keeps(line: &CallLine) -> bool
    ensures { result ≡ call_keeps line.now }
{
    match line {
        Call::Write { bytes, .. } | Call::Pwrite { bytes, .. } => is_short(bytes),
        Call::Link { old_path, new_path } | Call::Rename { old_path, new_path } => {
            is_path(old_path) && is_path(new_path)
        }
        Call::Open { path, .. }
        | Call::Unlink { path }
        | Call::Mkdir { path }
        | Call::Rmdir { path } => is_path(path),
        Call::HostOpen { path, flags, .. } => {
            is_path(path) && !(flags.exclusive || flags.nonblock)
        }
        _ => true,
    }
}

/// Whether the bytes, paths and flags of a line keep to their bounds.
fn line_keeps(line: &Line) -> bool
    ensures { result ≡ line_keeps line.now }
{
    match line {
        Line::Call(line) => call_keeps(line),
        Line::SetBytes { value, .. } => is_short(value),
        _ => true,
    }
}

/// Whether a line among these keeps the rules of the language.
fn keeps_rules(lines: &[Line], line: &Line) -> bool
    ensures { result ≡ keeps_rules lines.now line.now }
{
    line_keeps(line) && leads_to_label(lines, line)
}

/// Whether each line of a part of a script keeps them.
fn each_keeps_rules(script: &[Line], part: &[Line]) -> bool
    ensures { result ≡ list_all (keeps_rules script.now) part.now }
{
    part.iter().all(|line| keeps_rules(script, line))
}

/// Whether lines are a script.
pub(crate) fn are_script(lines: &[Line]) -> bool
    ensures { result ≡ is_script lines.now }
{
    lines.len() <= Limits::SCRIPT_LINES && each_keeps_rules(lines, lines)
}
