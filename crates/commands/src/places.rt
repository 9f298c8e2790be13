ghost use Rattle.std.specs.Prelude.{◌<◌, length};

use input_log::LogSink;
use machine::Machine;
use posix_terms::{PackedRow, Reply};
use std::alloc::{AllocError, Global};
use thread_scripts::{Actor, Memory, Script, ScriptActor, Step, parse};

/// The line of its script's text at which thread i is: that of the step that it asked last, from 1. None where there is
/// no memory to find it.
pub(crate) fn line_of<S: LogSink, D: Drop>(
    alloc: Global,
    machine: &Machine<S, D>,
    i: usize,
    text: &[u8],
) -> Option<usize>
    requires { i < length machine.now.whole.threads }
{
    let Ok(script) = parse(alloc, text) else {
        return None;
    };
    let Ok(place) = place_of(machine, i, script) else {
        return None;
    };
    Some(text_line(text, place))
}

// How many lines of its script lie before the next one of thread i: its
// script is followed again, with the replies that it had.
fn place_of<S: LogSink, D: Drop>(
    machine: &Machine<S, D>,
    i: usize,
    script: Script,
) -> Result<usize, Memory>
    requires { i < length machine.now.whole.threads }
{
    let mut actor = ScriptActor::new(script);
    let mut rows = machine.history();
    let mut last = None;
    for step in machine.asked(i) {
        let _asked = actor.next(last.as_ref())?;
        last = match step {
            Step::Call(_) => next_reply(&mut rows, i)?,
            Step::Work(_) | Step::End => None,
        };
    }
    Ok(actor.place())
}

// The reply of thread i that is the first in these rows; what is left are the rows after it.
fn next_reply<'a>(rows: &mut &'a [PackedRow], i: usize) -> Result<Option<Reply>, AllocError> {
    let all: &'a [PackedRow] = *rows;
    for at in 0..all.len() {
        if all[at].turn().thread == i && all[at].has_reply() {
            *rows = &all[at + 1..];
            return all[at].reply();
        }
    }
    *rows = &[];
    Ok(None)
}

// The number, from 1, of the line of this text that has so many lines of a
// script up to it and itself. Empty lines, lines of spaces and
// comments do not count.
fn text_line(text: &[u8], place: usize) -> usize {
    let mut left = place;
    let mut number = 0usize;
    for line in text.split(|byte| *byte == b'\n') {
        number = number.saturating_add(1);
        if counts(line) {
            left = left.saturating_sub(1);
        }
        if left == 0 {
            return number;
        }
    }
    number
}

// Whether this line of a text is a line of the script.
fn counts(line: &[u8]) -> bool {
    !line.starts_with(b"#") && !line.iter().all(|byte| *byte == b' ')
}
