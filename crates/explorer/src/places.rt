ghost use Rattle.std.specs.Prelude.{◌≡◌, ◌++◌, ◌+◌, ◌<◌, ◌^◌, IfOk, OnOk};
ghost use Rattle.thread_scripts.specs.Words.{lines_of};
ghost use Rattle.explorer.specs.Lists.{place_at, places_in, places_of};

use expectations::is_call_line;
use posix_terms::Bytes;
use std::alloc::{AllocError, Global};
use thread_scripts::text_lines;

/// Where a call can be delayed: a line of a call, counted from 1, in the text of a thread.
#[derive(Clone, Copy, Debug, PartialEq, Eq)]
pub struct CallPlace {
    pub thread: usize,
    pub line: usize,
}

// The places of all texts, by thread and line.
pub(crate) fn places_of(alloc: Global, texts: &[Bytes]) -> Result<Vec<CallPlace>, AllocError>
    ensures { IfOk result (λ places. places.items ≡ places_of 0 texts.now) }
{
    let mut places = Vec::new(alloc);
    for (thread, text) in texts.iter().enumerate() {
        push_places(&mut places, thread, text.as_slice())?;
    }
    Ok(places)
}

// Adds those of a thread's text.
fn push_places(places: &mut Vec<CallPlace>, thread: usize, text: &[u8]) -> Result<(), AllocError>
    ensures { OnOk result (
        places.new.items ≡ places.old.items ++ places_in thread 0 (lines_of text.now)) }
{
    let lines = text_lines(*places.allocator(), text)?;
    for (above, line) in lines.iter().enumerate() {
        push_place(places, thread, above, line)?;
    }
    Ok(())
}

// Adds that of a line with so many lines above it, if it is a call's.
fn push_place(
    places: &mut Vec<CallPlace>,
    thread: usize,
    above: usize,
    text: &[u8],
) -> Result<(), AllocError>
    requires { above + 1 < 2 ^ 64 }
    ensures { OnOk result (
        places.new.items ≡ places.old.items ++ place_at thread (above + 1) text.now) }
{
    if is_call_line(*places.allocator(), text)? {
        places.push(CallPlace {
            thread,
            line: above + 1,
        })?;
    }
    Ok(())
}
