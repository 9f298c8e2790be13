ghost use Rattle.std.specs.Prelude.{◌≡◌, ◌++◌, IfOk, OnOk};
ghost use Rattle.thread_scripts.specs.Words.{lines_of};
ghost use Rattle.minimiser.specs.Parts.{is_delay};
ghost use Rattle.minimiser.specs.Rounds.{delay_at, delays_among, delays_of};

use crate::part::work_first;
use crate::step::Removal;
use posix_terms::Bytes;
use std::alloc::{AllocError, Global};
use thread_scripts::{line_words, text_lines};

// The steps that take away a delay, by thread and in the order of the lines.
pub fn delays(alloc: Global, texts: &[Bytes]) -> Result<Vec<Removal>, AllocError>
    ensures { IfOk result (λ delays. delays.items ≡ delays_of 0 texts.now) }
{
    let mut delays = Vec::new(alloc);
    for (thread, text) in texts.iter().enumerate() {
        push_delays(&mut delays, thread, text.as_slice())?;
    }
    Ok(delays)
}

// Adds those of a thread's text.
fn push_delays(delays: &mut Vec<Removal>, thread: usize, text: &[u8]) -> Result<(), AllocError>
    ensures { OnOk result (
        delays.new.items ≡ delays.old.items ++ delays_among thread 0 (lines_of text.now)) }
{
    let lines = text_lines(*delays.allocator(), text)?;
    for (i, line) in lines.iter().enumerate() {
        push_delay(delays, thread, i, line)?;
    }
    Ok(())
}

// Adds that of a line, if it is a delay.
fn push_delay(
    delays: &mut Vec<Removal>,
    thread: usize,
    line: usize,
    text: &[u8],
) -> Result<(), AllocError>
    ensures { OnOk result (delays.new.items ≡ delays.old.items ++ delay_at thread line text.now) }
{
    if is_delay(*delays.allocator(), text)? {
        delays.push(Removal::Line { thread, line })?;
    }
    Ok(())
}

fn is_delay(alloc: Global, line: &[u8]) -> Result<bool, AllocError>
    ensures { IfOk result (λ is. is ≡ is_delay line.now) }
{
    Ok(work_first(&line_words(alloc, line)?))
}
