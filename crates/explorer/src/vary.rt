ghost use Rattle.std.specs.Prelude.{◌≡◌, ◌++◌, ◌+◌, ◌<◌, ◌^◌, IfOk, OnOk};
ghost use Rattle.explorer.specs.Varied.{line_text, varied_line, varied_text, varied_texts};

use crate::delays::Delays;
use expectations::is_call_line;
use posix_terms::Bytes;
use std::alloc::{AllocError, Global};
use thread_scripts::text_lines;

/// The text of a thread's script with a line `work` before each call line that this case delays.
/// Each line ends with a line feed.
pub fn varied<D: Delays>(
    alloc: Global,
    delays: &D,
    case: u64,
    thread: usize,
    text: &[u8],
) -> Result<Bytes, AllocError>
    ensures { IfOk result (λ varied.
        varied ≡ varied_text (D.delays_of delays.now case thread) text.now) }
{
    let lines = text_lines(alloc, text)?;
    let mut varied = Vec::new(alloc);
    for (above, line) in lines.iter().enumerate() {
        push_varied(&mut varied, delays, case, thread, above, line)?;
    }
    Ok(Bytes::from_vec(varied))
}

/// The texts of threads, each with the delays of its thread in this case.
pub fn varied_texts<D: Delays>(
    alloc: Global,
    delays: &D,
    case: u64,
    texts: &[Bytes],
) -> Result<Vec<Bytes>, AllocError>
    ensures { IfOk result (λ varied.
        varied.items ≡ varied_texts (D.delays_of delays.now case) 0 texts.now) }
{
    let mut all = Vec::with_capacity(alloc, texts.len())?;
    for (thread, text) in texts.iter().enumerate() {
        all.push(varied(alloc, delays, case, thread, text.as_slice())?)?;
    }
    Ok(all)
}

// Adds a line with so many lines above it, after the delay of its call.
#[tactic(auto, unfolding(crate::specs::Varied::varied_line))]
fn push_varied<D: Delays>(
    text: &mut Vec<u8>,
    delays: &D,
    case: u64,
    thread: usize,
    above: usize,
    line: &[u8],
) -> Result<(), AllocError>
    requires { above + 1 < 2 ^ 64 }
    ensures { OnOk result (
        text.new.items
        ≡ text.old.items ++ varied_line (D.delays_of delays.now case thread) above line.now) }
{
    let alloc = *text.allocator();
    if is_call_line(alloc, line)?
        && let Some(delay) = delays.delay(case, thread, above + 1)
    {
        let work = format!(in alloc; "work {delay}")?;
        push_line(text, work.as_bytes())?;
    }
    push_line(text, line)
}

fn push_line(text: &mut Vec<u8>, line: &[u8]) -> Result<(), AllocError>
    ensures { OnOk result (text.new.items ≡ text.old.items ++ line_text line.now) }
{
    text.extend_from_slice(line)?;
    text.push(b'\n')?;
    Ok(())
}
