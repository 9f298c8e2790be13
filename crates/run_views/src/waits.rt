// What is said of calls that are blocked for good.
ghost use Rattle.std.specs.Prelude.{◌≡◌, ◌++◌, OnOk, codes};
ghost use Rattle.std.specs.List.{flat_map};
ghost use Rattle.command_texts.specs.Transcripts.{◌+++◌};
ghost use Rattle.run_views.specs.Waits.{wait_text, waits_text};

use answered_calls::BlockedLine;
use command_texts::{push_number, push_word};
use std::alloc::AllocError;

/// Adds what a line says of calls that are blocked for good: the thread and the line of each; nothing
/// where there are none.
pub fn push_waits(text: &mut Vec<u8>, lines: &[BlockedLine]) -> Result<(), AllocError>
    ensures { OnOk result (text.new.items ≡ text.old.items ++ waits_text lines.now) }
{
    let Some((first, others)) = lines.split_first() else {
        return Ok(());
    };
    push_word(text, " blocked for good ")?;
    push_wait(text, *first)?;
    push_others(text, others)
}

fn push_others(text: &mut Vec<u8>, others: &[BlockedLine]) -> Result<(), AllocError>
    ensures { OnOk result (text.new.items
        ≡ text.old.items ++ flat_map (λ other. codes "," +++ wait_text other) others.now) }
{
    for other in others {
        push_word(text, ",")?;
        push_wait(text, *other)?;
    }
    Ok(())
}

// Adds the thread and the line of a call.
fn push_wait(text: &mut Vec<u8>, line: BlockedLine) -> Result<(), AllocError>
    ensures { OnOk result (text.new.items ≡ text.old.items ++ wait_text line) }
{
    push_number(text, line.thread as u64)?;
    push_word(text, " ")?;
    push_number(text, line.line as u64)
}
