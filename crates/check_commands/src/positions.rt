ghost use Rattle.std.specs.Prelude.{◌≡◌, ◌++◌, OnOk};
ghost use Rattle.check_commands.specs.Findings.{position_text};

use command_texts::{push_number, push_word};
use std::alloc::AllocError;

/// Adds where something stands: the path of the script, the line and the column.
pub(crate) fn push_position(
    text: &mut Vec<u8>,
    path: &str,
    line: usize,
    column: usize,
) -> Result<(), AllocError>
    ensures { OnOk result (
        text.new.items ≡ text.old.items ++ position_text path.now line column) }
{
    push_word(text, path)?;
    push_word(text, ":")?;
    push_number(text, line as u64)?;
    push_word(text, ":")?;
    push_number(text, column as u64)?;
    push_word(text, ": ")
}
