ghost use Rattle.std.specs.Prelude.{◌≡◌, ◌++◌, IfOk, OnOk, map};
ghost use Rattle.compare_and_draw.specs.Draws.{path_text, title_text};

use command_texts::{Source, TextReader, push_word};
use std::alloc::{AllocError, Global};

/// What a page of these scripts is called.
pub fn title_of<R: TextReader + Drop>(
    alloc: Global,
    sources: &[Source<'_, R>],
) -> Result<Vec<u8>, AllocError>
    ensures { IfOk result (λ title.
        title.items
        ≡ title_text (map (λ s. (s.path.now, R.remaining s.reader)) sources.now)) }
{
    let mut title = Vec::new(alloc);
    push_word(&mut title, "Calls of")?;
    for source in sources {
        push_path(&mut title, source.path)?;
    }
    Ok(title)
}

fn push_path(title: &mut Vec<u8>, path: &str) -> Result<(), AllocError>
    ensures { OnOk result (title.new.items ≡ title.old.items ++ path_text path.now) }
{
    push_word(title, " ")?;
    push_word(title, path)
}
