ghost use Rattle.std.specs.Prelude.{◌≡◌, ◌++◌, IfOk, OnOk, map};
ghost use Rattle.serde_json.specs.View.{view};
ghost use Rattle.json_views.specs.Calls.{flag_word, flag_words, flags_value};

use posix_terms::OpenFlags;
use serde_json::{Value, push};
use std::alloc::{AllocError, Global};

/// The words of the flags that are set.
pub(crate) fn flags_value(alloc: Global, flags: OpenFlags) -> Result<Value, AllocError>
    ensures { IfOk result (λ value. view value ≡ flags_value flags) }
{
    let mut words = Vec::new(alloc);
    push_flag(&mut words, flags.create, "create")?;
    push_flag(&mut words, flags.exclusive, "excl")?;
    push_flag(&mut words, flags.truncate, "trunc")?;
    push_flag(&mut words, flags.append, "append")?;
    push_flag(&mut words, flags.nonblock, "nonblock")?;
    Ok(Value::Array(words))
}

// Adds the word of a flag, if it is set.
fn push_flag(words: &mut Vec<Value>, is_set: bool, word: &str) -> Result<(), AllocError>
    ensures { OnOk result (
        map view words.new.items ≡ map view words.old.items ++ flag_word is_set word.now) }
{
    if !is_set {
        return Ok(());
    }
    let word = Value::try_from_str(*words.allocator(), word)?;
    push(words, word)
}
