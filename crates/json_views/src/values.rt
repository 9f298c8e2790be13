// What the JSON of runs and logs is made of.
ghost use Rattle.std.specs.Prelude.{◌≡◌, ◌++◌, IfOk, OnOk, Some, None, if◌then◌else◌, false};
ghost use Rattle.std.specs.Prelude.{option_copied};
ghost use Rattle.serde_json.specs.Data.{put as with_member, string};
ghost use Rattle.serde_json.specs.View.{view};
ghost use Rattle.serde_json.specs.Written.{compact_text, has_float};
ghost use Rattle.thread_scripts.specs.Words.{is_ascii};
ghost use Rattle.json_views.specs.Objects.{hex_value, line_of, text_value};

use serde_json::{Value, json};
use std::alloc::{AllocError, Global};
use std::str::from_utf8;

/// Bytes as hexadecimal digits.
pub(crate) fn hex_value(alloc: Global, bytes: &[u8]) -> Result<Value, AllocError>
    ensures { IfOk result (λ value. view value ≡ hex_value bytes.now) }
{
    Ok(Value::String(hex::encode(alloc, bytes)?))
}

/// A text, or its hexadecimal digits where it is not ASCII.
pub fn text_value(alloc: Global, text: &[u8]) -> Result<Value, AllocError>
    ensures { IfOk result (λ value. view value ≡ text_value text.now) }
{
    if let Some(text) = ascii(text) {
        return Value::try_from_str(alloc, text);
    }
    let digits = hex_value(alloc, text)?;
    json!(in alloc; {"hex": digits})
}

// The bytes as text, where they are ASCII.
#[tactic(auto, using(crate::proofs::Texts::ascii_text))]
fn ascii(bytes: &[u8]) -> Option<&str>
    ensures { option_copied result ≡ (if is_ascii bytes.now then Some bytes.now else None) }
{
    if is_ascii(bytes) {
        from_utf8(bytes).ok()
    } else {
        None
    }
}

fn is_ascii(bytes: &[u8]) -> bool
    ensures { result ≡ is_ascii bytes.now }
{
    bytes.iter().all(|byte| *byte < 128)
}

/// Adds the line of a value that has no float.
pub fn push_line(text: &mut Vec<u8>, value: &Value) -> Result<(), AllocError>
    requires { has_float (view value.now) ≡ false }
    ensures { OnOk result (text.new.items ≡ text.old.items ++ line_of (view value.now)) }
{
    let alloc = *text.allocator();
    let line = value.to_vec(alloc)?;
    text.extend_from_slice(&line)?;
    text.push(b'\n')?;
    Ok(())
}
