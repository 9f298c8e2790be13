ghost use Rattle.std.specs.Prelude.{◌≡◌, ◌∷◌, [], IfOk};
ghost use Rattle.posix_terms.specs.Replies.{kind_code};
ghost use Rattle.serde_json.specs.View.{view};
ghost use Rattle.json_views.specs.Calls.{pair_value, reply_value, stat_value};
ghost use Rattle.json_views.specs.Objects.{object_of};

use crate::values::hex_value;
use posix_terms::{ObjectKind, Reply, errno_name};
use serde_json::{Map, Value, json, put};
use std::alloc::{AllocError, Global};

/// What a call got: an object of one member.
pub(crate) fn reply_value(alloc: Global, reply: &Reply) -> Result<Value, AllocError>
    ensures { IfOk result (λ value. view value ≡ reply_value reply.now) }
{
    let (name, value) = match reply {
        Reply::Count(count) => ("count", Value::from(*count)),
        Reply::Data(bytes) => ("data", hex_value(alloc, bytes.as_slice())?),
        Reply::Number(number) => ("number", Value::from(*number)),
        Reply::Pair(first, second) => ("pair", pair_value(alloc, *first, *second)?),
        Reply::Stat {
            kind,
            number,
            links,
        } => ("stat", stat_value(alloc, *kind, *number, *links)?),
        Reply::Done => ("done", Value::Bool(true)),
        Reply::Fail(error) => ("fail", Value::try_from_str(alloc, errno_name(*error))?),
    };
    one_member(alloc, name, value)
}

// An object of one member.
fn one_member(alloc: Global, name: &str, value: Value) -> Result<Value, AllocError>
    ensures { IfOk result (λ whole. view whole ≡ object_of ((name.now, view value) ∷ [])) }
{
    let mut members = Map::new(alloc);
    put(&mut members, alloc, name, value)?;
    Ok(Value::Object(members))
}

fn pair_value(alloc: Global, first: i64, second: i64) -> Result<Value, AllocError>
    ensures { IfOk result (λ value. view value ≡ pair_value first second) }
{
    json!(in alloc; [first, second])
}

fn stat_value(alloc: Global, kind: ObjectKind, number: u64, links: u64) -> Result<Value, AllocError>
    ensures { IfOk result (λ value. view value ≡ stat_value (kind_code kind) number links) }
{
    json!(in alloc; {"kind": kind.code(), "size": number, "links": links})
}
