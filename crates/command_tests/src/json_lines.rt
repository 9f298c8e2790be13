use answered_calls::AnsweredCall;
use json_views::push_row_json;
use posix_terms::{Access, Call, Errno, ObjectKind, OpenFlags, Reply, Row, SharedBytes, Turn};
use serde_json::{Error, Value};
use std::alloc::{AllocError, Global};
use std::test::Fail;

// Where a call stands, whatever it is.
const PLACE: &[(&str, &str)] = &[
    ("/thread", "1"),
    ("/row", "2"),
    ("/line", "3"),
    ("/clock", "7"),
    ("/outcome", "0"),
    ("/blocked", "4"),
];

// A write below zero, of two bytes, that failed.
const WRITE: &[(&str, &str)] = &[
    ("/call", "\"write\""),
    ("/arguments", "{\"descriptor\":-1,\"bytes\":\"6869\"}"),
    ("/reply", "{\"fail\":\"EBADF\"}"),
];

// An open of a path that is not ASCII.
const OPEN: &[(&str, &str)] = &[
    ("/call", "\"open\""),
    (
        "/arguments",
        "{\"path\":{\"hex\":\"2fff\"},\"access\":\"rw\",\"flags\":[\"create\",\"append\"]}",
    ),
    ("/reply", "{\"number\":0}"),
];

// The status of a file as large as none is.
const FSTAT: &[(&str, &str)] = &[
    ("/call", "\"fstat\""),
    ("/arguments", "{\"descriptor\":0}"),
    (
        "/reply",
        "{\"stat\":{\"kind\":1,\"size\":18446744073709551615,\"links\":1}}",
    ),
];

fn write(alloc: Global) -> Result<Call, AllocError> {
    Ok(Call::Write {
        descriptor: -1,
        bytes: SharedBytes::from_slice(alloc, b"hi")?,
    })
}

fn open(alloc: Global) -> Result<Call, AllocError> {
    Ok(Call::Open {
        path: SharedBytes::from_slice(alloc, b"/\xff")?,
        access: Access::ReadWrite,
        flags: OpenFlags {
            create: true,
            exclusive: false,
            truncate: false,
            append: true,
            nonblock: false,
        },
    })
}

// The line of this call with this reply.
fn line(alloc: Global, call: Call, reply: Reply) -> Result<Vec<u8>, AllocError> {
    let turn = Turn {
        clock: 7,
        thread: 1,
    };
    let row = Row { call, turn, reply };
    let answered = AnsweredCall {
        thread: 1,
        number: 2,
        line: 3,
        row: &row,
        granted: 5,
        blocked: 4,
        outcome: Some(0),
    };
    let mut text = Vec::new(alloc);
    push_row_json(&mut text, &answered)?;
    Ok(text)
}

// Whether a value has these members, each found by its path.
fn has(alloc: Global, value: &Value, members: &[(&str, &str)]) -> Result<bool, Error> {
    for (path, wanted) in members {
        let wanted = Value::from_str(alloc, wanted)?;
        match value.pointer(path) {
            Some(found) if *found == wanted => {}
            _ => return Ok(false),
        }
    }
    Ok(true)
}

// Whether a line is one object, which stands at that place and has these members besides.
fn is_line(alloc: Global, line: &[u8], members: &[(&str, &str)]) -> Result<bool, Error> {
    if line.iter().filter(|byte| **byte == b'\n').count() != 1 {
        return Ok(false);
    }
    let value = Value::from_slice(alloc, line)?;
    Ok(has(alloc, &value, PLACE)? && has(alloc, &value, members)?)
}

#[test]
fn rows_are_read_back_as_json(rt: HostRuntime) -> Result<(), Fail> {
    let alloc = rt.alloc();
    let failed = line(alloc, write(alloc)?, Reply::Fail(Errno::EBADF))?;
    assert!(rt; is_line(alloc, &failed, WRITE)?);
    let opened = line(alloc, open(alloc)?, Reply::Number(0))?;
    assert!(rt; is_line(alloc, &opened, OPEN)?);
    let stat = Reply::Stat {
        kind: ObjectKind::File,
        number: u64::MAX,
        links: 1,
    };
    let told = line(alloc, Call::Fstat { descriptor: 0 }, stat)?;
    assert!(rt; is_line(alloc, &told, FSTAT)?);
    Ok(())
}
