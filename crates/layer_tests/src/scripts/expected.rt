use expectations::{Expectation, ExpectationFault, Reason, Unmet, expectations_of, first_unmet};
use posix_terms::{Call, Errno, Reply, Row, Turn};
use std::alloc::{AllocError, Global};
use std::test::Fail;
use thread_scripts::parse;

/// The words of expectations, as they are written too.
const WORDS: &[&str] = &[
    "count 18446744073709551615",
    "count _",
    "data -",
    "data 00ff",
    "number -9223372036854775808",
    "pair _ 3",
    "stat 6 _ 0",
    "done",
    "fail ETIMEDOUT",
    "fail _",
    "not fail",
    "not fail EIO",
    "not count 3",
    "not data _",
    "not number -1",
    "not pair 3 _",
    "not stat 1 1 1",
    "not done",
];

/// Texts whose first bad expectation is on line 2, and why.
const BAD: &[(&[u8], Reason)] = &[
    (b"close 0\n#=", Reason::Words),
    (b"close 0\n#= count -1", Reason::Words),
    (b"close 0\n#= count 18446744073709551616", Reason::Words),
    (b"close 0\n#= data", Reason::Words),
    (b"close 0\n#= data x61", Reason::Words),
    (b"close 0\n#= pair 1", Reason::Words),
    (b"close 0\n#= stat 7 1 1", Reason::Words),
    (b"close 0\n#= fail ENONE", Reason::Words),
    (b"close 0\n#= not", Reason::Words),
    (b"close 0\n#= not not done", Reason::Words),
    (b"close 0\n#= not fail EIO 1", Reason::Words),
    (b"close 0\n#= fail", Reason::Words),
    (b"# close 0\n#= done", Reason::NothingAbove),
    (b"end\n#= done", Reason::NotACall),
];

/// A script that leaves a call out where its first one fails, with what it expects.
const JUMPS: &[u8] = b"label a
close 0
#= not fail
jfail b
dup 0
#= done
label b
work 2
getfl 0
#= number 3
jump a
";

/// Whether the one expectation of a text is of its first line, and is written as these words.
fn is_written(alloc: Global, text: &[u8], words: &str) -> Result<bool, Fail> {
    let expectations = expectations_of(alloc, text)?;
    let [expectation] = expectations.as_slice() else {
        return Ok(false);
    };
    let written = expectation.wanted.text(alloc)?;
    Ok(expectation.call == 1 && written.as_str() == words)
}

/// Whether the words are an expectation of the line above, and are written again.
fn is_written_again(alloc: Global, words: &str) -> Result<bool, Fail> {
    let text = format!(in alloc; "close 0\n\n#= {words}\n")?;
    is_written(alloc, text.as_bytes(), words)
}

#[test]
fn words_are_written_as_they_are_read(rt: HostRuntime) -> Result<(), Fail> {
    for words in WORDS {
        assert!(rt; is_written_again(rt.alloc(), words)?, "{words}");
    }
    Ok(())
}

#[test]
fn reports_the_first_bad_expectation(rt: HostRuntime) {
    for (text, reason) in BAD.iter() {
        assert_eq!(rt;
            expectations_of(rt.alloc(), text).err(),
            Some(ExpectationFault::Bad {
                line: 2,
                reason: *reason
            })
        );
    }
}

/// A row with this reply.
fn row(reply: Reply) -> Row {
    Row {
        call: Call::Pipe,
        turn: Turn {
            clock: 1,
            thread: 0,
        },
        reply,
    }
}

/// The replies of three calls: the second is that of the line after a jump.
fn rows(alloc: Global) -> Result<Vec<Row>, AllocError> {
    let mut rows = Vec::new(alloc);
    rows.push(row(Reply::Fail(Errno::EBADF)))?;
    rows.push(row(Reply::Number(3)))?;
    rows.push(row(Reply::Fail(Errno::EBADF)))?;
    Ok(rows)
}

/// The first of these that the rows do not meet.
fn first_of(alloc: Global, expectations: &[Expectation]) -> Result<Option<Unmet>, Fail> {
    let rows = rows(alloc)?;
    let script = parse(alloc, JUMPS)?;
    Ok(first_unmet(script, expectations, &rows)?)
}

/// The same of all that the script expects, but for so many.
fn first_behind(alloc: Global, count: usize) -> Result<Option<Unmet>, Fail> {
    let expectations = expectations_of(alloc, JUMPS)?;
    match expectations.split_at_checked(count) {
        Some((_, rest)) => first_of(alloc, rest),
        None => Ok(None),
    }
}

const FIRST: Unmet = Unmet {
    row: 0,
    expectation: 0,
};

#[test]
fn follows_the_script_by_its_replies(rt: HostRuntime) -> Result<(), Fail> {
    let first = first_behind(rt.alloc(), 0)?;
    assert_eq!(rt; first, Some(FIRST));
    let first = first_behind(rt.alloc(), 1)?;
    assert_eq!(rt; first, None);
    Ok(())
}
