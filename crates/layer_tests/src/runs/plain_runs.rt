use call_machine::{Plain, PlainFault, plain_run};
use posix_terms::{Bytes, Errno, Given, OutKind, Outcome, Outcomes, Settings};
use std::alloc::{AllocError, Global};
use thread_scripts::{Script, ScriptFault, parse};

// An open of a host file, a write of which three bytes are taken, and one that fails.
pub(crate) const SHORT_TEXT: &str =
    "host_open out w create\nwrite 0 x0001020304050607\nwrite 0 x0304";

// The log of its run: a header, three records and the end.
pub(crate) const SHORT_WRITE_LOG: &[u8] = b"DIOL\0\x01\0\x01\0\0\x03\xe8\0\0\0\x64\
    R\0\0\0\0\0\0\x01\0\0\0\0\0\0\0\0\0\0\0\
    R\0\0\0\0\0\x01\x03\0\0\0\0\0\0\0\0\x03\0\0\
    R\0\0\0\0\0\x02\x03\x09\0\0\0\0\0\0\0\0\0\0\
    E\0\0\0\x03";

// Why there is no plain run of some texts.
#[derive(Clone, Copy, Debug, PartialEq, Eq)]
pub(crate) enum NotRun {
    // a text is not a script, or there was no memory for one
    Script(ScriptFault),
    Plain(PlainFault),
}

impl From<ScriptFault> for NotRun {
    fn from(fault: ScriptFault) -> NotRun {
        NotRun::Script(fault)
    }
}

impl From<PlainFault> for NotRun {
    fn from(fault: PlainFault) -> NotRun {
        NotRun::Plain(fault)
    }
}

impl From<AllocError> for NotRun {
    fn from(_error: AllocError) -> NotRun {
        NotRun::Plain(PlainFault::Memory)
    }
}

// What comes from outside: a kind, with a value or a failure.
pub(crate) type KindAndValue = (OutKind, Result<u64, Errno>);

fn given(alloc: Global, kind: OutKind, came: Result<u64, Errno>) -> Given {
    let outcome = match came {
        Ok(value) => Outcome::Ok {
            value,
            bytes: Bytes::from_vec(Vec::new(alloc)),
        },
        Err(error) => Outcome::Fail(error),
    };
    Given {
        kind,
        clock: None,
        outcome,
    }
}

// What comes for a thread.
fn list(alloc: Global, all: &[KindAndValue]) -> Result<Outcomes, AllocError> {
    let mut outcomes = Vec::new(alloc);
    for (kind, came) in all {
        outcomes.push(given(alloc, *kind, *came))?;
    }
    Ok(Outcomes::from_vec(outcomes))
}

// What comes for each thread.
fn lists(alloc: Global, all: &[&[KindAndValue]]) -> Result<Vec<Outcomes>, PlainFault> {
    let mut lists = Vec::new(alloc);
    for came in all {
        lists.push(list(alloc, came)?)?;
    }
    Ok(lists)
}

pub(crate) fn scripts(alloc: Global, texts: &[&str]) -> Result<Vec<Script>, ScriptFault> {
    let mut scripts = Vec::new(alloc);
    for text in texts {
        scripts.push(parse(alloc, text.as_bytes())?)?;
    }
    Ok(scripts)
}

// The plain run of these scripts, for which this comes.
pub(crate) fn plain(
    alloc: Global,
    texts: &[&str],
    came: &[&[KindAndValue]],
    settings: Settings,
) -> Result<Plain, NotRun> {
    let scripts = scripts(alloc, texts)?;
    Ok(plain_run(alloc, scripts, lists(alloc, came)?, settings)?)
}
