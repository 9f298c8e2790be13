ghost use Rattle.std.specs.Prelude.{◌≡◌, All, IfOk, length};
ghost use Rattle.recorder.specs.Each.{IsUnused};

use crate::devices::sources;
use crate::listed::success;
use crate::recording::{NewLogFile, free_path, record};
use commands::DEFAULTS;
use host_doors::{OutcomePlace, PairGate, ScriptDoors};
use posix_terms::{Bytes, Given, OutKind, Outcome, Outcomes};
use std::alloc::{AllocError, Global};
use std::fs::remove_file;
use std::io;
use std::sync::Wait;
use std::test::Fail;
use std::thread::Threads;

// Each thread reads a host file, and both reads are outside at the same time.
const READERS: &[&str] = &[
    "host_open a r\nhost_open b r\nread 0 1\n",
    "work 211\nread 1 1\n",
];

const PRINTED: &str = "0 0 1 host_open number 0
0 1 105 host_open number 1
0 2 209 read data 41
1 0 212 read data 42
end
";

fn one_byte(alloc: Global, byte: u8) -> Result<Given, AllocError> {
    Ok(Given {
        kind: OutKind::Read,
        clock: None,
        outcome: Outcome::Ok {
            value: 1,
            bytes: Bytes::from_slice(alloc, &[byte])?,
        },
    })
}

// So many openings, and then a read of this byte.
fn outcomes(alloc: Global, openings: u64, byte: u8) -> Result<Outcomes, AllocError> {
    let mut outcomes = Vec::new(alloc);
    for _ in 0..openings {
        outcomes.push(success(alloc, OutKind::Open, 0))?;
    }
    outcomes.push(one_byte(alloc, byte)?)?;
    Ok(Outcomes::from_vec(outcomes))
}

const FIRST: OutcomePlace = OutcomePlace {
    thread: 0,
    number: 2,
};

const SECOND: OutcomePlace = OutcomePlace {
    thread: 1,
    number: 0,
};

type Readers = Vec<ScriptDoors<PairGate<HostRuntime>>>;

// The outsides of both threads. A gate holds the read of each until the other
// has come, and else answers ETIMEDOUT: so it does where one
// thread makes all calls, or a lock is held round them.
fn readers(alloc: Global, clock: HostRuntime) -> Result<Readers, AllocError>
    ensures both { IfOk result (λ o. length o.items ≡ 2) }
    ensures unused { IfOk result (λ o. All (IsUnused (λ d. d.counts.given) (λ d. d.counts.failures))
        o.items) }
{
    let first = outcomes(alloc, 2, b'A')?;
    let second = outcomes(alloc, 0, b'B')?;
    let (near, far) = PairGate::new(alloc, clock, FIRST, SECOND)?;
    let mut readers = Vec::new(alloc);
    readers.push(ScriptDoors::new(first, near))?;
    readers.push(ScriptDoors::new(second, far))?;
    Ok(readers)
}

// Whether `record` tells that both were read.
fn are_both_read(rt: &(impl Threads + Wait + Sync), log: NewLogFile<'_>) -> io::Result<bool> {
    let alloc = log.host.alloc();
    let sources = sources(alloc, READERS)?;
    let outsides = readers(alloc, log.host)?;
    Ok(record(rt, DEFAULTS, log, outsides, sources)?.is(0, PRINTED, ""))
}

#[test]
fn overlapping_reads(rt: HostRuntime) -> Result<(), Fail> {
    let path = free_path(rt, "overlap")?;
    assert!(rt; are_both_read(&rt, NewLogFile::at(rt, path.as_str()))?);
    remove_file(&rt, path.as_str())?;
    Ok(())
}
