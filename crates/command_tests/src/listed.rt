ghost use Rattle.std.specs.Prelude.{◌≡◌, All, IfOk, length};
ghost use Rattle.recorder.specs.Each.{IsUnused};

use crate::devices::sources;
use crate::logs::{SHORT_WRITE, THREE_RECORDS, WITH_CLOCKS};
use crate::recording::{NewLogFile, file_has, record};
use commands::DEFAULTS;
use host_doors::{NoGate, ScriptDoors};
use posix_terms::{Bytes, Errno, Given, OutKind, Outcome, Outcomes, Settings};
use std::alloc::{AllocError, Global};
use std::fs::remove_file;
use std::io;
use std::sync::Wait;
use std::test::Fail;
use std::thread::Threads;

const SCRIPTS: &[&str] = &[SHORT_WRITE];

const WITHOUT_CLOCKS: Settings = Settings {
    patience: 1000,
    door_cost: 100,
    version: 1,
};

pub(crate) fn success(alloc: Global, kind: OutKind, value: u64) -> Given {
    let bytes = Bytes::from_vec(Vec::new(alloc));
    Given {
        kind,
        clock: None,
        outcome: Outcome::Ok { value, bytes },
    }
}

// The outcomes of the short write.
fn short_write(alloc: Global) -> Result<Outcomes, AllocError> {
    let mut list = Vec::new(alloc);
    list.push(success(alloc, OutKind::Open, 0))?;
    list.push(success(alloc, OutKind::Write, 3))?;
    list.push(Given {
        kind: OutKind::Write,
        clock: None,
        outcome: Outcome::Fail(Errno::EIO),
    })?;
    Ok(Outcomes::from_vec(list))
}

// One outside, which has these outcomes.
fn outside(alloc: Global, list: Outcomes) -> Result<Vec<ScriptDoors<NoGate>>, AllocError>
    ensures one { IfOk result (λ o. length o.items ≡ 1) }
    ensures unused { IfOk result (λ o. All (IsUnused (λ d. d.counts.given) (λ d. d.counts.failures))
        o.items) }
{
    let mut outsides = Vec::new(alloc);
    outsides.push(ScriptDoors::new(list, NoGate))?;
    Ok(outsides)
}

// Whether `record` tells this of the short write.
fn is_recorded(
    rt: &(impl Threads + Wait + Sync),
    settings: Settings,
    log: NewLogFile<'_>,
    status: u8,
    printed: &str,
) -> io::Result<bool> {
    let alloc = log.host.alloc();
    let sources = sources(alloc, SCRIPTS)?;
    let outsides = outside(alloc, short_write(alloc)?)?;
    Ok(record(rt, settings, log, outsides, sources)?.is(status, printed, ""))
}

#[test]
fn short_write_is_recorded(rt: HostRuntime) -> Result<(), Fail> {
    let log = NewLogFile::at(rt, "/tmp/detio_record_short_write");
    let printed = "0 0 1 host_open number 0\n0 1 105 write count 3\n0 2 209 write fail EIO\nend\n";
    for (settings, bytes) in [(WITHOUT_CLOCKS, THREE_RECORDS), (DEFAULTS, WITH_CLOCKS)] {
        assert!(rt; is_recorded(&rt, settings, log, 0, printed)?);
        assert!(rt; file_has(rt, log.path, bytes)?);
    }
    remove_file(&rt, log.path)?;
    Ok(())
}
