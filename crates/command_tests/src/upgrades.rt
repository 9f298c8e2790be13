ghost use Rattle.std.specs.Prelude.{◌≡◌};
ghost use Rattle.commands.specs.declared.record.NotCreated.TheVariants as not_created;

use crate::devices::{Device, Sources, Text, numbered, sources};
use crate::logs::{SHORT_WRITE, THREE_RECORDS, WITH_CLOCKS};
use crate::told::{Said, log_at};
use commands::{LogTo, NewFile, NotCreated, OutFile, Upgraded, upgrade_over};
use std::alloc::Global;
use std::io;
use std::test::Fail;

// A new file, which is refused.
#[derive(Drop)]
struct Place {
    refused: NotCreated,
}

impl NewFile<Vec<u8>> for Place {
    ghost refuses = { λ _ _. Unit {0} };

    fn write(self, _bytes: &[u8]) -> Result<Vec<u8>, NotCreated> {
        Err(self.refused)
    }
}

// What `upgrade` told, and whether it asked for no file.
#[derive(Drop)]
struct Done {
    told: Said,
    unused: bool,
}

impl Done {
    fn new(
        upgraded: io::Result<Upgraded<Place, Vec<u8>>>,
        output: Vec<u8>,
        errors: Vec<u8>,
    ) -> io::Result<Done> {
        let Upgraded { status, file } = upgraded?;
        let unused = matches!(file, OutFile::Unused(_));
        let told = Said::new(Ok(status), output, errors)?;
        Ok(Done { told, unused })
    }
}

// Upgrades what is on these devices. The log is "a.log", and the new one "b.log".
fn upgrade<'a>(
    alloc: Global,
    log: Text<'a>,
    refused: NotCreated,
    scripts: Sources<'a>,
) -> io::Result<Done> {
    let out = LogTo {
        path: "b.log",
        log: Place { refused },
    };
    let mut output: Vec<u8> = Vec::new(alloc);
    let mut errors: Vec<u8> = Vec::new(alloc);
    let log = log_at("a.log", log);
    let upgraded = upgrade_over(alloc, false, log, out, scripts, &mut output, &mut errors);
    Done::new(upgraded, output, errors)
}

// Whether the upgrade of the short write, whose file is refused so, says this.
fn is_refused(alloc: Global, refused: NotCreated, line: &str) -> io::Result<bool> {
    let scripts = sources(alloc, &[SHORT_WRITE])?;
    let done = upgrade(alloc, Text::Script(THREE_RECORDS), refused, scripts)?;
    Ok(!done.unused && done.told.is(4, "", line))
}

// Why a file is not made, and what is told of it.
const REFUSED: &[(NotCreated, &str)] = &[
    (NotCreated::Failed, "cannot write b.log\n"),
    (
        NotCreated::NotALog,
        "cannot write b.log\nthe file there is not empty and is not a log: --force replaces it\n",
    ),
    (NotCreated::IsALog, "cannot write b.log\n"),
    (NotCreated::Memory, "no memory\n"),
];

#[test]
fn a_file_is_refused(rt: HostRuntime) -> Result<(), Fail> {
    for (why, line) in REFUSED {
        assert!(rt; is_refused(rt.alloc(), *why, line)?, "{line}");
    }
    Ok(())
}

const LOG: Device = Device::Text(THREE_RECORDS);

const NEW_LOG: Device = Device::Text(WITH_CLOCKS);

const GOOD: Device = Device::Text(b"end\n");

const BAD: Device = Device::Text(b"x\n");

// The number of scripts is looked at first, then the log is read, then the scripts in their order;
// then the first script that is bad counts, and then what the upgrade says.
const FAULTS: &[(Device, &[Device], u8, &str, &str)] = &[
    (Device::Broken, &[], 2, "", "needs 1 to 16 scripts\n"),
    (
        Device::Broken,
        &[Device::Broken],
        4,
        "",
        "cannot read a.log\n",
    ),
    (Device::Endless, &[BAD], 4, "", "cannot read a.log\n"),
    (NEW_LOG, &[BAD, Device::Broken], 4, "", "cannot read 1\n"),
    (NEW_LOG, &[GOOD, BAD], 3, "", "script 1: bad line 1\n"),
    (NEW_LOG, &[GOOD, GOOD], 3, "", "log: bad version\n"),
    (
        LOG,
        &[GOOD, GOOD],
        3,
        "",
        "log has 1 threads, 2 scripts given\n",
    ),
    (LOG, &[GOOD], 1, "stop diverged 0 0\n", ""),
];

// Whether `upgrade` says this of what is on these devices, unless memory is wanted, and asks for no
// file.
fn is_fault(
    alloc: Global,
    log: Device,
    scripts: &[Device],
    status: u8,
    output: &str,
    errors: &str,
) -> io::Result<bool> {
    let done = upgrade(
        alloc,
        Text::Device(log),
        NotCreated::Failed,
        numbered(alloc, scripts)?,
    )?;
    Ok(done.unused && done.told.may_be(status, output, errors))
}

#[test]
fn faults_of_upgrades_ask_for_no_file(rt: HostRuntime) -> Result<(), Fail> {
    for (log, scripts, status, output, errors) in FAULTS {
        assert!(rt;
            is_fault(rt.alloc(), *log, scripts, *status, output, errors)?,
            "{output}{errors}"
        );
    }
    Ok(())
}
