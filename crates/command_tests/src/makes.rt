use crate::devices::{Device, Text};
use crate::logs::{THREE_RECORDS, WITH_CLOCKS};
use crate::told::{Said, log_at, show};
use commands::{LogMade, LogTo, NewFile, NotCreated, OutFile, make_over};
use std::alloc::Global;
use std::io;
use std::test::Fail;

// A new file in memory.
#[derive(Drop)]
struct Place {
    alloc: Global,
}

impl NewFile<Vec<u8>> for Place {
    ghost refuses = { λ _ _. Unit {0} };

    fn write(self, bytes: &[u8]) -> Result<Vec<u8>, NotCreated> {
        Vec::from_slice(self.alloc, bytes).map_err(|_| NotCreated::Memory)
    }
}

// What `make` told, and what became of its file.
#[derive(Drop)]
struct Done {
    told: Said,
    file: OutFile<Place, Vec<u8>>,
}

// Makes the log of this text, "a.text".
fn make(alloc: Global, text: Text<'_>) -> io::Result<Done> {
    let out = LogTo {
        path: "b.log",
        log: Place { alloc },
    };
    let mut output: Vec<u8> = Vec::new(alloc);
    let mut errors: Vec<u8> = Vec::new(alloc);
    let text = log_at("a.text", text);
    let LogMade { status, file } = make_over(alloc, text, out, &mut output, &mut errors)?;
    let told = Said::new(Ok(status), output, errors)?;
    Ok(Done { told, file })
}

// Whether of what `show` prints of this log `make` makes the log again.
fn is_made(alloc: Global, log: &[u8]) -> io::Result<bool> {
    let shown = show(alloc, Text::Script(log))?;
    let done = make(alloc, Text::Script(shown.output.as_slice()))?;
    Ok(match &done.file {
        OutFile::Written(file) => done.told.is(0, "", "") && file.as_slice() == log,
        _ => false,
    })
}

#[test]
fn what_is_shown_is_made(rt: HostRuntime) -> Result<(), Fail> {
    assert!(rt; is_made(rt.alloc(), THREE_RECORDS)?);
    assert!(rt; is_made(rt.alloc(), WITH_CLOCKS)?);
    Ok(())
}

// Texts of which no log is made.
const FAULTS: &[(Device, u8, &str)] = &[
    (Device::Broken, 4, "cannot read a.text\n"),
    (Device::Endless, 4, "cannot read a.text\n"),
    (Device::Text(b"end 0\n"), 3, "log text: bad line 1\n"),
];

// Whether `make` says this of a device, unless memory is wanted, and asks for no file.
fn is_fault(alloc: Global, text: Device, status: u8, line: &str) -> io::Result<bool> {
    let done = make(alloc, Text::Device(text))?;
    Ok(matches!(done.file, OutFile::Unused(_)) && done.told.may_be(status, "", line))
}

#[test]
fn faults_of_texts_ask_for_no_file(rt: HostRuntime) -> Result<(), Fail> {
    for (text, status, line) in FAULTS {
        assert!(rt; is_fault(rt.alloc(), *text, *status, line)?, "{line}");
    }
    Ok(())
}
