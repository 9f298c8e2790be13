use crate::devices::{Device, Text};
use crate::told::show;
use std::alloc::Global;
use std::io;
use std::test::Fail;

/// Opens a host file, writes 3 of 8 bytes, and can write no more.
pub const SHORT_WRITE: &str = "host_open out w create
write 0 x0001020304050607
write 0 x0304
";

/// The log of that: a header and three records.
pub const THREE_RECORDS: &[u8] = b"DIOL\0\x01\0\x01\0\0\x03\xe8\0\0\0\x64\
    R\0\0\0\0\0\0\x01\0\0\0\0\0\0\0\0\0\0\0\
    R\0\0\0\0\0\x01\x03\0\0\0\0\0\0\0\0\x03\0\0\
    R\0\0\0\0\0\x02\x03\x09\0\0\0\0\0\0\0\0\0\0\
    E\0\0\0\x03";

/// The same in version 2, with the clocks of its turns.
pub const WITH_CLOCKS: &[u8] = b"DIOL\0\x02\0\x01\0\0\x03\xe8\0\0\0\x64\
    R\0\0\0\0\0\0\0\0\0\0\0\0\0\x01\x01\0\0\0\0\0\0\0\0\0\0\0\
    R\0\0\0\0\0\x01\0\0\0\0\0\0\0\x69\x03\0\0\0\0\0\0\0\0\x03\0\0\
    R\0\0\0\0\0\x02\0\0\0\0\0\0\0\xd1\x03\x09\0\0\0\0\0\0\0\0\0\0\
    E\0\0\0\x03";

// Whether `show` says that this log cannot be read.
fn is_unreadable(alloc: Global, log: Device) -> io::Result<bool> {
    Ok(show(alloc, Text::Device(log))?.is(4, "", "cannot read a.log\n"))
}

#[test]
fn unreadable_logs(rt: HostRuntime) -> Result<(), Fail> {
    assert!(rt; is_unreadable(rt.alloc(), Device::Broken)?);
    assert!(rt; is_unreadable(rt.alloc(), Device::Endless)?);
    Ok(())
}
