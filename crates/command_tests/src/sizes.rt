use crate::devices::Text;
use crate::recording::{NewLogFile, free_path, is_replayed};
use crate::told::show;
use commands::DEFAULTS;
use std::fs::{self, remove_file};
use std::io;
use std::test::Fail;

// Room for the log of this run.
const ROOM: usize = 1_000_000;

// Opens a device of the host, writes to it 1,500 times and closes it: 1,502 outcomes.
const WRITER: &str = "host_open /dev/null w
set r3 r0
set r2 -1500
label more
write r3 x61
add r2 1
jzero r2 done
jump more
label done
close r3
";

const WRITERS: &[&str] = &[WRITER, WRITER, WRITER];

// How many lines `show` prints of the log at this path.
fn lines_shown(rt: HostRuntime, path: &str) -> io::Result<Option<usize>> {
    let log = Text::File(fs::open(&rt, path)?);
    Ok(show(rt.alloc(), log)?.lines())
}

#[test]
fn a_log_has_more_than_four_thousand_records(rt: HostRuntime) -> Result<(), Fail> {
    let path = free_path(rt, "writers")?;
    let log = NewLogFile {
        host: rt,
        path: path.as_str(),
        room: ROOM,
    };
    assert!(rt; is_replayed(&rt, DEFAULTS, log, WRITERS)?);
    // a line for the header, for each record, and for the end
    assert_eq!(rt; lines_shown(rt, path.as_str())?, Some(1 + 3 * 1502 + 1));
    remove_file(&rt, path.as_str())?;
    Ok(())
}
