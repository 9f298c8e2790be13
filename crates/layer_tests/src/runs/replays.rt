use crate::runs::plain_runs::{NotRun, SHORT_TEXT, SHORT_WRITE_LOG, scripts};
use call_machine::{History, PlainFault};
use posix_terms::{Call, Errno, Outcome};
use replayer::{ReplayFault, replay};
use std::alloc::Global;

// Whether a history has three rows, from an open of a host file to a failure, and one thread asked four steps.
fn is_short_write(history: &History) -> bool {
    let asked = history.asked();
    match history.rows() {
        [opened, _, failed] => {
            matches!(opened.call(), Call::HostOpen { .. })
                && matches!(failed.outcome(), Some(Outcome::Fail(Errno::EIO)))
                && asked.len() == 1
                && asked.steps(0).len() == 4
        }
        _ => false,
    }
}

// Whether the history of the replay does. What its threads saw, and how other replays end, is in `examples/`.
fn has_short_write(alloc: Global) -> Result<bool, NotRun> {
    match replay(alloc, SHORT_WRITE_LOG, scripts(alloc, &[SHORT_TEXT])?) {
        Ok(replayed) => Ok(is_short_write(&replayed.history)),
        Err(ReplayFault::Memory) => Err(NotRun::Plain(PlainFault::Memory)),
        Err(_) => Ok(false),
    }
}

#[test]
fn the_history_of_a_short_host_write(rt: HostRuntime) {
    assert_eq!(rt;
        has_short_write(rt.alloc()),
        Ok(true),
        "three rows, from an open to EIO, and four steps of one thread"
    );
}
