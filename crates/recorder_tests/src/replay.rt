use crate::record::{actors, scripts};
use comparator::{Verdict, compare};
use posix_terms::Transcripts;
use replayer::{replay, replay_threads};
use std::alloc::{AllocError, Global};
use std::sync::Wait;
use std::thread::Threads;

// Whether the log of a run of these scripts is replayed to what its threads saw, on one thread and by threads.
pub(crate) fn is_replayed<R: Threads + Wait + Sync>(
    rt: &R,
    alloc: Global,
    texts: &[&[u8]],
    seen: &Transcripts,
    log: &[u8],
) -> Result<bool, AllocError> {
    Ok(
        is_replayed_on_one(alloc, texts, seen, log)?
            && is_replayed_by_threads(rt, alloc, texts, seen, log)?,
    )
}

fn is_replayed_on_one(
    alloc: Global,
    texts: &[&[u8]],
    seen: &Transcripts,
    log: &[u8],
) -> Result<bool, AllocError> {
    match replay(alloc, log, scripts(alloc, texts)?) {
        Ok(replayed) => Ok(compare(seen, &replayed.transcripts) == Verdict::Same),
        Err(_) => Ok(false),
    }
}

// By threads a log is written, which is the one replayed: of one
// thread byte by byte, and of more threads in another order.
fn is_replayed_by_threads<R: Threads + Wait + Sync>(
    rt: &R,
    alloc: Global,
    texts: &[&[u8]],
    seen: &Transcripts,
    log: &[u8],
) -> Result<bool, AllocError> {
    match replay_threads(rt, alloc, log, actors(alloc, texts)?) {
        Ok(over) => Ok(
            over.stop.is_none()
                && compare(seen, &over.transcripts) == Verdict::Same
                && is_same_log(over.sink.bytes(), log, texts.len()),
        ),
        Err(_) => Ok(false),
    }
}

fn is_same_log(own: &[u8], log: &[u8], threads: usize) -> bool {
    own.len() == log.len() && (threads > 1 || own == log)
}
