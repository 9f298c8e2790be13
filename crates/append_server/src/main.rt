//! A small server that appends what it reads from a stream to a host file,
//! and its client: the model for whoever embeds the recorder.
//!
//! The two are actors made in code (`actors`), each with a thread of its
//! own. Their run is recorded over the real host, into a log in
//! memory (`run`). Then the host file is removed, and the log is replayed:
//! both threads see the same again, with no file and no network.
#![tactic(auto)]

mod actors;
mod lines;
mod run;

use recorder::hosts;
use run::{record, replay_log, saw_the_same};
use std::fs::{read_to_string, remove_file};
use std::process;

fn main(rt: HostRuntime) -> anyhow::Result<()> {
    let id = process::id(rt.process());
    let path = format!(in rt.alloc(); "/tmp/detio_append_server_{id}")?;
    let outsides = hosts(rt, rt.alloc(), 2)?;
    let recorded = record(&rt, rt.alloc(), path.as_str(), outsides)?;
    let ended = recorded.stop.is_none();
    println!(rt; "the run came to its end: {ended}")?;
    let text = read_to_string(&rt, path.as_str())?;
    println!(rt; "the file has: {text}")?;
    remove_file(&rt, path.as_str())?;
    let replayed = replay_log(rt.alloc(), path.as_str(), recorded.sink.bytes())?;
    let same = saw_the_same(&replayed.transcripts, &recorded.transcripts);
    println!(rt; "replayed with no file and no network, the same: {same}")?;
    Ok(())
}
