//! Plain runs, a machine that is driven event by event, and the history of a replay: what a run or a
//! replay prints is in `examples/`.

mod driven;
mod machine_runs;
mod plain_runs;
mod refused_memory;
mod replays;
mod seen;
