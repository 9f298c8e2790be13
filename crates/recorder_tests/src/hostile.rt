//! Runs in which something goes wrong: what comes from outside fails, the log's sink fails, memory
//! is refused. Logs that are cut or changed are in `examples/`.

mod cuts;
mod outside;
mod refused_memory;
pub(crate) mod runs;
pub(crate) mod ways;
