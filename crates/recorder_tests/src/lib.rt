//! The tests of recorded runs, over outsides that are lists of outcomes; of replays by threads, of
//! runs that were recorded and of logs that are written down here; of runs in which something goes
//! wrong (`hostile`).
#![tactic(auto)]

#[cfg(test)]
mod full_clock;
#[cfg(test)]
mod hostile;
#[cfg(test)]
mod outcomes;
#[cfg(test)]
mod record;
#[cfg(test)]
mod replay;
#[cfg(test)]
mod runs;
#[cfg(test)]
mod seen;
#[cfg(test)]
mod sockets;
#[cfg(test)]
mod stopped;
#[cfg(test)]
mod stops;
