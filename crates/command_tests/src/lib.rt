//! Tests of what the commands read, print and record, over devices, lists and the host, where no example can show it:
//! what scripts and logs in files print is in `examples/`. They stand
//! in a crate of their own: rt proves a crate once more
//! from nothing with its tests.
#![tactic(auto)]

#[cfg(test)]
mod compares;
#[cfg(test)]
mod devices;
#[cfg(test)]
mod draws;
#[cfg(test)]
mod faults;
#[cfg(test)]
mod hosts;
#[cfg(test)]
mod json_lines;
#[cfg(test)]
mod listed;
#[cfg(test)]
mod logs;
#[cfg(test)]
mod makes;
#[cfg(test)]
mod notices;
#[cfg(test)]
mod overlap;
#[cfg(test)]
mod recording;
#[cfg(test)]
mod replays;
#[cfg(test)]
mod sizes;
#[cfg(test)]
mod told;
#[cfg(test)]
mod unrecorded;
#[cfg(test)]
mod upgrades;
