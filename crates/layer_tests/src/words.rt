//! The doors to the outside, and the sinks of logs.

mod doors;
mod gates;
mod hosts;
mod logs;
