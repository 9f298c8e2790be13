//! A library for programs in C: a machine for the threads of the program itself, which holds one
//! lock around each call.
//!
//! A `detio` is a place that is begun with zeroes. `detio_new` puts a run there, or `detio_open_log`
//! a replay of a log. A thread asks for a call by `detio_ask`. Then its driver, with the lock, goes
//! on as `detio_phase` says, until `detio_answer` has the reply. Each call returns a code: 0 that it
//! was done, 1 that there is more to do, 2 that the thread makes its call again, or else why it was
//! refused. What was refused has changed nothing, except that where the log has no room (9) the run
//! is stopped. After each call the machine in the handle is faithful to its history, whatever C
//! asked (`faithful`).
#![tactic(auto)]

mod ends;
mod events;
mod fault;
mod handle;
mod life;
mod place;
mod session;

pub use events::{
    detio_again, detio_answer, detio_ask, detio_begin_outside, detio_clock, detio_end,
    detio_has_turn, detio_holder, detio_may_go, detio_phase, detio_record, detio_request,
    detio_settle, detio_work,
};
pub use life::{
    detio_finish, detio_free, detio_log, detio_new, detio_next, detio_open_log, detio_stop,
    detio_unused,
};
